//! Laws over listings, each the contract of an empty function.

ghost use Rattle.std.specs.Prelude.{◌≡◌, ◌<◌, ℕ, List, slice_index, All, None};
ghost use Rattle.apf_asm.specs.declared.item.Item.{Item};
ghost use Rattle.apf_asm.specs.Items.{IsItemForm};
ghost use Rattle.apf_asm.specs.Layout.{layout};
ghost use Rattle.apf_asm.specs.Refusals.{answer};
ghost use Rattle.apf_disasm.specs.Assembled.{IsNoByte, instructions_of};
ghost use Rattle.apf_disasm.specs.Listing.{ListingEntry, IsListing};

/// Each code has one listing.
pub fn listings_are_determined()
    ensures some { (code : List ℕ) → ((k : ℕ) → slice_index code k < 256) → (entries : List ListingEntry) × IsListing code entries }
    ensures one { (code : List ℕ) (first second : List ListingEntry) → IsListing code first → IsListing code second → first ≡ second }
{}

/// A code that was assembled from items without bytes as they stand is listed as their instructions, each at its place.
pub fn assembled_codes_are_listed()
    ensures { (items : List Item) → All IsItemForm items → All IsNoByte items → answer items ≡ None → IsListing (layout items).bytes (instructions_of items) }
{}
