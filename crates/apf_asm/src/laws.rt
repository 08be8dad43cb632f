//! Laws over the definitions, each the contract of an empty function.

ghost use Rattle.std.specs.Prelude.{◌≡◌, ◌≤◌, ◌↔◌, ℕ, suc, List, length, Some};
ghost use Rattle.apf_asm.specs.declared.item.Item.{Item};
ghost use Rattle.apf_asm.specs.Layout.{layout, item_widths, wide_length};
ghost use Rattle.apf_asm.specs.declared.item.AsmError.{AsmError};
ghost use Rattle.apf_asm.specs.Refusals.{refusal, IsFirstRefusal};
ghost use Rattle.apf_asm.specs.Narrowing.{rounds};
ghost use Rattle.apf_asm.specs.Items.{bytes_limit};

use crate::item::BYTES_LIMIT;

/// The limit of the code is that of the definitions.
pub fn bytes_limit_is_defined()
    ensures { BYTES_LIMIT ≡ bytes_limit }
{}

/// Going through the items in order comes to what is wrong with the first that is refused.
pub fn refusals_are_first()
    ensures { (items : List Item) (error : AsmError) → (refusal items ≡ Some error) ↔ IsFirstRefusal items error }
{}

/// The code of items is never longer than the sum of their wide sizes, in which each jump has four bytes for its offset.
pub fn codes_are_at_most_wide()
    ensures { (items : List Item) → length (layout items).bytes ≤ wide_length items }
{}

/// Jumps that begin with width 4, and are narrowed in rounds to what their offsets need, come to the layout's widths.
pub fn narrowing_comes_to_the_layout()
    // Where a round changes nothing these are its widths,
    ensures still { (items : List Item) (n : ℕ) → rounds (suc n) items ≡ rounds n items → rounds n items ≡ item_widths items }
    // and after as many rounds as there are items nothing changes any more.
    ensures ends { (items : List Item) (n : ℕ) → length items ≤ n → rounds n items ≡ item_widths items }
{}
