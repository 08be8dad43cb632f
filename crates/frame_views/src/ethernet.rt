//! The Ethernet header.

use crate::fields::{number, part};
use std::marker::Model;

/// The Ethernet header of a frame, in its bytes 0 to 13 (IEEE 802.3, sections 3.2.3 to 3.2.6).
#[derive(Debug, Drop)]
pub struct Ether<'a> {
    frame: &'a [u8],
}

impl<'a> Model for Ether<'a> {
    ghost use Rattle.std.specs.Prelude.{ℕ, List};

    ghost Value = { List ℕ };

    ghost view = { λ ether. ether.frame.now };
}

impl<'a> Ether<'a> {
    ghost use Rattle.std.specs.Prelude.{◌≡◌};
    ghost use Rattle.std.specs.Option.{option_copied};
    ghost use Rattle.frame_views.specs.Fields.{field, part};

    /// The header of this frame.
    pub fn new(frame: &'a [u8]) -> Ether<'a>
        ensures { result ≡ frame.now }
    {
        Ether { frame }
    }

    /// The destination MAC: 6 bytes at 0.
    pub fn destination(&self) -> Option<&'a [u8]>
        ensures { option_copied result ≡ part self.now 0 6 }
    {
        part(self.frame, 0, 6)
    }

    /// The source MAC: 6 bytes at 6.
    pub fn source(&self) -> Option<&'a [u8]>
        ensures { option_copied result ≡ part self.now 6 6 }
    {
        part(self.frame, 6, 6)
    }

    /// The ethertype, or a number below 0x600 for an 802.3 frame's length: 2 bytes at 12.
    pub fn ethertype(&self) -> Option<u32>
        ensures { result ≡ field self.now 12 2 }
    {
        number(self.frame, 12, 2)
    }
}
