//! The ARP packet.

use crate::fields::{number, part};
use std::marker::Model;

/// The ARP packet of a frame, which begins at its byte 14 (RFC 826, "Packet format").
///
/// The places are those of a packet for Ethernet and IPv4 addresses, as its opening says.
#[derive(Debug, Drop)]
pub struct Arp<'a> {
    frame: &'a [u8],
}

impl<'a> Model for Arp<'a> {
    ghost use Rattle.std.specs.Prelude.{ℕ, List};

    ghost Value = { List ℕ };

    ghost view = { λ packet. packet.frame.now };
}

impl<'a> Arp<'a> {
    ghost use Rattle.std.specs.Prelude.{◌≡◌};
    ghost use Rattle.std.specs.Option.{option_copied};
    ghost use Rattle.frame_views.specs.Fields.{field, part};

    /// The packet of this frame.
    pub fn new(frame: &'a [u8]) -> Arp<'a>
        ensures { result ≡ frame.now }
    {
        Arp { frame }
    }

    /// The kinds and lengths of the addresses (`ar$hrd` to `ar$pln`): 6 bytes at 14.
    pub fn opening(&self) -> Option<&'a [u8]>
        ensures { option_copied result ≡ part self.now 14 6 }
    {
        part(self.frame, 14, 6)
    }

    /// The operation (`ar$op`), 1 for a request and 2 for a reply: 2 bytes at 20.
    pub fn operation(&self) -> Option<u32>
        ensures { result ≡ field self.now 20 2 }
    {
        number(self.frame, 20, 2)
    }

    /// The sender's IPv4 address (`ar$spa`): 4 bytes at 28.
    pub fn sender(&self) -> Option<u32>
        ensures { result ≡ field self.now 28 4 }
    {
        number(self.frame, 28, 4)
    }

    /// The target's IPv4 address (`ar$tpa`): 4 bytes at 38.
    pub fn target(&self) -> Option<u32>
        ensures { result ≡ field self.now 38 4 }
    {
        number(self.frame, 38, 4)
    }
}
