//! The IPv6 header, and the ICMPv6 message behind it.

use crate::fields::{number, part};
use std::marker::Model;

/// The IPv6 header of a frame, in its bytes 14 to 53 (RFC 8200, section 3).
#[derive(Debug, Drop)]
pub struct Ip6<'a> {
    frame: &'a [u8],
}

impl<'a> Model for Ip6<'a> {
    ghost use Rattle.std.specs.Prelude.{ℕ, List};

    ghost Value = { List ℕ };

    ghost view = { λ packet. packet.frame.now };
}

impl<'a> Ip6<'a> {
    ghost use Rattle.std.specs.Prelude.{◌≡◌};
    ghost use Rattle.std.specs.Option.{option_copied};
    ghost use Rattle.frame_views.specs.Fields.{field, part};

    /// The header of this frame.
    pub fn new(frame: &'a [u8]) -> Ip6<'a>
        ensures { result ≡ frame.now }
    {
        Ip6 { frame }
    }

    /// What follows the header, as 58 for ICMPv6: 1 byte at 20.
    pub fn next_header(&self) -> Option<u32>
        ensures { result ≡ field self.now 20 1 }
    {
        number(self.frame, 20, 1)
    }

    /// The source address: 16 bytes at 22.
    pub fn source(&self) -> Option<&'a [u8]>
        ensures { option_copied result ≡ part self.now 22 16 }
    {
        part(self.frame, 22, 16)
    }

    /// The destination address: 16 bytes at 38.
    pub fn destination(&self) -> Option<&'a [u8]>
        ensures { option_copied result ≡ part self.now 38 16 }
    {
        part(self.frame, 38, 16)
    }

    /// The destination address's first byte, which is ff for a multicast address: 1 byte at 38.
    pub fn first_byte(&self) -> Option<u32>
        ensures { result ≡ field self.now 38 1 }
    {
        number(self.frame, 38, 1)
    }
}

/// The ICMPv6 message of a frame, which begins at its byte 54, where no extension header stands before it (RFC 4443, section 2.1).
#[derive(Debug, Drop)]
pub struct Icmp6<'a> {
    frame: &'a [u8],
}

impl<'a> Model for Icmp6<'a> {
    ghost use Rattle.std.specs.Prelude.{ℕ, List};

    ghost Value = { List ℕ };

    ghost view = { λ message. message.frame.now };
}

impl<'a> Icmp6<'a> {
    ghost use Rattle.std.specs.Prelude.{◌≡◌};
    ghost use Rattle.frame_views.specs.Fields.{field};

    /// The message of this frame.
    pub fn new(frame: &'a [u8]) -> Icmp6<'a>
        ensures { result ≡ frame.now }
    {
        Icmp6 { frame }
    }

    /// The message's type, as 134 for a router advertisement: 1 byte at 54.
    pub fn kind(&self) -> Option<u32>
        ensures { result ≡ field self.now 54 1 }
    {
        number(self.frame, 54, 1)
    }

    /// The router lifetime of a router advertisement, in seconds (RFC 4861, section 4.2): 2 bytes at 60.
    pub fn router_lifetime(&self) -> Option<u32>
        ensures { result ≡ field self.now 60 2 }
    {
        number(self.frame, 60, 2)
    }
}
