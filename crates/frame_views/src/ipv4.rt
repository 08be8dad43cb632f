//! The IPv4 header, and the headers of UDP and TCP behind it.

ghost use Rattle.std.specs.Prelude.{◌≡◌, ◌+◌, ◌≤◌};
ghost use Rattle.std.specs.Option.{option_copied};
ghost use Rattle.frame_views.specs.Fields.{field, part};
ghost use Rattle.frame_views.specs.Packets.{header_length};

use crate::fields::{number, part};
use std::marker::Model;

/// The IPv4 header of a frame, which begins at its byte 14 (RFC 791, section 3.1).
#[derive(Debug, Drop)]
pub struct Ip4<'a> {
    frame: &'a [u8],
}

impl<'a> Model for Ip4<'a> {
    ghost use Rattle.std.specs.Prelude.{ℕ, List};

    ghost Value = { List ℕ };

    ghost view = { λ packet. packet.frame.now };
}

impl<'a> Ip4<'a> {
    /// The header of this frame.
    pub fn new(frame: &'a [u8]) -> Ip4<'a>
        ensures { result ≡ frame.now }
    {
        Ip4 { frame }
    }

    /// The header's length in bytes, a multiple of four up to 60. It is 0 where the version isn't 4, and where byte 14 is missing.
    pub fn header_len(&self) -> u32
        ensures length { result ≡ header_length self.now }
        ensures most { result ≤ 60 }
    {
        if self.frame.len() <= 14 {
            return 0;
        }
        let byte = u32::from(self.frame[14]);
        if byte / 16 == 4 { byte % 16 * 4 } else { 0 }
    }

    /// The total length in bytes, of header and data: 2 bytes at 16.
    pub fn total_length(&self) -> Option<u32>
        ensures { result ≡ field self.now 16 2 }
    {
        number(self.frame, 16, 2)
    }

    /// Three flags, and then the fragment's offset in units of 8 bytes: 2 bytes at 20.
    pub fn fragment(&self) -> Option<u32>
        ensures { result ≡ field self.now 20 2 }
    {
        number(self.frame, 20, 2)
    }

    /// The protocol, as 6 for TCP and 17 for UDP: 1 byte at 23.
    pub fn protocol(&self) -> Option<u32>
        ensures { result ≡ field self.now 23 1 }
    {
        number(self.frame, 23, 1)
    }

    /// The destination address: 4 bytes at 30.
    pub fn destination(&self) -> Option<u32>
        ensures { result ≡ field self.now 30 4 }
    {
        number(self.frame, 30, 4)
    }

    /// The source address and then the destination address: 8 bytes at 26.
    pub fn ends(&self) -> Option<&'a [u8]>
        ensures { option_copied result ≡ part self.now 26 8 }
    {
        part(self.frame, 26, 8)
    }
}

/// The UDP header of a frame (RFC 768), behind an IPv4 header of some bytes.
#[derive(Debug, Drop)]
pub struct Udp<'a> {
    frame: &'a [u8],
    h: u32,
}

impl<'a> Model for Udp<'a> {
    ghost use Rattle.std.specs.Prelude.{◌≤◌};
    ghost use Rattle.frame_views.specs.Packets.{Segment};

    ghost Value = { Segment };

    ghost view = { λ segment. record { frame = segment.frame.now; header = segment.h } };

    ghost invariant = { λ segment. segment.h ≤ 60 };
}

impl<'a> Udp<'a> {
    /// The header in this frame, behind an IPv4 header of h bytes.
    pub fn new(frame: &'a [u8], h: u32) -> Udp<'a>
        requires { h ≤ 60 }
        ensures { result ≡ record { frame = frame.now; header = h } }
    {
        Udp { frame, h }
    }

    /// The source port: 2 bytes at 14 + h.
    pub fn source_port(&self) -> Option<u32>
        ensures { result ≡ field self.now.frame (14 + self.now.header) 2 }
    {
        number(self.frame, 14 + self.h, 2)
    }

    /// The destination port: 2 bytes at 16 + h.
    pub fn destination_port(&self) -> Option<u32>
        ensures { result ≡ field self.now.frame (16 + self.now.header) 2 }
    {
        number(self.frame, 16 + self.h, 2)
    }

    /// The length in bytes, of header and data: 2 bytes at 18 + h.
    pub fn length(&self) -> Option<u32>
        ensures { result ≡ field self.now.frame (18 + self.now.header) 2 }
    {
        number(self.frame, 18 + self.h, 2)
    }

    /// The first byte of the data: 1 byte at 22 + h.
    pub fn first_byte(&self) -> Option<u32>
        ensures { result ≡ field self.now.frame (22 + self.now.header) 1 }
    {
        number(self.frame, 22 + self.h, 1)
    }

    /// The client's hardware address in a DHCP message (`chaddr`, RFC 2131, section 2): 6 bytes at 50 + h.
    pub fn client_mac(&self) -> Option<&'a [u8]>
        ensures { option_copied result ≡ part self.now.frame (50 + self.now.header) 6 }
    {
        part(self.frame, 50 + self.h, 6)
    }
}

/// The TCP header of a frame (RFC 9293, section 3.1), behind an IPv4 header of some bytes.
#[derive(Debug, Drop)]
pub struct Tcp<'a> {
    frame: &'a [u8],
    h: u32,
}

impl<'a> Model for Tcp<'a> {
    ghost use Rattle.std.specs.Prelude.{◌≤◌};
    ghost use Rattle.frame_views.specs.Packets.{Segment};

    ghost Value = { Segment };

    ghost view = { λ segment. record { frame = segment.frame.now; header = segment.h } };

    ghost invariant = { λ segment. segment.h ≤ 60 };
}

impl<'a> Tcp<'a> {
    /// The header in this frame, behind an IPv4 header of h bytes.
    pub fn new(frame: &'a [u8], h: u32) -> Tcp<'a>
        requires { h ≤ 60 }
        ensures { result ≡ record { frame = frame.now; header = h } }
    {
        Tcp { frame, h }
    }

    /// The byte whose high nibble is the header's length in units of 4 bytes (the data offset): 1 byte at 26 + h.
    pub fn size_byte(&self) -> Option<u32>
        ensures { result ≡ field self.now.frame (26 + self.now.header) 1 }
    {
        number(self.frame, 26 + self.h, 1)
    }

    /// The source port, the destination port, the sequence number and the acknowledgement number: 12 bytes at 14 + h.
    pub fn opening(&self) -> Option<&'a [u8]>
        ensures { option_copied result ≡ part self.now.frame (14 + self.now.header) 12 }
    {
        part(self.frame, 14 + self.h, 12)
    }
}
