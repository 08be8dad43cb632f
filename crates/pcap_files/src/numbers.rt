//! Numbers of a capture, in the order of its bytes.

ghost use Rattle.std.specs.Prelude.{◌≡◌, ◌≤◌, ◌+◌, ◌++◌, length, OnOk};
ghost use Rattle.pcap_files.specs.Capture.{number_at};
ghost use Rattle.pcap_files.specs.Writing.{bytes_of};

use apf_base::{List, OutOfMemory};
use byteorder::{BigEndian, ByteOrder, LittleEndian};

/// The number of the four bytes from a place on.
pub(crate) fn word_at(big: bool, bytes: &[u8], at: usize) -> u32
    requires { at + 4 ≤ length bytes.now }
    ensures { result ≡ number_at big 4 at bytes.now }
{
    if big {
        BigEndian::read_u32(&bytes[at..])
    } else {
        LittleEndian::read_u32(&bytes[at..])
    }
}

/// The number of the two bytes from a place on.
pub(crate) fn half_at(big: bool, bytes: &[u8], at: usize) -> u16
    requires { at + 2 ≤ length bytes.now }
    ensures { result ≡ number_at big 2 at bytes.now }
{
    if big {
        BigEndian::read_u16(&bytes[at..])
    } else {
        LittleEndian::read_u16(&bytes[at..])
    }
}

/// Adds the four bytes of a number.
pub(crate) fn add_word(big: bool, number: u32, out: &mut List<u8>) -> Result<(), OutOfMemory>
    ensures { OnOk result (out.new ≡ out.old ++ bytes_of big 4 number) }
{
    let mut bytes = [0; 4];
    if big {
        BigEndian::write_u32(&mut bytes, number);
    } else {
        LittleEndian::write_u32(&mut bytes, number);
    }
    out.extend(&bytes)
}

/// Adds the two bytes of a number.
pub(crate) fn add_half(big: bool, number: u16, out: &mut List<u8>) -> Result<(), OutOfMemory>
    ensures { OnOk result (out.new ≡ out.old ++ bytes_of big 2 number) }
{
    let mut bytes = [0; 2];
    if big {
        BigEndian::write_u16(&mut bytes, number);
    } else {
        LittleEndian::write_u16(&mut bytes, number);
    }
    out.extend(&bytes)
}
