//! Ranges of a frame, and why a frame is no record.

ghost use Rattle.std.specs.Prelude.{◌≡◌};
ghost use Rattle.ra_records.specs.declared.span.RaError.TheVariants.{OutOfMemory};

/// A range of a frame: `len` bytes from the place `at` on.
#[derive(Clone, Copy, Debug, PartialEq, Eq)]
pub struct Span {
    pub at: u32,
    pub len: u32,
}

/// Where the options of an advertisement begin, behind the message's fixed part.
pub const OPTIONS_AT: usize = 70;

/// The most bytes of an advertisement's frame.
pub const ADVERTISEMENT_LIMIT: usize = 1514;

/// The flow label, with half of the traffic class.
pub const FLOW_LABEL: Span = Span { at: 15, len: 3 };

/// The checksum of ICMPv6.
pub const CHECKSUM: Span = Span { at: 56, len: 2 };

/// The router lifetime.
pub const ROUTER: Span = Span { at: 60, len: 2 };

/// Why a frame is no record. The number is the place of an option in the frame.
#[derive(Clone, Copy, Debug, PartialEq, Eq)]
pub enum RaError {
    /// It is no router advertisement.
    NotRa,
    /// It has fewer than 70 bytes, so the message's fixed part isn't whole.
    Short,
    /// It has more than 1,514 bytes, which is more than an Ethernet frame has.
    TooLong,
    /// The option's length is missing, or the option ends past the frame.
    CutOption(u32),
    /// The option's length is 0.
    ZeroOption(u32),
    /// It is a prefix information of fewer than 16 bytes, which has no place for both lifetimes.
    ShortOption(u32),
    OutOfMemory,
}

impl From<apf_base::OutOfMemory> for RaError {
    ghost from_gives = { λ _ e. e ≡ OutOfMemory };

    fn from(_: apf_base::OutOfMemory) -> Self {
        RaError::OutOfMemory
    }
}
