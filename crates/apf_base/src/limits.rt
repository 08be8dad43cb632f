//! How many bytes the things that the suite works on have at most.

ghost use Rattle.std.specs.Prelude.{◌≡◌};
ghost use Rattle.apf_base.specs.Limits.{program_limit, frame_limit, text_limit, script_limit, capture_limit, memory_size};

/// The most bytes of a program.
pub const PROGRAM_LIMIT: usize = 65535;

/// The most bytes of a frame, and of what is captured of one.
pub const FRAME_LIMIT: u32 = 262144;

/// The most bytes of an assembler text.
pub const TEXT_LIMIT: usize = 1048576;

/// The most bytes of a script.
pub const SCRIPT_LIMIT: usize = 1048576;

/// The most bytes of a capture that is held whole.
pub const CAPTURE_LIMIT: usize = 67108864;

/// The bytes of the memory that a generated program runs over, which holds the counters.
pub const MEMORY_SIZE: usize = 128;

/// The limits of the code are those of the definitions.
pub fn limits_are_defined()
    ensures program { PROGRAM_LIMIT ≡ program_limit }
    ensures frame { FRAME_LIMIT ≡ frame_limit }
    ensures text { TEXT_LIMIT ≡ text_limit }
    ensures script { SCRIPT_LIMIT ≡ script_limit }
    ensures capture { CAPTURE_LIMIT ≡ capture_limit }
    ensures memory { MEMORY_SIZE ≡ memory_size }
{}
