//! How a command may end before its end, and the exit statuses.

ghost use Rattle.std.specs.Prelude.{◌≡◌};
ghost use Rattle.command_plan.specs.Files.{kind_name, file_limit};
ghost use Rattle.command_plan.specs.Status.{refusal_status, status_of};
ghost use Rattle.command_plan.specs.declared.fault.Fault.TheVariants.{OutOfMemory as NoMemory, Refused as IsRefused};

use apf_asm::TextKind;
use apf_base::{CAPTURE_LIMIT, OutOfMemory, PROGRAM_LIMIT, SCRIPT_LIMIT, TEXT_LIMIT};
use pcap_files::PcapError;
use script_text::ScriptKind;
use std::alloc::AllocError;

/// The kinds of files that commands read.
#[derive(Clone, Copy, Debug, PartialEq, Eq)]
pub enum FileKind {
    /// The bytes of a program.
    Program,
    /// Assembler text.
    Text,
    Script,
    Capture,
}

impl FileKind {
    /// The most bytes of a file of this kind.
    pub fn limit(self) -> usize
        ensures { result ≡ file_limit self }
    {
        match self {
            FileKind::Program => PROGRAM_LIMIT,
            FileKind::Text => TEXT_LIMIT,
            FileKind::Script => SCRIPT_LIMIT,
            FileKind::Capture => CAPTURE_LIMIT,
        }
    }

    /// The word for it in error lines.
    pub fn name(self) -> &'static str
        ensures { result.now ≡ kind_name self }
    {
        match self {
            FileKind::Program => "program",
            FileKind::Text => "text",
            FileKind::Script => "script",
            FileKind::Capture => "capture",
        }
    }
}

/// A file that a command reads.
#[derive(Clone, Copy, Debug, PartialEq, Eq)]
pub struct Input {
    pub kind: FileKind,
    /// The place of its name among the words of the command line, where the command's own name has the place 0.
    pub word: usize,
}

/// What a command refuses, by what its files hold or its words ask for.
#[derive(Clone, Copy, Debug, PartialEq, Eq)]
pub enum Refusal {
    /// The first fault of the capture.
    BadCapture(PcapError),
    /// A line of the script, counted from 1, is refused.
    BadScript { line: u32, kind: ScriptKind },
    /// A line of assembler text, counted from 1, is refused.
    BadText { line: u32, kind: TextKind },
    /// The item, counted from 0, is a label that stands before.
    Twice { item: u32, label: u32 },
    /// The item is a jump to a label that stands nowhere.
    Unknown { item: u32, label: u32 },
    /// The item is a jump to a label that stands before it.
    Backward { item: u32, label: u32 },
    /// The file has more bytes than its kind allows.
    TooLong(Input),
    /// The assembled program has more bytes than a program may have.
    CodeTooLong,
    /// The program of the first state needs more bytes than the device has for it.
    TooLarge { need: u32, limit: u32 },
}

/// Why a command ended before its end.
#[derive(Clone, Copy, Debug, PartialEq, Eq)]
pub enum Fault {
    /// The words are no command's.
    Usage,
    Refused(Refusal),
    OutOfMemory,
    /// A read of the file failed.
    Read(Input),
    /// A write to the output failed.
    Write,
    /// The file could not be opened.
    Open(Input),
    /// A board refused a reader place or an entry.
    Board,
}

impl From<Refusal> for Fault {
    ghost from_gives = { λ refusal e. e ≡ IsRefused refusal };

    fn from(refusal: Refusal) -> Self {
        Fault::Refused(refusal)
    }
}

impl From<OutOfMemory> for Fault {
    ghost from_gives = { λ _ e. e ≡ NoMemory };

    fn from(_: OutOfMemory) -> Self {
        Fault::OutOfMemory
    }
}

impl From<AllocError> for Fault {
    ghost from_gives = { λ _ e. e ≡ NoMemory };

    fn from(_: AllocError) -> Self {
        Fault::OutOfMemory
    }
}

fn refusal_status(refusal: Refusal) -> u8
    ensures { result ≡ refusal_status refusal }
{
    match refusal {
        Refusal::BadCapture(_) => 65,
        Refusal::BadScript { .. } => 66,
        Refusal::BadText { .. } => 67,
        Refusal::Twice { .. } | Refusal::Unknown { .. } | Refusal::Backward { .. } => 67,
        Refusal::TooLong(_) | Refusal::CodeTooLong => 68,
        Refusal::TooLarge { .. } => 69,
    }
}

/// The exit status of an end.
pub fn status_of(end: Result<(), Fault>) -> u8
    ensures { result ≡ status_of end }
{
    match end {
        Ok(()) => 0,
        Err(Fault::Usage) => 64,
        Err(Fault::Refused(refusal)) => refusal_status(refusal),
        Err(Fault::OutOfMemory) => 70,
        Err(Fault::Read(_)) => 71,
        Err(Fault::Write) => 72,
        Err(Fault::Open(_)) => 73,
        Err(Fault::Board) => 76,
    }
}
