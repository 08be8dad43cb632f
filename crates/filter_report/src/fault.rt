//! Why a report ends before its end.

ghost use Rattle.std.specs.Prelude.{◌≡◌};
ghost use Rattle.filter_report.specs.declared.fault.ReportFault.TheVariants.{OutOfMemory as NoMemory, Write as NotWritten};
ghost use Rattle.filter_report.specs.Faults.{command_fault};

use apf_base::{Failed, OutOfMemory};
use command_plan::{Fault, Refusal};

/// Why a report ends before its end.
#[derive(Clone, Copy, Debug, PartialEq, Eq)]
pub enum ReportFault {
    /// The bytes that the first program needs at least are more than the limit, which is the capacity less 128.
    TooLarge { need: u32, limit: u32 },
    OutOfMemory,
    /// A line couldn't be written.
    Write,
}

impl From<OutOfMemory> for ReportFault {
    ghost from_gives = { λ _ e. e ≡ NoMemory };

    fn from(_: OutOfMemory) -> Self {
        ReportFault::OutOfMemory
    }
}

impl From<Failed> for ReportFault {
    ghost from_gives = { λ _ e. e ≡ NotWritten };

    fn from(_: Failed) -> Self {
        ReportFault::Write
    }
}

impl From<ReportFault> for Fault {
    ghost from_gives = { λ e fault. fault ≡ command_fault e };

    fn from(fault: ReportFault) -> Self {
        match fault {
            ReportFault::TooLarge { need, limit } => {
                Fault::Refused(Refusal::TooLarge { need, limit })
            }
            ReportFault::OutOfMemory => Fault::OutOfMemory,
            ReportFault::Write => Fault::Write,
        }
    }
}
