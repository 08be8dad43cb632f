//! The lines of a report, each on its own.

ghost use Rattle.std.specs.Prelude.{◌≡◌, ◌≢◌, IfOk, None};
ghost use Rattle.ra_records.specs.declared.span.RaError.TheVariants.{NotRa, OutOfMemory as NoMemory};
ghost use Rattle.script_text.specs.Report.{gen_line, update_line, frame_line, ra_line};

use apf_base::{List, OutOfMemory};
use filter_core::Install;
use policy_state::{Answer, UpdateReply};
use ra_records::RaReply;
use script_text::{print_frame, print_gen, print_ra, print_update};
use std::alloc::Global;

/// The line of an install.
pub(crate) fn gen_line(alloc: Global, install: &Install) -> Result<List<u8>, OutOfMemory>
    ensures { IfOk result (λ line. line ≡ gen_line install.now.number install.now.at install.now.left install.now.code) }
{
    let mut line = List::new(alloc);
    print_gen(
        alloc,
        install.number,
        install.at,
        install.left.as_slice(),
        install.code.as_slice(),
        &mut line,
    )?;
    Ok(line)
}

/// The line of an update that installed nothing.
pub(crate) fn update_line(
    alloc: Global,
    reply: &UpdateReply,
    clock: u32,
) -> Result<List<u8>, OutOfMemory>
    requires { reply.now ≢ UpdateReply.Installed }
    ensures { IfOk result (λ line. line ≡ update_line reply.now clock) }
{
    let mut line = List::new(alloc);
    print_update(alloc, reply, clock, &mut line)?;
    Ok(line)
}

/// The line of an answer, by the number of its frame.
pub(crate) fn frame_line(alloc: Global, k: u64, answer: &Answer) -> Result<List<u8>, OutOfMemory>
    ensures { IfOk result (λ line. line ≡ frame_line k None answer.now) }
{
    let mut line = List::new(alloc);
    print_frame(alloc, k, None, answer, &mut line)?;
    Ok(line)
}

/// The line of an advertisement, by the number of its frame.
pub(crate) fn ra_line(alloc: Global, k: u64, reply: &RaReply) -> Result<List<u8>, OutOfMemory>
    requires advertisement { reply.now ≢ RaReply.Bad NotRa }
    requires memory { reply.now ≢ RaReply.Bad NoMemory }
    ensures { IfOk result (λ line. line ≡ ra_line k reply.now) }
{
    let mut line = List::new(alloc);
    print_ra(alloc, k, reply, &mut line)?;
    Ok(line)
}
