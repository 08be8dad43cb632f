//! Installs one after another, and lanes beside them.
ghost use Rattle.std.specs.Prelude.{◌≡◌, ℕ, ◌-◌, ◌<◌, ◌++◌, All, length, slice_index_or, IsTrue, IfOk};
ghost use Rattle.filter_core.specs.Arrivals.{arrivals_of};
ghost use Rattle.pcap_files.specs.Capture.{IsWithin};
ghost use Rattle.program_swap.specs.Driving.{dealt_frames, MayAnswer, AreDone, HasInstalled};
ghost use Rattle.program_swap.specs.Histories.{RisesByOne};
ghost use Rattle.program_swap.specs.Order.{LaneState};

use crate::gate::Gate;
use crate::installer::{Installer, Token};
use crate::lane::Lane;
use crate::working::run_lanes;
use apf_base::OutOfMemory;
use filter_core::Install;
use pcap_files::Placed;
use std::alloc::Global;
use std::sync::Wait;
use std::thread;
use std::thread::Threads;

/// Publishes copies of these installs in their order, and gives the last token, where there is one. After out of memory
/// those before it stand.
pub(crate) fn install_all<R: Wait, G: Gate>(
    rt: &R,
    alloc: Global,
    installer: &mut Installer,
    nexts: &[Install],
    gate: &G,
) -> Result<Option<Token>, OutOfMemory>
    requires live { IsTrue installer.old.live }
    requires numbers { RisesByOne (installer.old.published ++ nexts.now) }
    ensures { IfOk result (λ token. HasInstalled installer.old nexts.now installer.new token) }
{
    let mut token = None;
    for next in nexts {
        let copy = next.copy(alloc)?;
        let Ok(told) = installer.install(rt, copy, gate) else {
            return Err(OutOfMemory);
        };
        token = Some(told);
    }
    Ok(token)
}

/// The lanes answer in threads what they are dealt, beside the installs on the caller's thread.
pub(crate) fn beside<R: Threads + Wait + Sync, G: Gate>(
    rt: &R,
    alloc: Global,
    installer: &mut Installer,
    nexts: &[Install],
    lanes: &mut [Lane],
    capture: &[u8],
    frames: &[Placed],
    gate: &G,
) -> Result<Option<Token>, OutOfMemory>
    requires live { IsTrue installer.old.live }
    requires numbers { RisesByOne (installer.old.published ++ nexts.now) }
    requires within { All (IsWithin (length capture.now)) frames.now }
    requires room { (i : ℕ) (d : LaneState) → i < length lanes.old →
        MayAnswer (dealt_frames i (length lanes.old - 1) capture.now frames.now) (slice_index_or lanes.old i d) }
    ensures lanes { AreDone lanes.old 0 (length lanes.old - 1) (arrivals_of capture.now frames.now) lanes.new }
    ensures token { IfOk result (λ token. HasInstalled installer.old nexts.now installer.new token) }
{
    let (_, token) = thread::join_mut(
        rt,
        &mut ||
            requires within { All (IsWithin (length capture.now)) frames.now }
            requires room { (i : ℕ) (d : LaneState) → i < length lanes.now →
                MayAnswer (dealt_frames i (length lanes.now - 1) capture.now frames.now)
                (slice_index_or lanes.now i d) }
            ensures { AreDone lanes.entry.now 0 (length lanes.entry.now - 1)
                (arrivals_of capture.entry.now frames.entry.now) lanes.exit.now }
        { run_lanes(rt, lanes, capture, frames, gate) },
        &mut || -> Result<Option<Token>, OutOfMemory>
            requires { IsTrue installer.now.live × RisesByOne (installer.now.published ++ nexts.now) }
            ensures { IfOk result (λ token. HasInstalled installer.entry.now nexts.entry.now installer.exit.now token) }
        { install_all(rt, alloc, installer, nexts, gate) },
    );
    token
}
