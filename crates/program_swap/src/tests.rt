ghost use Rattle.std.specs.Prelude.{◌≡◌, ◌+◌, [], ◌∷◌, replicate, ◌<◌, IsTrue, IfOk, OnOk};
ghost use Rattle.program_swap.specs.Histories.{LastNumber};
ghost use Rattle.program_swap.specs.Lanes.{fresh_lane};

use crate::{Board, BoardError, Installer, Lane, NoGate, NotEntered, Places, Refused, Token};
use apf_base::{List, MEMORY_SIZE};
use filter_core::{Core, Install};
use policy_state::{Config, Keepalive, Update};
use std::alloc::Global;
use std::process::Abort;
use std::sync::Wait;
use std::test::Fail;
use std::thread;
use std::thread::Threads;

const ADD: Update = Update::KeepaliveAdd {
    slot: 0,
    sent: Keepalive {
        local: 0x0a00_0002,
        local_port: 40_000,
        remote: 0x0a00_0009,
        remote_port: 443,
        sequence: 1000,
        acknowledgement: 2000,
    },
};

/// 15 bytes of zeros: a frame that each program reads.
const ZEROS: [u8; 15] = [0; 15];

/// Install 0, a copy of it, and install 1, which has another program.
fn installs(rt: &impl Abort, alloc: Global) -> Result<(Install, Install, Install), Fail> {
    let config = Config {
        mac: [2, 0, 0, 0, 0, 1],
        capacity: 1024,
        drop_802_3: true,
        deny: List::new(alloc),
    };
    let mut core = Core::new(alloc, config, 1000)?;
    let first = core.install().copy(alloc)?;
    let copy = first.copy(alloc)?;
    assert!(rt; core.number() < u64::MAX);
    core.update(alloc, &ADD, 1001)?;
    let next = core.install().copy(alloc)?;
    Ok((first, copy, next))
}

/// A board of two lanes that shows install 0.
fn board<R: Wait>(
    rt: &R,
    alloc: Global,
    places: &mut Places,
    first: Install,
    room: u32,
) -> Result<(Installer, List<Lane>), BoardError>
    requires number { first.number ≡ 0 }
    requires refused { places.old.refused ≡ 0 }
    ensures live { IfOk result (λ r. IsTrue r.0.live) }
    ensures last { IfOk result (λ r. LastNumber r.0.published 0) }
    ensures lanes { IfOk result (λ r. r.1 ≡ replicate 2 (fresh_lane r.0.board (first ∷ []) room)) }
{
    match Board::new(rt, alloc, places, first, 2, room) {
        Ok((installer, lanes)) => Ok((installer, lanes)),
        Err(error) => Err(error),
    }
}

/// Publishes the install after the last, whose number is given.
fn publish<R: Wait>(
    rt: &R,
    installer: &mut Installer,
    last: u64,
    next: Install,
) -> Result<Token, Refused>
    requires live { IsTrue installer.old.live }
    requires last { LastNumber installer.old.published last }
    requires next { next.number ≡ last + 1 }
    ensures live { OnOk result (IsTrue installer.new.live) }
    ensures last { OnOk result (LastNumber installer.new.published (last + 1)) }
    ensures board { IfOk result (λ t. t.board ≡ installer.old.board) }
{
    match installer.install(rt, next, &NoGate) {
        Ok(token) => Ok(token),
        Err(refused) => Err(refused),
    }
}

/// The number of the install by which a lane answers the frame of zeros.
fn number(rt: &impl Abort, lane: &mut Lane) -> Option<u64>
    ensures { lane.new.board ≡ lane.old.board }
{
    assert!(rt; lane.spare() >= 1 && lane.refused() < 1 << 63);
    match lane.answer(0, &ZEROS, 1002, &NoGate) {
        Ok(answer) => Some(answer.number),
        Err(NotEntered) => None,
    }
}

/// Where an allocation fails the install is refused, and the lane goes on with install 0.
#[test]
fn a_lane_answers_by_what_it_learnt(rt: HostRuntime) -> Result<(), Fail> {
    let (first, _, next) = installs(&rt, rt.alloc())?;
    assert!(rt; first.number == 0 && next.number == 1);
    let mut places = Places::new();
    let made = board(&rt, rt.alloc(), &mut places, first, 3);
    let Ok((mut installer, mut lanes)) = made else {
        return Err(Fail::from("no board"));
    };
    let Some(mut lane) = lanes.remove(0) else {
        installer.close(&rt);
        return Err(Fail::from("no lane"));
    };
    assert_eq!(rt; number(&rt, &mut lane), Some(0));
    let told = publish(&rt, &mut installer, 0, next);
    assert_eq!(rt; installer.is_live(), told.is_ok());
    let wanted = match told {
        Ok(token) => {
            assert_eq!(rt; token.number(), 1);
            assert!(rt; lane.refused() < 1 << 63);
            assert!(rt; lane.learn(&token).is_ok());
            1u64
        }
        Err(refused) => {
            assert_eq!(rt; refused.install.number, 1);
            0
        }
    };
    assert_eq!(rt; number(&rt, &mut lane), Some(wanted));
    installer.close(&rt);
    assert_eq!(rt; number(&rt, &mut lane), None);
    assert_eq!(rt;
        (lane.entered(), lane.refused(), lane.spare()),
        (2, 1000, 1)
    );
    let end = lane.close(&mut places);
    assert_eq!(rt; (end.answers().len(), places.refused()), (2, 1000));
    Ok(())
}

/// Publishes 1,000 installs, which have the two programs in turn.
fn publish_all<R: Wait>(
    rt: &R,
    alloc: Global,
    installer: &mut Installer,
    even: &Install,
    odd: &Install,
) -> bool
    requires live { IsTrue installer.old.live }
    requires last { LastNumber installer.old.published 0 }
{
    for last in 0..1000u64 {
        let program = if last % 2 == 0 { odd } else { even };
        let Ok(mut next) = program.copy(alloc) else {
            return false;
        };
        next.number = last + 1;
        let Ok(_) = publish(rt, installer, last, next) else {
            return false;
        };
    }
    true
}

/// Whether the numbers of 1,000 answers of a lane never fall, and each answer is that of the install of its number, over
/// a memory of its own.
fn answers_agree(lane: &mut Lane, even: &Install, odd: &Install) -> bool {
    let mut memory = [0; MEMORY_SIZE];
    let mut last = 0;
    for k in 0..1000u64 {
        if lane.spare() < 1 || lane.refused() >= 1 << 63 {
            return false;
        }
        let Ok(answer) = lane.answer(k, &ZEROS, 1002, &NoGate) else {
            return false;
        };
        let program = if answer.number % 2 == 0 { even } else { odd };
        let mut wanted = program.answer(&ZEROS, 1002, &mut memory);
        wanted.number = answer.number;
        if answer.number < last || answer != wanted {
            return false;
        }
        last = answer.number;
    }
    true
}

/// Two lanes in threads, beside the installer.
fn beside<R: Threads + Wait + Sync>(
    rt: &R,
    alloc: Global,
    installer: &mut Installer,
    lanes: (&mut Lane, &mut Lane),
    even: &Install,
    odd: &Install,
) -> ((bool, bool), bool)
    requires live { IsTrue installer.old.live }
    requires last { LastNumber installer.old.published 0 }
{
    let (one, other) = lanes;
    thread::join_mut(
        rt,
        &mut || -> (bool, bool) {
            thread::join_mut(
                rt,
                &mut || -> bool { answers_agree(one, even, odd) },
                &mut || -> bool { answers_agree(other, even, odd) },
            )
        },
        &mut || -> bool
            requires { IsTrue installer.now.live × LastNumber installer.now.published 0 }
        { publish_all(rt, alloc, installer, even, odd) },
    )
}

#[test]
fn lanes_answer_beside_a_thousand_installs(rt: HostRuntime) -> Result<(), Fail> {
    let (first, even, odd) = installs(&rt, rt.alloc())?;
    assert!(rt; first.number == 0);
    let mut places = Places::new();
    let made = board(&rt, rt.alloc(), &mut places, first, 1000);
    let Ok((mut installer, mut lanes)) = made else {
        return Err(Fail::from("no board"));
    };
    let (Some(mut one), Some(mut other)) = (lanes.remove(0), lanes.remove(0)) else {
        installer.close(&rt);
        return Err(Fail::from("no lanes"));
    };
    let right = beside(
        &rt,
        rt.alloc(),
        &mut installer,
        (&mut one, &mut other),
        &even,
        &odd,
    );
    installer.close(&rt);
    assert_eq!(rt; right, ((true, true), true));
    Ok(())
}
