//! The made script.

ghost use Rattle.std.specs.Prelude.{◌≡◌, ◌≤◌, map, IfOk, string_bytes};
ghost use Rattle.std.specs.List.{flat_map};
ghost use Rattle.made_input.specs.MadeScripts.{opening, doze_line, ended, made_script};

use apf_base::{List, OutOfMemory};
use std::alloc::Global;

/// The lines that each made script begins with, each with its line feed.
pub fn opening_lines() -> &'static [&'static str]
    ensures { map (λ line. line.now) result.now ≡ map ended opening }
{
    &[
        "apf 1\n",
        "mac 02:00:00:00:00:01\n",
        "capacity 2048\n",
        "start 1000\n",
        "drop802 on\n",
        "deny 88a2\n",
        "at 1000 multicast on\n",
        "at 1000 address 192.168.1.5/24\n",
    ]
}

/// The line of the jth change of the doze, with its line feed: on for odd j, off for even j, at second 1000 + 10 j.
#[tactic(auto, unfolding(crate::specs::MadeScripts::doze_line))]
pub fn doze_line(alloc: Global, j: u32) -> Result<String, OutOfMemory>
    requires { j ≤ 10000 }
    ensures { IfOk result (λ line. string_bytes line ≡ ended (doze_line j)) }
{
    let second = 1000 + 10 * j;
    let line = if j % 2 == 1 {
        format!(in alloc; "at {second} doze on\n")
    } else {
        format!(in alloc; "at {second} doze off\n")
    }?;
    Ok(line)
}

// The opening lines as one text.
fn opening_text(alloc: Global) -> Result<List<u8>, OutOfMemory>
    ensures { IfOk result (λ text. text ≡ flat_map ended opening) }
{
    let mut text = List::new(alloc);
    for line in opening_lines() {
        text.extend(line.as_bytes())?;
    }
    Ok(text)
}

/// The made script of a number n: the first six lines, two changes at the start, and then for each j from 1 on, while
/// 10 j is at most n, a change of the doze at second 1000 + 10 j: on for odd j, off for even j.
pub fn made_script(alloc: Global, n: u32) -> Result<List<u8>, OutOfMemory>
    requires { n ≤ 100000 }
    ensures { IfOk result (λ text. text ≡ made_script n) }
{
    let mut text = opening_text(alloc)?;
    for j in 1..n / 10 + 1 {
        let line = doze_line(alloc, j)?;
        text.extend(line.as_bytes())?;
    }
    Ok(text)
}
