//! `program`: a generated program alone.
#![tactic(auto, using(command_plan::proofs::Rules::following, command_plan::proofs::Rules::meaning))]

ghost use Rattle.std.specs.Prelude.{◌≡◌, string_bytes, IfOk};
ghost use Rattle.command_plan.specs.Follows.{Shelving, Thinks, Writes, stage};
ghost use Rattle.command_plan.specs.Meaning.{Does};
ghost use Rattle.apf_run.specs.Program.{IsBasisOf, code_line, generates, program_meaning, program_plan};
ghost use Rattle.apf_run.specs.Settings.{setting_of};

use crate::setting::ProgramWords;
use crate::words::program_words;
use apf_base::{List, OutOfMemory, Sink};
use apf_generate::generate;
use command_plan::{Fault, Lines, Refusal};
use policy_state::{Basis, Config, FilterState};
use size_fit::{base, limit};
use std::alloc::Global;

// What the program is made from: nothing is denied, and no keepalive was sent.
fn basis_of(alloc: Global, values: &ProgramWords) -> Basis
    ensures { IsBasisOf (setting_of values.now) result }
{
    Basis {
        config: Config {
            mac: values.mac,
            capacity: values.capacity,
            drop_802_3: values.flags.drop_802_3,
            deny: List::new(alloc),
        },
        state: FilterState {
            multicast: values.flags.multicast,
            doze: values.flags.doze,
            address: values.address,
            keepalives: [None; 8],
        },
        chosen: List::new(alloc),
    }
}

// A code for a setting, where its base fits.
fn code_of(alloc: Global, values: &ProgramWords) -> Result<List<u8>, Fault>
    ensures { Thinks (generates (setting_of values.now)) result }
{
    let basis = basis_of(alloc, values);
    let need = base(&basis.config, &basis.state);
    let limit = limit(&basis.config);
    if limit < need {
        return Err(Fault::Refused(Refusal::TooLarge { need, limit }));
    }
    let code = generate(alloc, &basis)?;
    Ok(code)
}

// The line of a code: two hexadecimal digits a byte.
#[tactic(auto, unfolding(crate::specs::Program::code_line))]
fn code_line(alloc: Global, code: &[u8]) -> Result<String, OutOfMemory>
    ensures { IfOk result (λ line. string_bytes line ≡ code_line code.now) }
{
    let digits = hex::encode(alloc, code)?;
    let line = format!(in alloc; "{digits}\n")?;
    Ok(line)
}

// Generates the program for a setting, and writes its code in hexadecimal.
fn write_program<O: Lines>(alloc: Global, values: &ProgramWords, out: &mut O) -> Result<(), Fault>
    ensures { Writes (program_plan (setting_of values.now)) (O.seen out.old) (O.seen out.new) result }
{
    let code = code_of(alloc, values)?;
    let line = code_line(alloc, code.as_slice())?;
    out.say(line.as_bytes())
}

/// Generates the program for a setting, and writes its code in hexadecimal: one line.
pub fn program<O: Lines>(
    alloc: Global,
    mac: &str,
    capacity: &str,
    address: &str,
    flags: &str,
    out: &mut O,
) -> Result<(), Fault>
    ensures { (shelf : Shelving) → Does (program_meaning mac.now capacity.now address.now flags.now)
        (stage shelf (O.seen out.old)) (stage shelf (O.seen out.new)) result }
{
    match program_words(mac, capacity, address, flags) {
        Some(values) => write_program(alloc, &values, out),
        None => Err(Fault::Usage),
    }
}
