//! The two registers, by the register bit of an instruction.

ghost use Rattle.std.specs.Prelude.{◌≡◌, List, [], ℕ};
ghost use Rattle.apf_coding.specs.Meaning.{register, other, with_register};
ghost use Rattle.apf_coding.specs.Run.{machine_state};

use apf_coding::Machine;

/// The register that a register bit names.
#[inline(always)]
pub(crate) fn register(m: &Machine, reg: u8) -> u32
    ensures { result ≡ register reg (machine_state m.now []) }
{
    if reg == 0 { m.r0 } else { m.r1 }
}

/// The register that it doesn't name.
#[inline(always)]
pub(crate) fn other(m: &Machine, reg: u8) -> u32
    ensures { result ≡ other reg (machine_state m.now []) }
{
    if reg == 0 { m.r1 } else { m.r0 }
}

/// Writes the register that a register bit names.
#[inline(always)]
pub(crate) fn set_register(m: &mut Machine, reg: u8, value: u32)
    ensures { (memory : List ℕ) → machine_state m.new memory ≡ with_register reg value (machine_state m.old memory) }
{
    if reg == 0 {
        m.r0 = value;
    } else {
        m.r1 = value;
    }
}
