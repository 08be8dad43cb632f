//! Sizes of items.

ghost use Rattle.std.specs.Prelude.{◌≡◌, ◌≤◌};
ghost use Rattle.apf_asm.specs.Items.{IsItemForm, bytes_limit};
ghost use Rattle.apf_asm.specs.Sizing.{tail_size};
ghost use Rattle.apf_asm.specs.Layout.{size};

use crate::item::Item;
use apf_coding::Op;

/// The number of bytes behind the first immediate.
fn tail_size(op: Op, reg: u8, width: u8, count: usize) -> u64
    requires width { width ≤ 4 }
    requires count { count ≤ bytes_limit }
    ensures { result ≡ tail_size op reg width count }
{
    match op {
        Op::Jeq | Op::Jne | Op::Jgt | Op::Jlt | Op::Jset => {
            if reg == 0 { u64::from(width) } else { 0 }
        }
        Op::Jnebs => u64::from(width) + count as u64,
        _ => 0,
    }
}

/// The size of an item, where a jump has this width.
pub(crate) fn size(item: &Item, width: u8) -> u64
    requires form { IsItemForm item.now }
    requires width { width ≤ 4 }
    ensures size { result ≡ size item.now width }
    ensures small { result ≤ 65548 }
{
    match item {
        Item::Fixed(f) => {
            1 + u64::from(f.width) + tail_size(f.op, f.reg, f.width, f.bytes.len())
        }
        Item::Jump(j) => 1 + u64::from(width) + tail_size(j.op, j.reg, width, j.bytes.len()),
        Item::Label(_) => 0,
        Item::Byte(_) => 1,
    }
}
