// Jumps: classes JMP and JMP32. Operands of 32 bits are compared as numbers of 64, moved up to the upper half, where their order is the same: so
// one comparison, in one place, serves both.
ghost use Rattle.std.specs.Prelude.{◌≡◌, ◌+◌, ◌*◌, ◌/◌, ◌%◌, ◌^◌, ◌<◌, ◌≤◌, length};
ghost use Rattle.base.specs.declared.Width.TheVariants.{W64};
ghost use Rattle.replay_step.specs.Classes.{taken_by, raised};
ghost use Rattle.replay_step.specs.Lent.{target_in, next_in};

use crate::fetch::off_of;
use base::Width;
use ebpf::kind::Condition;
use replay_values::condition::met;

pub fn raise(x: u64) -> u64
    ensures { result ≡ raised x }
{
    (x % 0x1_0000_0000) * 0x1_0000_0000
}

// By the operation: JA is always taken; the operations that are no jump are not asked for.
pub fn taken(code: u8, a: u64, b: u64) -> bool
    ensures { result ≡ taken_by (code / 16) a b }
{
    match code / 16 {
        0x0 => true,
        0x1 => met(Condition::Jeq, Width::W64, a, b),
        0x2 => met(Condition::Jgt, Width::W64, a, b),
        0x3 => met(Condition::Jge, Width::W64, a, b),
        0x4 => met(Condition::Jset, Width::W64, a, b),
        0x5 => met(Condition::Jne, Width::W64, a, b),
        0x6 => met(Condition::Jsgt, Width::W64, a, b),
        0x7 => met(Condition::Jsge, Width::W64, a, b),
        0x8 => true,
        0x9 => true,
        0xa => met(Condition::Jlt, Width::W64, a, b),
        0xb => met(Condition::Jle, Width::W64, a, b),
        0xc => met(Condition::Jslt, Width::W64, a, b),
        0xd => met(Condition::Jsle, Width::W64, a, b),
        0xe => true,
        _ => true,
    }
}

pub fn target_of(prog: &[u8], slot: usize) -> usize
    requires { 8 * slot + 8 ≤ length prog.now }
    ensures { result ≡ target_in prog slot }
{
    let behind = slot as u64 + 1;
    (behind.wrapping_add(off_of(prog, slot)) % 0x1_0000_0000) as usize
}

// Where a jump goes whose operands are these.
pub fn jump(code: u8, prog: &[u8], slot: usize, a: u64, b: u64) -> usize
    requires { 8 * slot + 8 ≤ length prog.now }
    ensures { result ≡ next_in code prog slot a b }
{
    if taken(code, a, b) {
        return target_of(prog, slot);
    }
    slot + 1
}
