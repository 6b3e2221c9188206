// Arithmetic, moves and swaps: classes ALU and ALU64.
ghost use Rattle.base.specs.Lent.{read};
ghost use Rattle.std.specs.Prelude.{◌≡◌, ◌/◌, ◌^◌, ◌<◌, true};
ghost use Rattle.base.specs.Widths.{bits};
ghost use Rattle.base.specs.declared.Width.TheVariants.{W64};
ghost use Rattle.ebpf.specs.Insn.{insn_at};
ghost use Rattle.ebpf.specs.Opcode.{source_of};
ghost use Rattle.jit.specs.Translation.{swap_bits};
ghost use Rattle.replay_step.specs.Classes.{value_by, swap_by};
ghost use Rattle.replay_step.specs.Lent.{Fetches, source_in, Computed, Swapped, Swaps};

use crate::fetch::{dst_of, imm_of, registers_of};
use base::Width;
use ebpf::kind::{AluOp, MulOp, ShiftOp, Source, source_of};
use replay_values::arithmetic::{alu, neg};
use replay_values::operand::{cut, immediate};
use replay_values::product::mul;
use replay_values::shift::shift;
use replay_values::swap::{be, le};

// The second operand of a slot, whose source register is `src`.
pub fn operand(w: Width, code: u8, prog: &[u8], slot: usize, src: usize, regs: &[u64]) -> u64
    requires { Fetches prog slot regs × (src ≡ (insn_at prog.now slot).src) }
    ensures { (result ≡ source_in w code prog slot regs) × (result < 2 ^ bits w) }
{
    match source_of(code) {
        Source::Imm => immediate(w, imm_of(prog, slot)),
        Source::Reg => cut(w, regs[src]),
    }
}

// By the operation, the upper half of the code. Sixteen arms, one for each value, need no test in front of their table. Put into its two callers'
// place, it knows its width there.
#[inline(always)]
fn value(w: Width, code: u8, a: u64, b: u64) -> u64
    requires { (a < 2 ^ bits w) × (b < 2 ^ bits w) }
    ensures { result ≡ value_by w (code / 16) a b }
{
    match code / 16 {
        0x0 => alu(AluOp::Add, w, a, b),
        0x1 => alu(AluOp::Sub, w, a, b),
        0x2 => mul(MulOp::Mul, w, a, b),
        0x3 => mul(MulOp::Div, w, a, b),
        0x4 => alu(AluOp::Or, w, a, b),
        0x5 => alu(AluOp::And, w, a, b),
        0x6 => shift(ShiftOp::Lsh, w, a, b),
        0x7 => shift(ShiftOp::Rsh, w, a, b),
        0x8 => neg(w, a),
        0x9 => mul(MulOp::Mod, w, a, b),
        0xa => alu(AluOp::Xor, w, a, b),
        0xb => b,
        0xc => shift(ShiftOp::Arsh, w, a, b),
        0xd => 0,
        0xe => 0,
        _ => 0,
    }
}

#[inline(always)]
pub fn step_arithmetic(w: Width, code: u8, prog: &[u8], slot: usize, regs: &mut [u64])
    requires { Fetches prog slot (read regs) }
    ensures { Computed w code prog slot regs }
{
    let named = registers_of(prog, slot);
    let b = operand(w, code, prog, slot, named.src, regs);
    let dst = named.dst;
    let a = cut(w, regs[dst]);
    regs[dst] = value(w, code, a, b);
}

// LE, whose source is K, or BE.
fn swapped(code: u8, width: u32, a: u64) -> u64
    requires { swap_bits width ≡ true }
    ensures { result ≡ swap_by (source_of code) width a }
{
    match source_of(code) {
        Source::Imm => le(width, a),
        Source::Reg => be(width, a),
    }
}

pub fn step_swap(code: u8, prog: &[u8], slot: usize, regs: &mut [u64])
    requires { Fetches prog slot (read regs) × Swaps prog slot }
    ensures { Swapped code prog slot regs }
{
    let dst = dst_of(prog, slot);
    let width = imm_of(prog, slot);
    let a = cut(Width::W64, regs[dst]);
    regs[dst] = swapped(code, width, a);
}
