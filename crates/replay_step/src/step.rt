// One slot of a run, by the class of its code: the opcode's own class, and LD for a wide load and the codes that are no opcode (replay_slots).
ghost use Rattle.base.specs.Lent.{read, seen};
ghost use Rattle.std.specs.Prelude.{◌≡◌, ◌/◌, ◌%◌, ◌^◌, ◌<◌};
ghost use Rattle.replay_step.specs.Steps.{went_to};
ghost use Rattle.replay_step.specs.Lent.{Fetches, Ready, Swaps, Stepped, Worked, ComputedLow, branch_in, branch_low_in};

use crate::arithmetic::{operand, step_arithmetic, step_swap};
use crate::fetch::{dst_of, imm_of, registers_of, upper_of};
use crate::jump::{jump, raise};
use crate::memory::{step_load, step_store_imm, step_store_reg};
use base::Width;
use ebpf::constants::LD_DW_IMM;
use replay_slots::ENDS;
use replay_values::operand::cut;

// What a slot comes to: the run goes on at a slot, or it ends, with r0, or by an access, or there is nothing to run. No Result: of the last three,
// which end the run, Absent alone does not count the slot.
#[derive(Clone, Copy)]
pub enum Next {
    Go(usize),
    Exit(u64),
    Access,
    Absent,
}

// The same, or a jump whose operands are not compared yet: they are compared in one place, whatever their width.
#[derive(Clone, Copy)]
pub enum Work {
    Branch(u64, u64),
    Done(Next),
}

// The operation of a byte swap, the upper half of its code.
const SWAP: u8 = 0xd;

fn went(inside: bool, slot: usize) -> Work
    requires { slot < 2 ^ 61 }
    ensures { result ≡ went_to inside slot }
{
    if inside {
        return Work::Done(Next::Go(slot + 1));
    }
    Work::Done(Next::Access)
}

// A wide load, EXIT, or nothing to run.
fn work_special(
    code: u8,
    prog: &[u8],
    slot: usize,
    regs: &mut [u64],
    stack: &[u8],
    packet: &[u8],
) -> Work
    requires { Ready prog slot code regs stack packet × (code % 8 ≡ 0) }
    ensures { Worked code prog slot regs stack packet result }
{
    match code {
        LD_DW_IMM => {
            let dst = dst_of(prog, slot);
            let low = u64::from(imm_of(prog, slot));
            let high = u64::from(upper_of(prog, slot));
            regs[dst] = low + 0x1_0000_0000 * high;
            Work::Done(Next::Go(slot + 2))
        }
        ENDS => Work::Done(Next::Exit(regs[0])),
        _ => Work::Done(Next::Absent),
    }
}

// Class ALU, whose swaps work on 64 bits.
fn step_alu(code: u8, prog: &[u8], slot: usize, regs: &mut [u64])
    requires { Fetches prog slot (read regs) × (code / 16 ≡ 13 → Swaps prog slot) }
    ensures { ComputedLow code prog slot regs }
{
    if code / 16 == SWAP {
        step_swap(code, prog, slot, regs);
    } else {
        step_arithmetic(Width::W32, code, prog, slot, regs);
    }
}

// Classes JMP and JMP32.
fn branch(code: u8, prog: &[u8], slot: usize, regs: &[u64]) -> Work
    requires { Fetches prog slot regs }
    ensures { result ≡ branch_in code prog slot regs }
{
    let named = registers_of(prog, slot);
    let b = operand(Width::W64, code, prog, slot, named.src, regs);
    let dst = named.dst;
    Work::Branch(cut(Width::W64, regs[dst]), b)
}

fn branch_low(code: u8, prog: &[u8], slot: usize, regs: &[u64]) -> Work
    requires { Fetches prog slot regs }
    ensures { result ≡ branch_low_in code prog slot regs }
{
    let named = registers_of(prog, slot);
    let b = operand(Width::W64, code, prog, slot, named.src, regs);
    let dst = named.dst;
    Work::Branch(raise(regs[dst]), raise(b))
}

fn work_on(
    code: u8,
    prog: &[u8],
    slot: usize,
    regs: &mut [u64],
    stack: &mut [u8],
    packet: &mut [u8],
) -> Work
    requires { Ready prog slot code regs (read stack) (read packet) }
    ensures { Worked code prog slot regs (seen stack) (seen packet) result }
{
    match code % 8 {
        0 => work_special(code, prog, slot, regs, stack, packet),
        1 => went(step_load(code, prog, slot, regs, stack, packet), slot),
        2 => went(step_store_imm(code, prog, slot, regs, stack, packet), slot),
        3 => went(step_store_reg(code, prog, slot, regs, stack, packet), slot),
        4 => {
            step_alu(code, prog, slot, regs);
            Work::Done(Next::Go(slot + 1))
        }
        5 => branch(code, prog, slot, regs),
        6 => branch_low(code, prog, slot, regs),
        _ => {
            step_arithmetic(Width::W64, code, prog, slot, regs);
            Work::Done(Next::Go(slot + 1))
        }
    }
}

// `code` is the slot's entry in the table of codes.
pub fn step(
    code: u8,
    prog: &[u8],
    slot: usize,
    regs: &mut [u64],
    stack: &mut [u8],
    packet: &mut [u8],
) -> Next
    requires { Ready prog slot code regs (read stack) (read packet) }
    ensures { Stepped prog slot regs (seen stack) (seen packet) result }
{
    match work_on(code, prog, slot, regs, stack, packet) {
        Work::Branch(a, b) => Next::Go(jump(code, prog, slot, a, b)),
        Work::Done(next) => next,
    }
}
