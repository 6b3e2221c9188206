// Which slot is there: a table that is made once for a program, of a byte for each slot by which a run goes on from it. Where the slot is run it
// is the opcode, but for EXIT, so that a run looks at one byte alone; where there is nothing to run it is 0.

#![tactic(auto)]

ghost use Rattle.std.specs.Prelude.{◌≡◌, ◌≤◌, ◌<◌, length};
ghost use Rattle.jit.specs.Translation.{slots_of};
ghost use Rattle.replay.specs.Run.{kind_in, is_second};
ghost use Rattle.replay_slots.specs.Codes.{code_by, code_if, code_of, opened};
ghost use Rattle.replay_slots.specs.Lent.{code_in, Coded, IsCoded, told, first_of};

use base::Slot;
use ebpf::constants::LD_DW_IMM;
use ebpf::insn::{Insn, insn_at};
use ebpf::kind;
use ebpf::kind::Opcodes;
use jit_walk::operand::swap_bits;
use replay::Refusal;

// The codes that are no opcode, of class LD as a wide load: nothing to run; LD_ABS, LD_IND or CALL, which are not run; EXIT.
pub const ABSENT: u8 = 0;

pub const NOT_MODELLED: u8 = 0x80;

pub const ENDS: u8 = 0x90;

fn code_if(there: bool, i: Insn) -> u8
    ensures { result ≡ code_if there i }
{
    if there {
        return i.opc;
    }
    ABSENT
}

// By the opcode's number in the table of kinds; `more` says that there is a slot behind.
fn code_by(number: u8, more: bool, i: Insn) -> u8
    ensures { result ≡ code_by number more i }
{
    match number {
        kind::KIND_UNKNOWN => ABSENT,
        kind::KIND_UNIMPLEMENTED => ABSENT,
        kind::KIND_LD_DW_IMM => code_if(more, i),
        kind::KIND_LE => code_if(swap_bits(i.imm), i),
        kind::KIND_BE => code_if(swap_bits(i.imm), i),
        kind::KIND_CALL => NOT_MODELLED,
        kind::KIND_LD_ABS => NOT_MODELLED,
        kind::KIND_LD_IND => NOT_MODELLED,
        kind::KIND_EXIT => ENDS,
        _ => i.opc,
    }
}

// Of a slot that is no second half.
fn code_of(opcodes: &Opcodes, more: bool, i: Insn) -> u8
    ensures { result ≡ code_of (kind_in more i) i.opc }
{
    if 10 < i.dst || 10 < i.src {
        return ABSENT;
    }
    code_by(opcodes.number_of(i.opc), more, i)
}

fn code_at(opcodes: &Opcodes, prog: &[u8], slot: usize, second: bool) -> u8
    requires { (slot < slots_of prog.now) × (second ≡ is_second prog.now slot) }
    ensures { result ≡ code_in prog slot }
{
    if second {
        return ABSENT;
    }
    let more = slot + 1 < prog.len() / 8;
    code_of(opcodes, more, insn_at(prog, Slot { number: slot }))
}

// Whether the slot behind one is a second half.
pub fn opens(second: bool, opcode: u8) -> bool
    ensures { result ≡ opened second opcode }
{
    !second && opcode == LD_DW_IMM
}

// The table of a program, at the head of `codes`.
pub fn code_slots(opcodes: &Opcodes, prog: &[u8], codes: &mut [u8])
    requires { slots_of prog.now ≤ length codes.old }
    ensures { Coded prog codes }
{
    let n = prog.len() / 8;
    let mut second = false;
    for slot in 0..n {
        codes[slot] = code_at(opcodes, prog, slot, second);
        second = opens(second, prog[8 * slot]);
    }
}

// Whether every slot is one that a run does, by the table of codes; if not, the first that is none.
pub fn all_modelled(codes: &[u8], prog: &[u8]) -> Result<(), Refusal>
    requires { IsCoded prog codes × (slots_of prog.now ≤ length codes.now) }
    ensures { told result ≡ first_of prog }
{
    let n = prog.len() / 8;
    match codes[..n].iter().position(|code| *code == NOT_MODELLED) {
        None => Ok(()),
        Some(number) => Err(Refusal::NotModelled(Slot { number })),
    }
}
