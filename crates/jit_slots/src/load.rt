// Classes LD, LDX, ST and STX.
ghost use Rattle.std.specs.Prelude.{◌<◌};
ghost use Rattle.ebpf.specs.declared.kind.Kind.TheVariants.{LdAbs, LdInd, LdDwImm, LdReg, StImm, StReg};
ghost use Rattle.x86.specs.Fill.{blanks};
ghost use Rattle.x86_emit.specs.Lent.{Wrote, Fits, FitAll};
ghost use Rattle.jit.specs.Modes.{rust};
ghost use Rattle.jit.specs.Slots.{slot_code};

use base::{Position, Size, Width};
use ebpf::insn::Insn;
use jit::Mode;
use jit_recording::{constant, register};
use x86::{ADD, MOV, R10, R11, RAX};
use x86_emit::{alu, memory};

// R10 is a constant pointer to the packet.
pub fn emit_ld_abs(code: &mut [u8], at: Position, size: Size, i: Insn) -> Position
    requires { Fits code at }
    ensures { Wrote code at result (blanks (slot_code rust (LdAbs size) 0 i 0)) }
{
    memory::emit_load(code, at, size, R10, RAX, i.imm)
}

pub fn emit_ld_ind(code: &mut [u8], at: Position, size: Size, i: Insn) -> Position
    requires { FitAll code at (slot_code rust (LdInd size) 0 i 0) × (i.src < 11) }
    ensures { Wrote code at result (blanks (slot_code rust (LdInd size) 0 i 0)) }
{
    let src = register::map_register(i.src);
    let copied = alu::emit_alu(code, at, Width::W64, MOV, R10, R11);
    let added = alu::emit_alu(code, copied, Width::W64, ADD, src, R11);
    memory::emit_load(code, added, size, R11, RAX, i.imm)
}

pub fn emit_ld_dw_imm(code: &mut [u8], at: Position, mode: Mode, i: Insn, value: u64) -> Position
    requires { Fits code at × (i.dst < 11) }
    ensures { Wrote code at result (blanks (slot_code mode LdDwImm 0 i value)) }
{
    constant::emit_load_imm(code, at, mode, register::map_register(i.dst), value)
}

pub fn emit_ld_reg(code: &mut [u8], at: Position, size: Size, i: Insn) -> Position
    requires { Fits code at × ((i.dst < 11) × (i.src < 11)) }
    ensures { Wrote code at result (blanks (slot_code rust (LdReg size) 0 i 0)) }
{
    let src = register::map_register(i.src);
    let dst = register::map_register(i.dst);
    memory::emit_load(code, at, size, src, dst, i.off)
}

pub fn emit_st_imm(code: &mut [u8], at: Position, size: Size, i: Insn) -> Position
    requires { Fits code at × (i.dst < 11) }
    ensures { Wrote code at result (blanks (slot_code rust (StImm size) 0 i 0)) }
{
    let dst = register::map_register(i.dst);
    memory::emit_store_imm32(code, at, size, dst, i.off, i.imm)
}

pub fn emit_st_reg(code: &mut [u8], at: Position, size: Size, i: Insn) -> Position
    requires { Fits code at × ((i.dst < 11) × (i.src < 11)) }
    ensures { Wrote code at result (blanks (slot_code rust (StReg size) 0 i 0)) }
{
    let src = register::map_register(i.src);
    let dst = register::map_register(i.dst);
    memory::emit_store(code, at, size, src, dst, i.off)
}
