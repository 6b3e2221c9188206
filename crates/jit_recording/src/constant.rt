// How a constant gets into a register: `emit_load_imm` of the Rust, by the size of what is loaded, and with `compact` a shorter form.
ghost use Rattle.std.specs.Prelude.{◌<◌};
ghost use Rattle.base.specs.declared.Width.TheVariants.{W64};
ghost use Rattle.x86.specs.Encode.{encode_plain};
ghost use Rattle.x86.specs.Instr.{alu_imm, MOV};
ghost use Rattle.x86_emit.specs.Lent.{Wrote, Fits};
ghost use Rattle.jit.specs.Constants.{load_imm, loaded};

use crate::mode;
use base::{Position, Width};
use jit::Mode;
use x86::{GROUP11, GROUP11_MOV};
use x86_emit::alu;

// An immediate of 32 bits, which is extended by its sign: compact, one that is not negative needs no REX.W.
pub fn emit_load_signed(code: &mut [u8], at: Position, mode: Mode, dst: u8, imm: u32) -> Position
    requires { Fits code at × (dst < 16) }
    ensures { Wrote code at result (encode_plain (loaded mode (alu_imm MOV W64 dst imm))) }
{
    if mode::is_low_imm(mode, imm) {
        return alu::emit_mov_imm32(code, at, dst, imm);
    }
    alu::emit_alu_imm32(code, at, Width::W64, GROUP11, GROUP11_MOV, dst, imm)
}

// A constant of 64 bits: where it is in the signed 32-bit range it is such an immediate; else it has eight bytes, or compact, below 2 ^ 32,
// four.
pub fn emit_load_imm(code: &mut [u8], at: Position, mode: Mode, dst: u8, value: u64) -> Position
    requires { Fits code at × (dst < 16) }
    ensures { Wrote code at result (encode_plain (loaded mode (load_imm dst value))) }
{
    if std::num::wrapping_add_u64(value, 0x8000_0000) < 0x1_0000_0000 {
        return emit_load_signed(code, at, mode, dst, (value % 0x1_0000_0000) as u32);
    }
    if mode::is_low(mode, value) {
        return alu::emit_mov_imm32(code, at, dst, value as u32);
    }
    alu::emit_movabs(code, at, dst, value)
}
