// Classes ALU and ALU64, without multiplication and division.
ghost use Rattle.std.specs.Prelude.{◌≡◌, ◌<◌};
ghost use Rattle.ebpf.specs.Kinds.{alu_of, shift_of};
ghost use Rattle.base.specs.declared.Width.TheVariants.{W64};
ghost use Rattle.ebpf.specs.declared.kind.Source.TheVariants.{Imm};
ghost use Rattle.ebpf.specs.declared.kind.Kind.TheVariants.{Neg, Le};
ghost use Rattle.x86.specs.Fill.{blanks};
ghost use Rattle.x86.specs.Encode.{alu_opcode, alu_extension, shift_extension, encode_plain};
ghost use Rattle.x86.specs.Instr as x86;
ghost use Rattle.x86_emit.specs.Lent.{Wrote, Fits, FitAll};
ghost use Rattle.jit.specs.Compact.{compact_off};
ghost use Rattle.jit.specs.Modes.{rust};
ghost use Rattle.jit.specs.Slots as jit;
ghost use Rattle.jit.specs.Slots.{slot_code, alu_code, shift_code, mov_code, truncated, swap, reg_of};

use base::{Position, Width};
use ebpf::insn::Insn;
use ebpf::kind::Source;
use jit::Mode;
use jit_recording::{constant, mode, register};
use x86::{
    ADD, AND, GROUP1, GROUP1_ADD, GROUP1_AND, GROUP1_OR, GROUP1_SUB, GROUP1_XOR, GROUP2_CL,
    GROUP2_IMM8, GROUP2_SAR, GROUP2_SHL, GROUP2_SHR, GROUP3, GROUP3_NEG, GROUP11, GROUP11_MOV, MOV,
    OR, RCX, SUB, XOR,
};
use x86_emit::alu;

// The operation is the upper half of the opcode (RFC 9669, section 4.1, whose names stand behind the arms that a slot of the kind can have;
// the others answer as the definition does). Sixteen arms, one for each value, make a table in read-only memory: no test in front of it, and
// no enum that is made only to be matched on.
fn alu_opcode(opc: u8) -> u8
    ensures { result ≡ alu_opcode (jit.alu_of (alu_of opc)) }
{
    match opc / 16 {
        0x0 => ADD, // ADD
        0x1 => SUB, // SUB
        0x2 => XOR,
        0x3 => XOR,
        0x4 => OR, // OR
        0x5 => AND, // AND
        0x6 => XOR,
        0x7 => XOR,
        0x8 => XOR,
        0x9 => XOR,
        0xa => XOR, // XOR
        0xb => XOR,
        0xc => XOR,
        0xd => XOR,
        0xe => XOR,
        _ => XOR,
    }
}

// Its extension, in a table of the same make.
fn alu_extension(opc: u8) -> u8
    ensures { result ≡ alu_extension (jit.alu_of (alu_of opc)) }
{
    match opc / 16 {
        0x0 => GROUP1_ADD, // ADD
        0x1 => GROUP1_SUB, // SUB
        0x2 => GROUP1_XOR,
        0x3 => GROUP1_XOR,
        0x4 => GROUP1_OR, // OR
        0x5 => GROUP1_AND, // AND
        0x6 => GROUP1_XOR,
        0x7 => GROUP1_XOR,
        0x8 => GROUP1_XOR,
        0x9 => GROUP1_XOR,
        0xa => GROUP1_XOR, // XOR
        0xb => GROUP1_XOR,
        0xc => GROUP1_XOR,
        0xd => GROUP1_XOR,
        0xe => GROUP1_XOR,
        _ => GROUP1_XOR,
    }
}

// .. and a shift's.
fn shift_extension(opc: u8) -> u8
    ensures { result ≡ shift_extension (jit.shift_of (shift_of opc)) }
{
    match opc / 16 {
        0x0 => GROUP2_SAR,
        0x1 => GROUP2_SAR,
        0x2 => GROUP2_SAR,
        0x3 => GROUP2_SAR,
        0x4 => GROUP2_SAR,
        0x5 => GROUP2_SAR,
        0x6 => GROUP2_SHL, // LSH
        0x7 => GROUP2_SHR, // RSH
        0x8 => GROUP2_SAR,
        0x9 => GROUP2_SAR,
        0xa => GROUP2_SAR,
        0xb => GROUP2_SAR,
        0xc => GROUP2_SAR, // ARSH
        0xd => GROUP2_SAR,
        0xe => GROUP2_SAR,
        _ => GROUP2_SAR,
    }
}

pub fn emit_arithmetic(
    code: &mut [u8],
    at: Position,
    width: Width,
    source: Source,
    i: Insn,
) -> Position
    requires { Fits code at × ((i.dst < 11) × (i.src < 11)) }
    ensures { Wrote code at result (blanks (alu_code (alu_of i.opc) width source i)) }
{
    let dst = register::map_register(i.dst);
    match source {
        Source::Imm => alu::emit_alu_imm32(
            code,
            at,
            width,
            GROUP1,
            alu_extension(i.opc),
            dst,
            i.imm,
        ),
        Source::Reg => alu::emit_alu(
            code,
            at,
            width,
            alu_opcode(i.opc),
            register::map_register(i.src),
            dst,
        ),
    }
}

// RCX is kept free for the count of a shift by a register.
pub fn emit_shift(code: &mut [u8], at: Position, width: Width, source: Source, i: Insn) -> Position
    requires { FitAll code at (shift_code (shift_of i.opc) width source i) × ((i.dst < 11) × (i.src < 11)) }
    ensures { Wrote code at result (blanks (shift_code (shift_of i.opc) width source i)) }
{
    let dst = register::map_register(i.dst);
    let extension = shift_extension(i.opc);
    match source {
        Source::Imm => alu::emit_alu_imm8(
            code,
            at,
            width,
            GROUP2_IMM8,
            extension,
            dst,
            (i.imm % 256) as u8,
        ),
        Source::Reg => {
            let counted = alu::emit_alu(
                code,
                at,
                Width::W64,
                MOV,
                register::map_register(i.src),
                RCX,
            );
            alu::emit_alu_ext(code, counted, width, GROUP2_CL, extension, dst)
        }
    }
}

pub fn emit_neg(code: &mut [u8], at: Position, width: Width, i: Insn) -> Position
    requires { Fits code at × (i.dst < 11) }
    ensures { Wrote code at result (blanks (slot_code rust (Neg width) 0 i 0)) }
{
    alu::emit_alu_ext(
        code,
        at,
        width,
        GROUP3,
        GROUP3_NEG,
        register::map_register(i.dst),
    )
}

// A call for each width, so that in each the REX prefix is as good as a constant.
fn emit_copy(code: &mut [u8], at: Position, mode: Mode, width: Width, src: u8, dst: u8) -> Position
    requires { Fits code at × ((src < 16) × (dst < 16)) }
    ensures { Wrote code at result (encode_plain (x86.alu x86.MOV (jit.copy_width mode width) src dst)) }
{
    match mode::copy_width(mode, width) {
        Width::W32 => alu::emit_alu(code, at, Width::W32, MOV, src, dst),
        Width::W64 => alu::emit_alu(code, at, Width::W64, MOV, src, dst),
    }
}

// MOV64_IMM: a constant is loaded.
pub fn emit_mov64_imm(code: &mut [u8], at: Position, mode: Mode, i: Insn) -> Position
    requires { Fits code at × (i.dst < 11) }
    ensures { Wrote code at result (blanks (mov_code mode W64 Imm i)) }
{
    constant::emit_load_signed(code, at, mode, register::map_register(i.dst), i.imm)
}

// Every other MOV, and MOV64_IMM without `compact`.
pub fn emit_mov(
    code: &mut [u8],
    at: Position,
    mode: Mode,
    width: Width,
    source: Source,
    i: Insn,
) -> Position
    requires { Fits code at × ((i.dst < 11) × (i.src < 11)) }
    ensures { Wrote code at result (blanks (mov_code (compact_off mode) width source i)) }
{
    let dst = register::map_register(i.dst);
    match source {
        Source::Imm => alu::emit_alu_imm32(code, at, width, GROUP11, GROUP11_MOV, dst, i.imm),
        Source::Reg => emit_copy(code, at, mode, width, register::map_register(i.src), dst),
    }
}

// The low 16 or 32 bits remain.
fn emit_truncated(code: &mut [u8], at: Position, dst: u8, bits: u32) -> Position
    requires { Fits code at × (dst < 16) }
    ensures { Wrote code at result (blanks (truncated dst bits)) }
{
    match bits {
        16 => alu::emit_alu_imm32(code, at, Width::W32, GROUP1, GROUP1_AND, dst, 0xffff),
        32 => alu::emit_alu(code, at, Width::W32, MOV, dst, dst),
        _ => at,
    }
}

// LE, for which the Rust has no code.
pub fn emit_le(code: &mut [u8], at: Position, mode: Mode, i: Insn) -> Position
    requires { Fits code at × (i.dst < 11) }
    ensures { Wrote code at result (blanks (slot_code mode Le 0 i 0)) }
{
    if mode.standard {
        emit_truncated(code, at, register::map_register(i.dst), i.imm)
    } else {
        at
    }
}

// BE: 16 is a rotation of the low half, with what is above cleared; 32 and 64 a byte swap.
pub fn emit_be(code: &mut [u8], at: Position, i: Insn) -> Position
    requires { FitAll code at (swap (reg_of i.dst) i.imm) × (i.dst < 11) }
    ensures { Wrote code at result (blanks (swap (reg_of i.dst) i.imm)) }
{
    let dst = register::map_register(i.dst);
    match i.imm {
        16 => {
            let rotated = alu::emit_rol16(code, at, dst, 8);
            alu::emit_alu_imm32(code, rotated, Width::W32, GROUP1, GROUP1_AND, dst, 0xffff)
        }
        32 => alu::emit_bswap(code, at, Width::W32, dst),
        _ => alu::emit_bswap(code, at, Width::W64, dst),
    }
}
