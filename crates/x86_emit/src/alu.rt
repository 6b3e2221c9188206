// Arithmetic, moves, shifts, pushes and pops. The Rust has a function for each width; here the width is a parameter.
ghost use Rattle.std.specs.Prelude.{◌≡◌, ◌+◌, ◌<◌, [], ◌∷◌, ◌++◌};
ghost use Rattle.base.specs.Bytes.{le32};
ghost use Rattle.base.specs.declared.Width.TheVariants.{W32, W64};
ghost use Rattle.x86.specs.Encode.{wide, rex, modrm, encode_plain};
ghost use Rattle.x86.specs.Instr.{push, pop, mov_imm, rol16, bswap};
ghost use Rattle.x86_emit.specs.Lent.{Wrote, Fits};

use crate::bytes;
use base::{Position, Width};
use x86::{
    BSWAP, GROUP2_IMM8, GROUP2_ROL, MOD_REGISTER, MOV_IMM, OPERAND_SIZE, POP, PUSH, TWO_BYTES,
};

// The opcode of a rotation, as it stands in a word.
const ROTATE: u64 = GROUP2_IMM8 as u64;

// REX.W
pub fn wide(width: Width) -> u8
    ensures { (result ≡ wide width) × (result < 2) }
{
    match width {
        Width::W32 => 0,
        Width::W64 => 1,
    }
}

pub fn emit_push(code: &mut [u8], at: Position, r: u8) -> Position
    requires { Fits code at × (r < 16) }
    ensures { Wrote code at result (encode_plain (push r)) }
{
    bytes::emit_rexed(code, at, 0, 0, r, (PUSH + r % 8) as u64, 1)
}

pub fn emit_pop(code: &mut [u8], at: Position, r: u8) -> Position
    requires { Fits code at × (r < 16) }
    ensures { Wrote code at result (encode_plain (pop r)) }
{
    bytes::emit_rexed(code, at, 0, 0, r, (POP + r % 8) as u64, 1)
}

// REX prefix, opcode and ModRM byte; `src` is in reg, `dst` in r/m.
pub fn emit_alu(code: &mut [u8], at: Position, width: Width, op: u8, src: u8, dst: u8) -> Position
    requires { Fits code at × ((src < 16) × (dst < 16)) }
    ensures { Wrote code at result (rex (wide width) src dst ++ (op ∷ modrm 3 src dst ∷ [])) }
{
    let rest = op as u64 + 256 * bytes::modrm(MOD_REGISTER, src, dst);
    bytes::emit_rexed(code, at, wide(width), src, dst, rest, 2)
}

// The same where reg holds an extension of the opcode, 0 to 7.
pub fn emit_alu_ext(
    code: &mut [u8],
    at: Position,
    width: Width,
    op: u8,
    ext: u8,
    dst: u8,
) -> Position
    requires { Fits code at × (dst < 16) }
    ensures { Wrote code at result (rex (wide width) 0 dst ++ (op ∷ modrm 3 ext dst ∷ [])) }
{
    let rest = op as u64 + 256 * bytes::modrm(MOD_REGISTER, ext, dst);
    bytes::emit_rexed(code, at, wide(width), 0, dst, rest, 2)
}

// .. and a 32-bit immediate
pub fn emit_alu_imm32(
    code: &mut [u8],
    at: Position,
    width: Width,
    op: u8,
    ext: u8,
    dst: u8,
    imm: u32,
) -> Position
    requires { Fits code at × (dst < 16) }
    ensures { Wrote code at result (rex (wide width) 0 dst ++ (op ∷ modrm 3 ext dst ∷ le32 imm)) }
{
    let rest = op as u64 + 256 * (bytes::modrm(MOD_REGISTER, ext, dst) + 256 * (imm as u64));
    bytes::emit_rexed(code, at, wide(width), 0, dst, rest, 6)
}

// .. and an 8-bit immediate
pub fn emit_alu_imm8(
    code: &mut [u8],
    at: Position,
    width: Width,
    op: u8,
    ext: u8,
    dst: u8,
    imm: u8,
) -> Position
    requires { Fits code at × (dst < 16) }
    ensures { Wrote code at result (rex (wide width) 0 dst ++ (op ∷ modrm 3 ext dst ∷ imm ∷ [])) }
{
    let rest = op as u64 + 256 * (bytes::modrm(MOD_REGISTER, ext, dst) + 256 * (imm as u64));
    bytes::emit_rexed(code, at, wide(width), 0, dst, rest, 3)
}

// The constant of eight bytes.
pub fn emit_movabs(code: &mut [u8], at: Position, dst: u8, imm: u64) -> Position
    requires { Fits code at × (dst < 16) }
    ensures { Wrote code at result (encode_plain (mov_imm W64 dst imm)) }
{
    let next = bytes::emit_rexed(code, at, 1, 0, dst, (MOV_IMM + dst % 8) as u64, 1);
    bytes::emit_bytes(code, next, imm, 8)
}

// .. and of four, for which the processor clears the upper half.
pub fn emit_mov_imm32(code: &mut [u8], at: Position, dst: u8, imm: u32) -> Position
    requires { Fits code at × (dst < 16) }
    ensures { Wrote code at result (encode_plain (mov_imm W32 dst imm)) }
{
    let rest = (MOV_IMM + dst % 8) as u64 + 256 * (imm as u64);
    bytes::emit_rexed(code, at, 0, 0, dst, rest, 5)
}

// The 16-bit override stands before REX.
pub fn emit_rol16(code: &mut [u8], at: Position, dst: u8, imm: u8) -> Position
    requires { Fits code at × (dst < 16) }
    ensures { Wrote code at result (encode_plain (rol16 dst imm)) }
{
    let next = bytes::emit_bytes(code, at, OPERAND_SIZE, 1);
    let rest = ROTATE + 256 * (bytes::modrm(MOD_REGISTER, GROUP2_ROL, dst) + 256 * (imm as u64));
    bytes::emit_rexed(code, next, 0, 0, dst, rest, 3)
}

pub fn emit_bswap(code: &mut [u8], at: Position, width: Width, dst: u8) -> Position
    requires { Fits code at × (dst < 16) }
    ensures { Wrote code at result (encode_plain (bswap width dst)) }
{
    let rest = TWO_BYTES + 256 * ((BSWAP + dst % 8) as u64);
    bytes::emit_rexed(code, at, wide(width), 0, dst, rest, 2)
}
