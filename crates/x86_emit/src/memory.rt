// Loads and stores, with the displacement in its shortest form.
ghost use Rattle.std.specs.Prelude.{◌≡◌, ◌<◌};
ghost use Rattle.x86.specs.Encode.{bare, short, encode_plain};
ghost use Rattle.x86.specs.Instr.{load, store, store_imm};
ghost use Rattle.x86_emit.specs.Addresses.{Addresses};
ghost use Rattle.x86_emit.specs.Lent.{Wrote, Fits};

use crate::bytes;
use crate::bytes::{emit_rex_rule, emit_rexed};
use base::{Position, Size};
use x86::{
    FORCED, GROUP11, GROUP11_BYTE, GROUP11_MOV, MOD_BARE, MOD_DISP8, MOD_DISP32, MOV, MOV_BYTE,
    MOV_LOAD, MOVZX_BYTE, MOVZX_WORD, OPERAND_SIZE, RBP, TWO_BYTES,
};

// Opcodes, as they stand in a word.
const STORE: u64 = MOV as u64;

const STORE_IMM: u64 = GROUP11 as u64;

// ModRM and displacement: the lowest `size` bytes of a word.
#[derive(Clone, Copy)]
pub struct Operand {
    pub word: u64,
    pub size: usize,
}

// A displacement that is left out; on RBP and R13 it never is.
pub fn bare(base: u8, disp: u32) -> bool
    ensures { result ≡ bare base disp }
{
    disp == 0 && base % 8 != RBP
}

// A displacement of -128 to 127.
pub fn short(disp: u32) -> bool
    ensures { result ≡ short disp }
{
    std::num::wrapping_add_u32(disp, 128) < 256
}

fn modrm_and_displacement(reg: u8, base: u8, disp: u32) -> Operand
    ensures { Addresses result.size result.word reg base disp }
{
    if bare(base, disp) {
        return Operand {
            word: bytes::modrm(MOD_BARE, reg, base),
            size: 1,
        };
    }
    if short(disp) {
        return Operand {
            word: bytes::modrm(MOD_DISP8, reg, base) + 256 * ((disp % 256) as u64),
            size: 2,
        };
    }
    Operand {
        word: bytes::modrm(MOD_DISP32, reg, base) + 256 * (disp as u64),
        size: 5,
    }
}

// Load [base + disp] into dst. Here and in the stores each size has an arm of its own, so that opcode and REX.W are constants in it.
pub fn emit_load(
    code: &mut [u8],
    at: Position,
    size: Size,
    base: u8,
    dst: u8,
    disp: u32,
) -> Position
    requires { Fits code at × ((base < 16) × (dst < 16)) }
    ensures { Wrote code at result (encode_plain (load size base dst disp)) }
{
    let m = modrm_and_displacement(dst, base, disp);
    match size {
        Size::S8 => emit_rexed(
            code,
            at,
            0,
            dst,
            base,
            TWO_BYTES + 256 * (MOVZX_BYTE + 256 * m.word),
            m.size + 2,
        ),
        Size::S16 => emit_rexed(
            code,
            at,
            0,
            dst,
            base,
            TWO_BYTES + 256 * (MOVZX_WORD + 256 * m.word),
            m.size + 2,
        ),
        Size::S32 => emit_rexed(code, at, 0, dst, base, MOV_LOAD + 256 * m.word, m.size + 1),
        Size::S64 => emit_rexed(code, at, 1, dst, base, MOV_LOAD + 256 * m.word, m.size + 1),
    }
}

// Store src to [base + disp].
pub fn emit_store(
    code: &mut [u8],
    at: Position,
    size: Size,
    src: u8,
    base: u8,
    disp: u32,
) -> Position
    requires { Fits code at × ((src < 16) × (base < 16)) }
    ensures { Wrote code at result (encode_plain (store size src base disp)) }
{
    let m = modrm_and_displacement(src, base, disp);
    match size {
        // Without a REX the numbers 4 to 7 mean AH, CH, DH and BH.
        Size::S8 => emit_rex_rule(
            code,
            at,
            FORCED,
            0,
            src,
            base,
            MOV_BYTE + 256 * m.word,
            m.size + 1,
        ),
        Size::S16 => {
            let next = bytes::emit_bytes(code, at, OPERAND_SIZE, 1);
            emit_rexed(code, next, 0, src, base, STORE + 256 * m.word, m.size + 1)
        }
        Size::S32 => emit_rexed(code, at, 0, src, base, STORE + 256 * m.word, m.size + 1),
        Size::S64 => emit_rexed(code, at, 1, src, base, STORE + 256 * m.word, m.size + 1),
    }
}

// Store imm to [base + disp].
pub fn emit_store_imm32(
    code: &mut [u8],
    at: Position,
    size: Size,
    base: u8,
    disp: u32,
    imm: u32,
) -> Position
    requires { Fits code at × (base < 16) }
    ensures { Wrote code at result (encode_plain (store_imm size base disp imm)) }
{
    let m = modrm_and_displacement(GROUP11_MOV, base, disp);
    match size {
        Size::S8 => {
            let next = emit_rexed(
                code,
                at,
                0,
                0,
                base,
                GROUP11_BYTE + 256 * m.word,
                m.size + 1,
            );
            bytes::emit_bytes(code, next, imm as u64, 1)
        }
        Size::S16 => {
            let rex = bytes::emit_bytes(code, at, OPERAND_SIZE, 1);
            let next = emit_rexed(code, rex, 0, 0, base, STORE_IMM + 256 * m.word, m.size + 1);
            bytes::emit_bytes(code, next, imm as u64, 2)
        }
        Size::S32 => {
            let next = emit_rexed(code, at, 0, 0, base, STORE_IMM + 256 * m.word, m.size + 1);
            bytes::emit_bytes(code, next, imm as u64, 4)
        }
        Size::S64 => {
            let next = emit_rexed(code, at, 1, 0, base, STORE_IMM + 256 * m.word, m.size + 1);
            bytes::emit_bytes(code, next, imm as u64, 4)
        }
    }
}
