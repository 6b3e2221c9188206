// What ends in a field of four bytes, and the return.
ghost use Rattle.std.specs.Prelude.{◌∷◌};
ghost use Rattle.base.specs.Bytes.{le32};
ghost use Rattle.x86.specs.Registers.{RAX};
ghost use Rattle.x86.specs.Instr.{jump, jmp, call, call_reg, ret};
ghost use Rattle.x86.specs.Encode.{encode};
ghost use Rattle.x86_emit.specs.Lent.{Wrote, Fits};

use crate::bytes;
use base::Position;
use x86::{CALL, GROUP5, GROUP5_CALL, JMP, MOD_REGISTER, RAX, RET, TWO_BYTES};

pub fn emit_jmp(code: &mut [u8], at: Position, field: u32) -> Position
    requires { Fits code at }
    ensures { Wrote code at result (encode (jump jmp field)) }
{
    bytes::emit_bytes(code, at, JMP + 256 * (field as u64), 5)
}

pub fn emit_call(code: &mut [u8], at: Position, field: u32) -> Position
    requires { Fits code at }
    ensures { Wrote code at result (encode (jump call field)) }
{
    bytes::emit_bytes(code, at, CALL + 256 * (field as u64), 5)
}

// `condition` is the second byte of the opcode, JB to JG.
pub fn emit_jcc(code: &mut [u8], at: Position, condition: u8, field: u32) -> Position
    requires { Fits code at }
    ensures { Wrote code at result (0x0f ∷ condition ∷ le32 field) }
{
    bytes::emit_bytes(
        code,
        at,
        TWO_BYTES + 256 * (condition as u64 + 256 * (field as u64)),
        6,
    )
}

// Through RAX: the group's opcode, and ModRM.
const CALL_RAX: u64 = GROUP5 + 256 * (64 * MOD_REGISTER + 8 * GROUP5_CALL + RAX as u64);

pub fn emit_call_rax(code: &mut [u8], at: Position) -> Position
    requires { Fits code at }
    ensures { Wrote code at result (encode (call_reg RAX)) }
{
    bytes::emit_bytes(code, at, CALL_RAX, 2)
}

pub fn emit_ret(code: &mut [u8], at: Position) -> Position
    requires { Fits code at }
    ensures { Wrote code at result (encode ret) }
{
    bytes::emit_bytes(code, at, RET, 1)
}
