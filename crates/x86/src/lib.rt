// The x86-64 instructions that the translator writes: what they are, their bytes and their reader (specs/), and the numbers that the
// emitters put together, by name. A wrong one does not check: each emitter's contract says the bytes of an instruction (specs/Encode.antt).
// What an emitter takes as a parameter is a byte; what it only puts into a word has the word's type.

#![tactic(auto)]

// The registers, under the Rust's names: Intel 64 manual, volume 2, table 3-1.
pub const RAX: u8 = 0;

pub const RCX: u8 = 1;

pub const RDX: u8 = 2;

pub const RBX: u8 = 3;

pub const RSP: u8 = 4;

pub const RBP: u8 = 5;

pub const RSI: u8 = 6;

pub const RDI: u8 = 7;

pub const R8: u8 = 8;

pub const R9: u8 = 9;

pub const R10: u8 = 10;

pub const R11: u8 = 11;

pub const R13: u8 = 13;

pub const R14: u8 = 14;

pub const R15: u8 = 15;

// What stands ahead of an opcode: the operand size prefix (section 2.1.1), REX, alone and with W (section 2.2.1), and the escape to the
// opcodes of two bytes (section 2.1.2).
pub const OPERAND_SIZE: u64 = 0x66;

pub const REX: u64 = 0x40;

pub const REX_W: u64 = 0x48;

pub const TWO_BYTES: u64 = 0x0f;

// What the rule for REX is told where the prefix is written even with none of its bits set (`rex_rule`, specs/Encode.antt).
pub const FORCED: bool = true;

// ModRM's mod: [r/m] with no displacement, with one byte of it or four, or the register r/m itself (section 2.1.5, table 2-2).
pub const MOD_BARE: u64 = 0;

pub const MOD_DISP8: u64 = 1;

pub const MOD_DISP32: u64 = 2;

pub const MOD_REGISTER: u64 = 3;

// r/m, reg: 01 /r, 09 /r, 21 /r, 29 /r, 31 /r, 39 /r, 85 /r, 89 /r; MOV of one byte, 88 /r (volume 2, each under its mnemonic).
pub const ADD: u8 = 0x01;

pub const OR: u8 = 0x09;

pub const AND: u8 = 0x21;

pub const SUB: u8 = 0x29;

pub const XOR: u8 = 0x31;

pub const CMP: u8 = 0x39;

pub const TEST: u8 = 0x85;

pub const MOV: u8 = 0x89;

pub const MOV_BYTE: u64 = 0x88;

// reg, r/m: MOV 8B /r; MOVZX of one byte and of two, 0F B6 /r and 0F B7 /r.
pub const MOV_LOAD: u64 = 0x8b;

pub const MOVZX_BYTE: u64 = 0xb6;

pub const MOVZX_WORD: u64 = 0xb7;

// With the register's low three bits added: PUSH 50, POP 58, MOV of eight bytes B8, BSWAP 0F C8.
pub const PUSH: u8 = 0x50;

pub const POP: u8 = 0x58;

pub const MOV_IMM: u8 = 0xb8;

pub const BSWAP: u8 = 0xc8;

// The groups of opcodes that ModRM's reg extends (appendix A.4, table A-6). Group 1, r/m, imm32: 81.
pub const GROUP1: u8 = 0x81;

pub const GROUP1_ADD: u8 = 0;

pub const GROUP1_OR: u8 = 1;

pub const GROUP1_AND: u8 = 4;

pub const GROUP1_SUB: u8 = 5;

pub const GROUP1_XOR: u8 = 6;

pub const GROUP1_CMP: u8 = 7;

// Group 2, shifts and rotations: by imm8, C1, and by CL, D3.
pub const GROUP2_IMM8: u8 = 0xc1;

pub const GROUP2_CL: u8 = 0xd3;

pub const GROUP2_ROL: u8 = 0;

pub const GROUP2_SHL: u8 = 4;

pub const GROUP2_SHR: u8 = 5;

pub const GROUP2_SAR: u8 = 7;

// Group 3: F7; its TEST has an imm32.
pub const GROUP3: u8 = 0xf7;

pub const GROUP3_TEST: u8 = 0;

pub const GROUP3_NEG: u8 = 3;

pub const GROUP3_MUL: u8 = 4;

pub const GROUP3_DIV: u8 = 6;

// Group 5: FF, of which CALL through a register.
pub const GROUP5: u64 = 0xff;

pub const GROUP5_CALL: u64 = 2;

// Group 11, MOV r/m, imm: C7, and C6 for one byte.
pub const GROUP11: u8 = 0xc7;

pub const GROUP11_BYTE: u64 = 0xc6;

pub const GROUP11_MOV: u8 = 0;

// JMP E9 cd, CALL E8 cd, RET C3.
pub const JMP: u64 = 0xe9;

pub const CALL: u64 = 0xe8;

pub const RET: u64 = 0xc3;

// Jcc 0F 80+cc cd: 80 and the condition's number (appendix B.1.4.7).
pub const JB: u8 = 0x82;

pub const JAE: u8 = 0x83;

pub const JE: u8 = 0x84;

pub const JNE: u8 = 0x85;

pub const JBE: u8 = 0x86;

pub const JA: u8 = 0x87;

pub const JL: u8 = 0x8c;

pub const JGE: u8 = 0x8d;

pub const JLE: u8 = 0x8e;

pub const JG: u8 = 0x8f;
