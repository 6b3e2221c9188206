// Constants of rbpf's src/ebpf.rs, under their own names: RFC 9669's fields (section 3) and the opcodes made of them (sections 4 and 5).
ghost use Rattle.std.specs.Prelude.{◌≡◌};
ghost use Rattle.ebpf.specs.Named.{opcodes};

pub const PROG_MAX_INSNS: usize = 1000000;

pub const INSN_SIZE: usize = 8;

pub const STACK_SIZE: usize = 512;

// Three least significant bits: the class.
pub const BPF_LD: u8 = 0x00;

pub const BPF_LDX: u8 = 0x01;

pub const BPF_ST: u8 = 0x02;

pub const BPF_STX: u8 = 0x03;

pub const BPF_ALU: u8 = 0x04;

pub const BPF_JMP: u8 = 0x05;

pub const BPF_JMP32: u8 = 0x06;

pub const BPF_ALU64: u8 = 0x07;

// Size modifiers of loads and stores.
pub const BPF_W: u8 = 0x00;

pub const BPF_H: u8 = 0x08;

pub const BPF_B: u8 = 0x10;

pub const BPF_DW: u8 = 0x18;

// Mode modifiers of loads and stores.
pub const BPF_IMM: u8 = 0x00;

pub const BPF_ABS: u8 = 0x20;

pub const BPF_IND: u8 = 0x40;

pub const BPF_MEM: u8 = 0x60;

pub const BPF_XADD: u8 = 0xc0;

// Source modifiers of arithmetic and jumps.
pub const BPF_K: u8 = 0x00;

pub const BPF_X: u8 = 0x08;

// Operations of arithmetic.
pub const BPF_ADD: u8 = 0x00;

pub const BPF_SUB: u8 = 0x10;

pub const BPF_MUL: u8 = 0x20;

pub const BPF_DIV: u8 = 0x30;

pub const BPF_OR: u8 = 0x40;

pub const BPF_AND: u8 = 0x50;

pub const BPF_LSH: u8 = 0x60;

pub const BPF_RSH: u8 = 0x70;

pub const BPF_NEG: u8 = 0x80;

pub const BPF_MOD: u8 = 0x90;

pub const BPF_XOR: u8 = 0xa0;

pub const BPF_MOV: u8 = 0xb0;

pub const BPF_ARSH: u8 = 0xc0;

pub const BPF_END: u8 = 0xd0;

// Operations of jumps.
pub const BPF_JA: u8 = 0x00;

pub const BPF_JEQ: u8 = 0x10;

pub const BPF_JGT: u8 = 0x20;

pub const BPF_JGE: u8 = 0x30;

pub const BPF_JSET: u8 = 0x40;

pub const BPF_JNE: u8 = 0x50;

pub const BPF_JSGT: u8 = 0x60;

pub const BPF_JSGE: u8 = 0x70;

pub const BPF_CALL: u8 = 0x80;

pub const BPF_EXIT: u8 = 0x90;

pub const BPF_JLT: u8 = 0xa0;

pub const BPF_JLE: u8 = 0xb0;

pub const BPF_JSLT: u8 = 0xc0;

pub const BPF_JSLE: u8 = 0xd0;

// The opcodes.
pub const LD_ABS_B: u8 = BPF_LD | BPF_ABS | BPF_B;

pub const LD_ABS_H: u8 = BPF_LD | BPF_ABS | BPF_H;

pub const LD_ABS_W: u8 = BPF_LD | BPF_ABS | BPF_W;

pub const LD_ABS_DW: u8 = BPF_LD | BPF_ABS | BPF_DW;

pub const LD_IND_B: u8 = BPF_LD | BPF_IND | BPF_B;

pub const LD_IND_H: u8 = BPF_LD | BPF_IND | BPF_H;

pub const LD_IND_W: u8 = BPF_LD | BPF_IND | BPF_W;

pub const LD_IND_DW: u8 = BPF_LD | BPF_IND | BPF_DW;

pub const LD_DW_IMM: u8 = BPF_LD | BPF_IMM | BPF_DW;

pub const LD_B_REG: u8 = BPF_LDX | BPF_MEM | BPF_B;

pub const LD_H_REG: u8 = BPF_LDX | BPF_MEM | BPF_H;

pub const LD_W_REG: u8 = BPF_LDX | BPF_MEM | BPF_W;

pub const LD_DW_REG: u8 = BPF_LDX | BPF_MEM | BPF_DW;

pub const ST_B_IMM: u8 = BPF_ST | BPF_MEM | BPF_B;

pub const ST_H_IMM: u8 = BPF_ST | BPF_MEM | BPF_H;

pub const ST_W_IMM: u8 = BPF_ST | BPF_MEM | BPF_W;

pub const ST_DW_IMM: u8 = BPF_ST | BPF_MEM | BPF_DW;

pub const ST_B_REG: u8 = BPF_STX | BPF_MEM | BPF_B;

pub const ST_H_REG: u8 = BPF_STX | BPF_MEM | BPF_H;

pub const ST_W_REG: u8 = BPF_STX | BPF_MEM | BPF_W;

pub const ST_DW_REG: u8 = BPF_STX | BPF_MEM | BPF_DW;

pub const ST_W_XADD: u8 = BPF_STX | BPF_XADD | BPF_W;

pub const ST_DW_XADD: u8 = BPF_STX | BPF_XADD | BPF_DW;

pub const ADD32_IMM: u8 = BPF_ALU | BPF_K | BPF_ADD;

pub const ADD32_REG: u8 = BPF_ALU | BPF_X | BPF_ADD;

pub const SUB32_IMM: u8 = BPF_ALU | BPF_K | BPF_SUB;

pub const SUB32_REG: u8 = BPF_ALU | BPF_X | BPF_SUB;

pub const MUL32_IMM: u8 = BPF_ALU | BPF_K | BPF_MUL;

pub const MUL32_REG: u8 = BPF_ALU | BPF_X | BPF_MUL;

pub const DIV32_IMM: u8 = BPF_ALU | BPF_K | BPF_DIV;

pub const DIV32_REG: u8 = BPF_ALU | BPF_X | BPF_DIV;

pub const OR32_IMM: u8 = BPF_ALU | BPF_K | BPF_OR;

pub const OR32_REG: u8 = BPF_ALU | BPF_X | BPF_OR;

pub const AND32_IMM: u8 = BPF_ALU | BPF_K | BPF_AND;

pub const AND32_REG: u8 = BPF_ALU | BPF_X | BPF_AND;

pub const LSH32_IMM: u8 = BPF_ALU | BPF_K | BPF_LSH;

pub const LSH32_REG: u8 = BPF_ALU | BPF_X | BPF_LSH;

pub const RSH32_IMM: u8 = BPF_ALU | BPF_K | BPF_RSH;

pub const RSH32_REG: u8 = BPF_ALU | BPF_X | BPF_RSH;

pub const NEG32: u8 = BPF_ALU | BPF_NEG;

pub const MOD32_IMM: u8 = BPF_ALU | BPF_K | BPF_MOD;

pub const MOD32_REG: u8 = BPF_ALU | BPF_X | BPF_MOD;

pub const XOR32_IMM: u8 = BPF_ALU | BPF_K | BPF_XOR;

pub const XOR32_REG: u8 = BPF_ALU | BPF_X | BPF_XOR;

pub const MOV32_IMM: u8 = BPF_ALU | BPF_K | BPF_MOV;

pub const MOV32_REG: u8 = BPF_ALU | BPF_X | BPF_MOV;

pub const ARSH32_IMM: u8 = BPF_ALU | BPF_K | BPF_ARSH;

pub const ARSH32_REG: u8 = BPF_ALU | BPF_X | BPF_ARSH;

pub const LE: u8 = BPF_ALU | BPF_K | BPF_END;

pub const BE: u8 = BPF_ALU | BPF_X | BPF_END;

pub const ADD64_IMM: u8 = BPF_ALU64 | BPF_K | BPF_ADD;

pub const ADD64_REG: u8 = BPF_ALU64 | BPF_X | BPF_ADD;

pub const SUB64_IMM: u8 = BPF_ALU64 | BPF_K | BPF_SUB;

pub const SUB64_REG: u8 = BPF_ALU64 | BPF_X | BPF_SUB;

pub const MUL64_IMM: u8 = BPF_ALU64 | BPF_K | BPF_MUL;

pub const MUL64_REG: u8 = BPF_ALU64 | BPF_X | BPF_MUL;

pub const DIV64_IMM: u8 = BPF_ALU64 | BPF_K | BPF_DIV;

pub const DIV64_REG: u8 = BPF_ALU64 | BPF_X | BPF_DIV;

pub const OR64_IMM: u8 = BPF_ALU64 | BPF_K | BPF_OR;

pub const OR64_REG: u8 = BPF_ALU64 | BPF_X | BPF_OR;

pub const AND64_IMM: u8 = BPF_ALU64 | BPF_K | BPF_AND;

pub const AND64_REG: u8 = BPF_ALU64 | BPF_X | BPF_AND;

pub const LSH64_IMM: u8 = BPF_ALU64 | BPF_K | BPF_LSH;

pub const LSH64_REG: u8 = BPF_ALU64 | BPF_X | BPF_LSH;

pub const RSH64_IMM: u8 = BPF_ALU64 | BPF_K | BPF_RSH;

pub const RSH64_REG: u8 = BPF_ALU64 | BPF_X | BPF_RSH;

pub const NEG64: u8 = BPF_ALU64 | BPF_NEG;

pub const MOD64_IMM: u8 = BPF_ALU64 | BPF_K | BPF_MOD;

pub const MOD64_REG: u8 = BPF_ALU64 | BPF_X | BPF_MOD;

pub const XOR64_IMM: u8 = BPF_ALU64 | BPF_K | BPF_XOR;

pub const XOR64_REG: u8 = BPF_ALU64 | BPF_X | BPF_XOR;

pub const MOV64_IMM: u8 = BPF_ALU64 | BPF_K | BPF_MOV;

pub const MOV64_REG: u8 = BPF_ALU64 | BPF_X | BPF_MOV;

pub const ARSH64_IMM: u8 = BPF_ALU64 | BPF_K | BPF_ARSH;

pub const ARSH64_REG: u8 = BPF_ALU64 | BPF_X | BPF_ARSH;

pub const JA: u8 = BPF_JMP | BPF_JA;

pub const JEQ_IMM: u8 = BPF_JMP | BPF_K | BPF_JEQ;

pub const JEQ_REG: u8 = BPF_JMP | BPF_X | BPF_JEQ;

pub const JGT_IMM: u8 = BPF_JMP | BPF_K | BPF_JGT;

pub const JGT_REG: u8 = BPF_JMP | BPF_X | BPF_JGT;

pub const JGE_IMM: u8 = BPF_JMP | BPF_K | BPF_JGE;

pub const JGE_REG: u8 = BPF_JMP | BPF_X | BPF_JGE;

pub const JLT_IMM: u8 = BPF_JMP | BPF_K | BPF_JLT;

pub const JLT_REG: u8 = BPF_JMP | BPF_X | BPF_JLT;

pub const JLE_IMM: u8 = BPF_JMP | BPF_K | BPF_JLE;

pub const JLE_REG: u8 = BPF_JMP | BPF_X | BPF_JLE;

pub const JSET_IMM: u8 = BPF_JMP | BPF_K | BPF_JSET;

pub const JSET_REG: u8 = BPF_JMP | BPF_X | BPF_JSET;

pub const JNE_IMM: u8 = BPF_JMP | BPF_K | BPF_JNE;

pub const JNE_REG: u8 = BPF_JMP | BPF_X | BPF_JNE;

pub const JSGT_IMM: u8 = BPF_JMP | BPF_K | BPF_JSGT;

pub const JSGT_REG: u8 = BPF_JMP | BPF_X | BPF_JSGT;

pub const JSGE_IMM: u8 = BPF_JMP | BPF_K | BPF_JSGE;

pub const JSGE_REG: u8 = BPF_JMP | BPF_X | BPF_JSGE;

pub const JSLT_IMM: u8 = BPF_JMP | BPF_K | BPF_JSLT;

pub const JSLT_REG: u8 = BPF_JMP | BPF_X | BPF_JSLT;

pub const JSLE_IMM: u8 = BPF_JMP | BPF_K | BPF_JSLE;

pub const JSLE_REG: u8 = BPF_JMP | BPF_X | BPF_JSLE;

pub const JEQ_IMM32: u8 = BPF_JMP32 | BPF_K | BPF_JEQ;

pub const JEQ_REG32: u8 = BPF_JMP32 | BPF_X | BPF_JEQ;

pub const JGT_IMM32: u8 = BPF_JMP32 | BPF_K | BPF_JGT;

pub const JGT_REG32: u8 = BPF_JMP32 | BPF_X | BPF_JGT;

pub const JGE_IMM32: u8 = BPF_JMP32 | BPF_K | BPF_JGE;

pub const JGE_REG32: u8 = BPF_JMP32 | BPF_X | BPF_JGE;

pub const JLT_IMM32: u8 = BPF_JMP32 | BPF_K | BPF_JLT;

pub const JLT_REG32: u8 = BPF_JMP32 | BPF_X | BPF_JLT;

pub const JLE_IMM32: u8 = BPF_JMP32 | BPF_K | BPF_JLE;

pub const JLE_REG32: u8 = BPF_JMP32 | BPF_X | BPF_JLE;

pub const JSET_IMM32: u8 = BPF_JMP32 | BPF_K | BPF_JSET;

pub const JSET_REG32: u8 = BPF_JMP32 | BPF_X | BPF_JSET;

pub const JNE_IMM32: u8 = BPF_JMP32 | BPF_K | BPF_JNE;

pub const JNE_REG32: u8 = BPF_JMP32 | BPF_X | BPF_JNE;

pub const JSGT_IMM32: u8 = BPF_JMP32 | BPF_K | BPF_JSGT;

pub const JSGT_REG32: u8 = BPF_JMP32 | BPF_X | BPF_JSGT;

pub const JSGE_IMM32: u8 = BPF_JMP32 | BPF_K | BPF_JSGE;

pub const JSGE_REG32: u8 = BPF_JMP32 | BPF_X | BPF_JSGE;

pub const JSLT_IMM32: u8 = BPF_JMP32 | BPF_K | BPF_JSLT;

pub const JSLT_REG32: u8 = BPF_JMP32 | BPF_X | BPF_JSLT;

pub const JSLE_IMM32: u8 = BPF_JMP32 | BPF_K | BPF_JSLE;

pub const JSLE_REG32: u8 = BPF_JMP32 | BPF_X | BPF_JSLE;

pub const CALL: u8 = BPF_JMP | BPF_CALL;

pub const TAIL_CALL: u8 = BPF_JMP | BPF_X | BPF_CALL;

pub const EXIT: u8 = BPF_JMP | BPF_EXIT;

// Masks.
pub const BPF_CLS_MASK: u8 = 0x07;

pub const BPF_ALU_OP_MASK: u8 = 0xf0;

// Every opcode above, in the same order. `opcodes` holds them to specs/Named.antt, which has each byte with the kind that the name says.
pub const OPCODES: [u8; 123] = [
    LD_ABS_B, LD_ABS_H, LD_ABS_W, LD_ABS_DW, LD_IND_B, LD_IND_H, LD_IND_W, LD_IND_DW, LD_DW_IMM,
    LD_B_REG, LD_H_REG, LD_W_REG, LD_DW_REG, ST_B_IMM, ST_H_IMM, ST_W_IMM, ST_DW_IMM, ST_B_REG,
    ST_H_REG, ST_W_REG, ST_DW_REG, ST_W_XADD, ST_DW_XADD, ADD32_IMM, ADD32_REG, SUB32_IMM,
    SUB32_REG, MUL32_IMM, MUL32_REG, DIV32_IMM, DIV32_REG, OR32_IMM, OR32_REG, AND32_IMM,
    AND32_REG, LSH32_IMM, LSH32_REG, RSH32_IMM, RSH32_REG, NEG32, MOD32_IMM, MOD32_REG, XOR32_IMM,
    XOR32_REG, MOV32_IMM, MOV32_REG, ARSH32_IMM, ARSH32_REG, LE, BE, ADD64_IMM, ADD64_REG,
    SUB64_IMM, SUB64_REG, MUL64_IMM, MUL64_REG, DIV64_IMM, DIV64_REG, OR64_IMM, OR64_REG,
    AND64_IMM, AND64_REG, LSH64_IMM, LSH64_REG, RSH64_IMM, RSH64_REG, NEG64, MOD64_IMM, MOD64_REG,
    XOR64_IMM, XOR64_REG, MOV64_IMM, MOV64_REG, ARSH64_IMM, ARSH64_REG, JA, JEQ_IMM, JEQ_REG,
    JGT_IMM, JGT_REG, JGE_IMM, JGE_REG, JLT_IMM, JLT_REG, JLE_IMM, JLE_REG, JSET_IMM, JSET_REG,
    JNE_IMM, JNE_REG, JSGT_IMM, JSGT_REG, JSGE_IMM, JSGE_REG, JSLT_IMM, JSLT_REG, JSLE_IMM,
    JSLE_REG, JEQ_IMM32, JEQ_REG32, JGT_IMM32, JGT_REG32, JGE_IMM32, JGE_REG32, JLT_IMM32,
    JLT_REG32, JLE_IMM32, JLE_REG32, JSET_IMM32, JSET_REG32, JNE_IMM32, JNE_REG32, JSGT_IMM32,
    JSGT_REG32, JSGE_IMM32, JSGE_REG32, JSLT_IMM32, JSLT_REG32, JSLE_IMM32, JSLE_REG32, CALL,
    TAIL_CALL, EXIT,
];

pub fn opcodes() -> [u8; 123]
    ensures { result ≡ opcodes }
{
    OPCODES
}
