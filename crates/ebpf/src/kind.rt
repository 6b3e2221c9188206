// What kind of slot an opcode makes: a table of 256 entries, one for each opcode byte, and the kind that an entry stands for.
ghost use Rattle.std.specs.Prelude.{◌≡◌, slice_index};
ghost use Rattle.ebpf.specs.Opcode.{kind_of, size_of, source_of};
ghost use Rattle.ebpf.specs.Kinds.{numbers, numbered, width_of, alu_of, shift_of, mul_of, condition_of};

use crate::constants;
use base::{Size, Width};

// Where the second operand comes from: BPF_K, the immediate, or BPF_X, the register src.
#[derive(Clone, Copy)]
pub enum Source {
    Imm,
    Reg,
}

#[derive(Clone, Copy)]
pub enum AluOp {
    Add,
    Sub,
    Or,
    And,
    Xor,
}

#[derive(Clone, Copy)]
pub enum ShiftOp {
    Lsh,
    Rsh,
    Arsh,
}

#[derive(Clone, Copy)]
pub enum MulOp {
    Mul,
    Div,
    Mod,
}

#[derive(Clone, Copy)]
pub enum Condition {
    Jeq,
    Jgt,
    Jge,
    Jset,
    Jne,
    Jsgt,
    Jsge,
    Jlt,
    Jle,
    Jslt,
    Jsle,
}

// The kinds that are translated, 120 opcodes in all. The names are those of rbpf's src/ebpf.rs, less what the fields say.
#[derive(Clone, Copy)]
pub enum Kind {
    LdAbs(Size),
    LdInd(Size),
    LdDwImm,
    LdReg(Size),
    StImm(Size),
    StReg(Size),
    Alu(AluOp, Width, Source),
    Shift(ShiftOp, Width, Source),
    Neg(Width),
    MulDivMod(MulOp, Width, Source),
    Mov(Width, Source),
    Le,
    Be,
    Ja,
    Jump(Condition, Width, Source),
    Call,
    Exit,
}

// Three answers, and no `Result<Kind, ..>`: nobody hands on that there is no kind, and all three stand side by side where it is asked.
#[derive(Clone, Copy)]
pub enum Lookup {
    Known(Kind),
    // ST_W_XADD, ST_DW_XADD, TAIL_CALL: rbpf's src/ebpf.rs names them, and its src/jit.rs does not translate them.
    Unimplemented,
    Unknown,
}

// A kind's number; the fields below it (size, width, source, operation) are the opcode's own. Up to KIND_CALL are those of which a look at
// the slot has more to ask, so that one comparison passes all others. They are numbers and no enum: a constant array of 256 values of one takes
// a minute more of a core to check, which is more than all else in this crate (docs/DECISIONS.md).
pub const KIND_UNKNOWN: u8 = 0;

pub const KIND_UNIMPLEMENTED: u8 = 1;

pub const KIND_LD_DW_IMM: u8 = 2;

pub const KIND_MULDIVMOD: u8 = 3;

pub const KIND_LE: u8 = 4;

pub const KIND_BE: u8 = 5;

pub const KIND_JA: u8 = 6;

pub const KIND_JUMP: u8 = 7;

pub const KIND_CALL: u8 = 8;

pub const KIND_LD_ABS: u8 = 9;

pub const KIND_LD_IND: u8 = 10;

pub const KIND_LD_REG: u8 = 11;

pub const KIND_ST_IMM: u8 = 12;

pub const KIND_ST_REG: u8 = 13;

pub const KIND_ALU: u8 = 14;

pub const KIND_SHIFT: u8 = 15;

pub const KIND_NEG: u8 = 16;

pub const KIND_MOV: u8 = 17;

pub const KIND_EXIT: u8 = 18;

// At each opcode its kind's number.
const KINDS: [u8; 256] = [
    KIND_UNKNOWN, // 00
    KIND_UNKNOWN, // 01
    KIND_UNKNOWN, // 02
    KIND_UNKNOWN, // 03
    KIND_ALU, // 04 ADD32_IMM
    KIND_JA, // 05 JA
    KIND_UNKNOWN, // 06
    KIND_ALU, // 07 ADD64_IMM
    KIND_UNKNOWN, // 08
    KIND_UNKNOWN, // 09
    KIND_UNKNOWN, // 0a
    KIND_UNKNOWN, // 0b
    KIND_ALU, // 0c ADD32_REG
    KIND_UNKNOWN, // 0d
    KIND_UNKNOWN, // 0e
    KIND_ALU, // 0f ADD64_REG
    KIND_UNKNOWN, // 10
    KIND_UNKNOWN, // 11
    KIND_UNKNOWN, // 12
    KIND_UNKNOWN, // 13
    KIND_ALU, // 14 SUB32_IMM
    KIND_JUMP, // 15 JEQ_IMM
    KIND_JUMP, // 16 JEQ_IMM32
    KIND_ALU, // 17 SUB64_IMM
    KIND_LD_DW_IMM, // 18 LD_DW_IMM
    KIND_UNKNOWN, // 19
    KIND_UNKNOWN, // 1a
    KIND_UNKNOWN, // 1b
    KIND_ALU, // 1c SUB32_REG
    KIND_JUMP, // 1d JEQ_REG
    KIND_JUMP, // 1e JEQ_REG32
    KIND_ALU, // 1f SUB64_REG
    KIND_LD_ABS, // 20 LD_ABS_W
    KIND_UNKNOWN, // 21
    KIND_UNKNOWN, // 22
    KIND_UNKNOWN, // 23
    KIND_MULDIVMOD, // 24 MUL32_IMM
    KIND_JUMP, // 25 JGT_IMM
    KIND_JUMP, // 26 JGT_IMM32
    KIND_MULDIVMOD, // 27 MUL64_IMM
    KIND_LD_ABS, // 28 LD_ABS_H
    KIND_UNKNOWN, // 29
    KIND_UNKNOWN, // 2a
    KIND_UNKNOWN, // 2b
    KIND_MULDIVMOD, // 2c MUL32_REG
    KIND_JUMP, // 2d JGT_REG
    KIND_JUMP, // 2e JGT_REG32
    KIND_MULDIVMOD, // 2f MUL64_REG
    KIND_LD_ABS, // 30 LD_ABS_B
    KIND_UNKNOWN, // 31
    KIND_UNKNOWN, // 32
    KIND_UNKNOWN, // 33
    KIND_MULDIVMOD, // 34 DIV32_IMM
    KIND_JUMP, // 35 JGE_IMM
    KIND_JUMP, // 36 JGE_IMM32
    KIND_MULDIVMOD, // 37 DIV64_IMM
    KIND_LD_ABS, // 38 LD_ABS_DW
    KIND_UNKNOWN, // 39
    KIND_UNKNOWN, // 3a
    KIND_UNKNOWN, // 3b
    KIND_MULDIVMOD, // 3c DIV32_REG
    KIND_JUMP, // 3d JGE_REG
    KIND_JUMP, // 3e JGE_REG32
    KIND_MULDIVMOD, // 3f DIV64_REG
    KIND_LD_IND, // 40 LD_IND_W
    KIND_UNKNOWN, // 41
    KIND_UNKNOWN, // 42
    KIND_UNKNOWN, // 43
    KIND_ALU, // 44 OR32_IMM
    KIND_JUMP, // 45 JSET_IMM
    KIND_JUMP, // 46 JSET_IMM32
    KIND_ALU, // 47 OR64_IMM
    KIND_LD_IND, // 48 LD_IND_H
    KIND_UNKNOWN, // 49
    KIND_UNKNOWN, // 4a
    KIND_UNKNOWN, // 4b
    KIND_ALU, // 4c OR32_REG
    KIND_JUMP, // 4d JSET_REG
    KIND_JUMP, // 4e JSET_REG32
    KIND_ALU, // 4f OR64_REG
    KIND_LD_IND, // 50 LD_IND_B
    KIND_UNKNOWN, // 51
    KIND_UNKNOWN, // 52
    KIND_UNKNOWN, // 53
    KIND_ALU, // 54 AND32_IMM
    KIND_JUMP, // 55 JNE_IMM
    KIND_JUMP, // 56 JNE_IMM32
    KIND_ALU, // 57 AND64_IMM
    KIND_LD_IND, // 58 LD_IND_DW
    KIND_UNKNOWN, // 59
    KIND_UNKNOWN, // 5a
    KIND_UNKNOWN, // 5b
    KIND_ALU, // 5c AND32_REG
    KIND_JUMP, // 5d JNE_REG
    KIND_JUMP, // 5e JNE_REG32
    KIND_ALU, // 5f AND64_REG
    KIND_UNKNOWN, // 60
    KIND_LD_REG, // 61 LD_W_REG
    KIND_ST_IMM, // 62 ST_W_IMM
    KIND_ST_REG, // 63 ST_W_REG
    KIND_SHIFT, // 64 LSH32_IMM
    KIND_JUMP, // 65 JSGT_IMM
    KIND_JUMP, // 66 JSGT_IMM32
    KIND_SHIFT, // 67 LSH64_IMM
    KIND_UNKNOWN, // 68
    KIND_LD_REG, // 69 LD_H_REG
    KIND_ST_IMM, // 6a ST_H_IMM
    KIND_ST_REG, // 6b ST_H_REG
    KIND_SHIFT, // 6c LSH32_REG
    KIND_JUMP, // 6d JSGT_REG
    KIND_JUMP, // 6e JSGT_REG32
    KIND_SHIFT, // 6f LSH64_REG
    KIND_UNKNOWN, // 70
    KIND_LD_REG, // 71 LD_B_REG
    KIND_ST_IMM, // 72 ST_B_IMM
    KIND_ST_REG, // 73 ST_B_REG
    KIND_SHIFT, // 74 RSH32_IMM
    KIND_JUMP, // 75 JSGE_IMM
    KIND_JUMP, // 76 JSGE_IMM32
    KIND_SHIFT, // 77 RSH64_IMM
    KIND_UNKNOWN, // 78
    KIND_LD_REG, // 79 LD_DW_REG
    KIND_ST_IMM, // 7a ST_DW_IMM
    KIND_ST_REG, // 7b ST_DW_REG
    KIND_SHIFT, // 7c RSH32_REG
    KIND_JUMP, // 7d JSGE_REG
    KIND_JUMP, // 7e JSGE_REG32
    KIND_SHIFT, // 7f RSH64_REG
    KIND_UNKNOWN, // 80
    KIND_UNKNOWN, // 81
    KIND_UNKNOWN, // 82
    KIND_UNKNOWN, // 83
    KIND_NEG, // 84 NEG32
    KIND_CALL, // 85 CALL
    KIND_UNKNOWN, // 86
    KIND_NEG, // 87 NEG64
    KIND_UNKNOWN, // 88
    KIND_UNKNOWN, // 89
    KIND_UNKNOWN, // 8a
    KIND_UNKNOWN, // 8b
    KIND_UNKNOWN, // 8c
    KIND_UNIMPLEMENTED, // 8d TAIL_CALL
    KIND_UNKNOWN, // 8e
    KIND_UNKNOWN, // 8f
    KIND_UNKNOWN, // 90
    KIND_UNKNOWN, // 91
    KIND_UNKNOWN, // 92
    KIND_UNKNOWN, // 93
    KIND_MULDIVMOD, // 94 MOD32_IMM
    KIND_EXIT, // 95 EXIT
    KIND_UNKNOWN, // 96
    KIND_MULDIVMOD, // 97 MOD64_IMM
    KIND_UNKNOWN, // 98
    KIND_UNKNOWN, // 99
    KIND_UNKNOWN, // 9a
    KIND_UNKNOWN, // 9b
    KIND_MULDIVMOD, // 9c MOD32_REG
    KIND_UNKNOWN, // 9d
    KIND_UNKNOWN, // 9e
    KIND_MULDIVMOD, // 9f MOD64_REG
    KIND_UNKNOWN, // a0
    KIND_UNKNOWN, // a1
    KIND_UNKNOWN, // a2
    KIND_UNKNOWN, // a3
    KIND_ALU, // a4 XOR32_IMM
    KIND_JUMP, // a5 JLT_IMM
    KIND_JUMP, // a6 JLT_IMM32
    KIND_ALU, // a7 XOR64_IMM
    KIND_UNKNOWN, // a8
    KIND_UNKNOWN, // a9
    KIND_UNKNOWN, // aa
    KIND_UNKNOWN, // ab
    KIND_ALU, // ac XOR32_REG
    KIND_JUMP, // ad JLT_REG
    KIND_JUMP, // ae JLT_REG32
    KIND_ALU, // af XOR64_REG
    KIND_UNKNOWN, // b0
    KIND_UNKNOWN, // b1
    KIND_UNKNOWN, // b2
    KIND_UNKNOWN, // b3
    KIND_MOV, // b4 MOV32_IMM
    KIND_JUMP, // b5 JLE_IMM
    KIND_JUMP, // b6 JLE_IMM32
    KIND_MOV, // b7 MOV64_IMM
    KIND_UNKNOWN, // b8
    KIND_UNKNOWN, // b9
    KIND_UNKNOWN, // ba
    KIND_UNKNOWN, // bb
    KIND_MOV, // bc MOV32_REG
    KIND_JUMP, // bd JLE_REG
    KIND_JUMP, // be JLE_REG32
    KIND_MOV, // bf MOV64_REG
    KIND_UNKNOWN, // c0
    KIND_UNKNOWN, // c1
    KIND_UNKNOWN, // c2
    KIND_UNIMPLEMENTED, // c3 ST_W_XADD
    KIND_SHIFT, // c4 ARSH32_IMM
    KIND_JUMP, // c5 JSLT_IMM
    KIND_JUMP, // c6 JSLT_IMM32
    KIND_SHIFT, // c7 ARSH64_IMM
    KIND_UNKNOWN, // c8
    KIND_UNKNOWN, // c9
    KIND_UNKNOWN, // ca
    KIND_UNKNOWN, // cb
    KIND_SHIFT, // cc ARSH32_REG
    KIND_JUMP, // cd JSLT_REG
    KIND_JUMP, // ce JSLT_REG32
    KIND_SHIFT, // cf ARSH64_REG
    KIND_UNKNOWN, // d0
    KIND_UNKNOWN, // d1
    KIND_UNKNOWN, // d2
    KIND_UNKNOWN, // d3
    KIND_LE, // d4 LE
    KIND_JUMP, // d5 JSLE_IMM
    KIND_JUMP, // d6 JSLE_IMM32
    KIND_UNKNOWN, // d7
    KIND_UNKNOWN, // d8
    KIND_UNKNOWN, // d9
    KIND_UNKNOWN, // da
    KIND_UNIMPLEMENTED, // db ST_DW_XADD
    KIND_BE, // dc BE
    KIND_JUMP, // dd JSLE_REG
    KIND_JUMP, // de JSLE_REG32
    KIND_UNKNOWN, // df
    KIND_UNKNOWN, // e0
    KIND_UNKNOWN, // e1
    KIND_UNKNOWN, // e2
    KIND_UNKNOWN, // e3
    KIND_UNKNOWN, // e4
    KIND_UNKNOWN, // e5
    KIND_UNKNOWN, // e6
    KIND_UNKNOWN, // e7
    KIND_UNKNOWN, // e8
    KIND_UNKNOWN, // e9
    KIND_UNKNOWN, // ea
    KIND_UNKNOWN, // eb
    KIND_UNKNOWN, // ec
    KIND_UNKNOWN, // ed
    KIND_UNKNOWN, // ee
    KIND_UNKNOWN, // ef
    KIND_UNKNOWN, // f0
    KIND_UNKNOWN, // f1
    KIND_UNKNOWN, // f2
    KIND_UNKNOWN, // f3
    KIND_UNKNOWN, // f4
    KIND_UNKNOWN, // f5
    KIND_UNKNOWN, // f6
    KIND_UNKNOWN, // f7
    KIND_UNKNOWN, // f8
    KIND_UNKNOWN, // f9
    KIND_UNKNOWN, // fa
    KIND_UNKNOWN, // fb
    KIND_UNKNOWN, // fc
    KIND_UNKNOWN, // fd
    KIND_UNKNOWN, // fe
    KIND_UNKNOWN, // ff
];

// Where rbpf has no mask for a field, its constant with all bits of the field is the mask: BPF_DW, BPF_X.
pub fn size_of(opc: u8) -> Size
    ensures { result ≡ size_of opc }
{
    match opc & constants::BPF_DW {
        constants::BPF_W => Size::S32,
        constants::BPF_H => Size::S16,
        constants::BPF_B => Size::S8,
        _ => Size::S64,
    }
}

pub fn width_of(opc: u8) -> Width
    ensures { result ≡ width_of opc }
{
    match opc & constants::BPF_CLS_MASK {
        constants::BPF_JMP => Width::W64,
        constants::BPF_ALU64 => Width::W64,
        _ => Width::W32,
    }
}

pub fn source_of(opc: u8) -> Source
    ensures { result ≡ source_of opc }
{
    match opc & constants::BPF_X {
        constants::BPF_K => Source::Imm,
        _ => Source::Reg,
    }
}

pub fn alu_of(opc: u8) -> AluOp
    ensures { result ≡ alu_of opc }
{
    match opc & constants::BPF_ALU_OP_MASK {
        constants::BPF_ADD => AluOp::Add,
        constants::BPF_SUB => AluOp::Sub,
        constants::BPF_OR => AluOp::Or,
        constants::BPF_AND => AluOp::And,
        _ => AluOp::Xor,
    }
}

pub fn shift_of(opc: u8) -> ShiftOp
    ensures { result ≡ shift_of opc }
{
    match opc & constants::BPF_ALU_OP_MASK {
        constants::BPF_LSH => ShiftOp::Lsh,
        constants::BPF_RSH => ShiftOp::Rsh,
        _ => ShiftOp::Arsh,
    }
}

pub fn mul_of(opc: u8) -> MulOp
    ensures { result ≡ mul_of opc }
{
    match opc & constants::BPF_ALU_OP_MASK {
        constants::BPF_MUL => MulOp::Mul,
        constants::BPF_DIV => MulOp::Div,
        _ => MulOp::Mod,
    }
}

pub fn condition_of(opc: u8) -> Condition
    ensures { result ≡ condition_of opc }
{
    match opc & constants::BPF_ALU_OP_MASK {
        constants::BPF_JEQ => Condition::Jeq,
        constants::BPF_JGT => Condition::Jgt,
        constants::BPF_JGE => Condition::Jge,
        constants::BPF_JSET => Condition::Jset,
        constants::BPF_JNE => Condition::Jne,
        constants::BPF_JSGT => Condition::Jsgt,
        constants::BPF_JSGE => Condition::Jsge,
        constants::BPF_JLT => Condition::Jlt,
        constants::BPF_JLE => Condition::Jle,
        constants::BPF_JSLT => Condition::Jslt,
        _ => Condition::Jsle,
    }
}

// What an entry stands for.
fn kind_numbered(opc: u8, number: u8) -> Lookup
    ensures { result ≡ numbered opc number }
{
    match number {
        KIND_UNIMPLEMENTED => Lookup::Unimplemented,
        KIND_LD_DW_IMM => Lookup::Known(Kind::LdDwImm),
        KIND_MULDIVMOD => Lookup::Known(Kind::MulDivMod(
            mul_of(opc),
            width_of(opc),
            source_of(opc),
        )),
        KIND_LE => Lookup::Known(Kind::Le),
        KIND_BE => Lookup::Known(Kind::Be),
        KIND_JA => Lookup::Known(Kind::Ja),
        KIND_JUMP => Lookup::Known(Kind::Jump(condition_of(opc), width_of(opc), source_of(opc))),
        KIND_CALL => Lookup::Known(Kind::Call),
        KIND_LD_ABS => Lookup::Known(Kind::LdAbs(size_of(opc))),
        KIND_LD_IND => Lookup::Known(Kind::LdInd(size_of(opc))),
        KIND_LD_REG => Lookup::Known(Kind::LdReg(size_of(opc))),
        KIND_ST_IMM => Lookup::Known(Kind::StImm(size_of(opc))),
        KIND_ST_REG => Lookup::Known(Kind::StReg(size_of(opc))),
        KIND_ALU => Lookup::Known(Kind::Alu(alu_of(opc), width_of(opc), source_of(opc))),
        KIND_SHIFT => Lookup::Known(Kind::Shift(shift_of(opc), width_of(opc), source_of(opc))),
        KIND_NEG => Lookup::Known(Kind::Neg(width_of(opc))),
        KIND_MOV => Lookup::Known(Kind::Mov(width_of(opc), source_of(opc))),
        KIND_EXIT => Lookup::Known(Kind::Exit),
        _ => Lookup::Unknown,
    }
}

// The opcode table, laid out once and lent from then on, since an indexed constant is laid out anew at each use.
#[derive(Drop)]
pub struct Opcodes {
    pub entries: [u8; 256],
    pub ghost whole: { entries ≡ numbers },
}

impl Opcodes {
    pub fn new() -> Self {
        Opcodes { entries: KINDS }
    }

    // An opcode's entry, which is its kind's number.
    pub fn number_of(&self, opc: u8) -> u8
        ensures { result ≡ slice_index numbers opc }
    {
        self.entries[opc as usize]
    }

    pub fn kind_of(&self, opc: u8) -> Lookup
        ensures { result ≡ kind_of opc }
    {
        kind_numbered(opc, self.number_of(opc))
    }
}

pub fn kind_of(opc: u8) -> Lookup
    ensures { result ≡ kind_of opc }
{
    Opcodes::new().kind_of(opc)
}
