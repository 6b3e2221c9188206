// A slot of the program, taken apart: `Insn` and `get_insn` of rbpf's src/ebpf.rs.
ghost use Rattle.std.specs.Prelude.{◌≡◌, ◌+◌, ◌*◌, ◌^◌, ◌<◌, ◌≤◌, length};
ghost use Rattle.ebpf.specs.Insn.{insn_at, read_at, extend, le2, le4};
ghost use Rattle.ebpf.specs.Tail.{tail_of};

use crate::constants::INSN_SIZE;
use base::Slot;

// The fields of a slot (RFC 9669, section 3.1). `off` is extended to 32 bits; `off` and `imm` are two's complement.
#[derive(Clone, Copy)]
pub struct Insn {
    pub opc: u8,
    pub dst: u8,
    pub src: u8,
    pub off: u32,
    pub imm: u32,
}

// `LittleEndian::read_i16` and `read_i32` of the Rust, at a place of the slice; the answer is the two's complement.
fn read_i16(s: &[u8], at: usize) -> u32
    requires { at + 2 ≤ length s.now }
    ensures { (result ≡ le2 s.now at) × (result < 2 ^ 16) }
{
    u32::from(s[at]) + 256 * u32::from(s[at + 1])
}

pub fn read_i32(s: &[u8], at: usize) -> u32
    requires { at + 4 ≤ length s.now }
    ensures { result ≡ le4 s.now at }
{
    u32::from_le_bytes([s[at], s[at + 1], s[at + 2], s[at + 3]])
}

// A 16-bit two's complement number as a 32-bit one.
fn extended(x: u32) -> u32
    requires { x < 2 ^ 16 }
    ensures { result ≡ extend x }
{
    std::num::wrapping_sub_u32((x + 32768) % 65536, 32768)
}

// The offset, extended.
pub fn offset_at(prog: &[u8], at: usize) -> u32
    requires { at + 2 ≤ length prog.now }
    ensures { result ≡ extend (le2 prog.now at) }
{
    extended(read_i16(prog, at))
}

// The fields of a slot whose eight bytes are there.
pub fn insn_at(prog: &[u8], slot: Slot) -> Insn
    requires { 8 * slot.number + 8 ≤ length prog.now }
    ensures { result ≡ insn_at prog.now slot.number }
{
    let at = INSN_SIZE * slot.number;
    let registers = prog[at + 1];
    Insn {
        opc: prog[at],
        dst: registers % 16,
        src: registers / 16,
        off: offset_at(prog, at + 2),
        imm: read_i32(prog, at + 4),
    }
}

// None where not all of the slot's eight bytes are there; the Rust panics.
pub fn get_insn(prog: &[u8], slot: Slot) -> Option<Insn>
    ensures { result ≡ read_at prog.now slot.number }
{
    if prog.len() / INSN_SIZE <= slot.number {
        return None;
    }
    Some(insn_at(prog, slot))
}

// What is behind the last whole slot. It holds no value; as a `bool` it would not say which of the two is which.
#[derive(Clone, Copy)]
pub enum Tail {
    Nothing,
    // Fewer than the eight bytes of a slot.
    Torn,
}

pub fn tail_of(prog: &[u8]) -> Tail
    ensures { result ≡ tail_of prog.now }
{
    if prog.len() % INSN_SIZE == 0 {
        return Tail::Nothing;
    }
    Tail::Torn
}
