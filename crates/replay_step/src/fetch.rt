// The fields of a slot whose eight bytes are there, each by itself: what a slot does not need is not read.
ghost use Rattle.std.specs.Prelude.{◌≡◌, ◌+◌, ◌*◌, ◌<◌, ◌≤◌, length};
ghost use Rattle.base.specs.declared.Width.TheVariants.{W64};
ghost use Rattle.ebpf.specs.Insn.{insn_at, le4};
ghost use Rattle.ebpf_meaning.specs.Values.{immediate};

use ebpf::insn::read_i32;

// Both registers of a slot.
#[derive(Clone, Copy)]
pub struct Registers {
    pub dst: usize,
    pub src: usize,
}

// How many numbers of 16 bits there are, and half of them.
const ALL: u64 = 0x1_0000;

const HALF: u64 = 0x8000;

#[tactic(auto, unfolding(ebpf::specs::Insn::insn_at))]
pub fn dst_of(prog: &[u8], slot: usize) -> usize
    requires { 8 * slot + 8 ≤ length prog.now }
    ensures { result ≡ (insn_at prog.now slot).dst }
{
    (prog[8 * slot + 1] % 16) as usize
}

#[tactic(auto, unfolding(ebpf::specs::Insn::insn_at))]
pub fn src_of(prog: &[u8], slot: usize) -> usize
    requires { 8 * slot + 8 ≤ length prog.now }
    ensures { result ≡ (insn_at prog.now slot).src }
{
    (prog[8 * slot + 1] / 16) as usize
}

// The two of one byte, which is widened before it is taken apart: LLVM then makes an index of dst without a step of eight bits.
#[tactic(auto, unfolding(ebpf::specs::Insn::insn_at))]
pub fn registers_of(prog: &[u8], slot: usize) -> Registers
    requires { 8 * slot + 8 ≤ length prog.now }
    ensures { (result.dst ≡ (insn_at prog.now slot).dst) × (result.src ≡ (insn_at prog.now slot).src) }
{
    let both = u64::from(prog[8 * slot + 1]);
    Registers {
        dst: (both % 16) as usize,
        src: (both / 16) as usize,
    }
}

#[tactic(auto, unfolding(ebpf::specs::Insn::insn_at))]
pub fn imm_of(prog: &[u8], slot: usize) -> u32
    requires { 8 * slot + 8 ≤ length prog.now }
    ensures { result ≡ (insn_at prog.now slot).imm }
{
    read_i32(prog, 8 * slot + 4)
}

// The offset as a number of 64 bits: moved up by half of its range, cut, and moved down again, of which LLVM makes one instruction.
pub fn off_of(prog: &[u8], slot: usize) -> u64
    requires { 8 * slot + 8 ≤ length prog.now }
    ensures { result ≡ immediate W64 (insn_at prog.now slot).off }
{
    let off = u16::from_le_bytes([prog[8 * slot + 2], prog[8 * slot + 3]]);
    ((u64::from(off) + HALF) % ALL).wrapping_sub(HALF)
}

// imm of the slot behind.
pub fn upper_of(prog: &[u8], slot: usize) -> u32
    requires { 8 * slot + 16 ≤ length prog.now }
    ensures { result ≡ le4 prog.now (8 * slot + 12) }
{
    read_i32(prog, 8 * slot + 12)
}
