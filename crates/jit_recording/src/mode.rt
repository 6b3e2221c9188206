// What the mode changes, as the lengths and the handlers ask of it. Standard: where a move has its own width, and where the upper half of dst
// is cleared ahead of a modulo. Compact: which constants are loaded in four bytes.
ghost use Rattle.std.specs.Prelude.{◌≡◌, ◌^◌, ◌&&◌, nat_lt};
ghost use Rattle.jit.specs.Slots.{leaves_dst, clears, copy_width};

use base::Width;
use ebpf::kind::{MulOp, Source};
use jit::Mode;

// MOV by a register: the operation's width, or all 64 bits as in the Rust.
pub fn copy_width(mode: Mode, width: Width) -> Width
    ensures { result ≡ copy_width mode width }
{
    if mode.standard { width } else { Width::W64 }
}

// MOD at 32 bits, by a register, which may be zero, or by the immediate 0.
fn leaves_dst(op: MulOp, width: Width, source: Source, imm: u32) -> bool
    ensures { result ≡ leaves_dst op width source imm }
{
    match (op, width, source) {
        (MulOp::Mod, Width::W32, Source::Imm) => imm == 0,
        (MulOp::Mod, Width::W32, Source::Reg) => true,
        _ => false,
    }
}

pub fn clears(mode: Mode, op: MulOp, width: Width, source: Source, imm: u32) -> bool
    ensures { result ≡ clears mode op width source imm }
{
    mode.standard && leaves_dst(op, width, source, imm)
}

// A constant of 64 bits, and an immediate, which is extended by its sign.
pub fn is_low(mode: Mode, value: u64) -> bool
    ensures { result ≡ (mode.compact && nat_lt value (2 ^ 32)) }
{
    mode.compact && value < 0x1_0000_0000
}

pub fn is_low_imm(mode: Mode, imm: u32) -> bool
    ensures { result ≡ (mode.compact && nat_lt imm (2 ^ 31)) }
{
    mode.compact && imm < 0x8000_0000
}
