// Operands: RFC 9669, sections 4.1 and 4.3. Whoever computes at a width cuts its operands to it first.
ghost use Rattle.std.specs.Prelude.{◌≡◌, ◌^◌, ◌<◌};
ghost use Rattle.base.specs.Widths.{bits};
ghost use Rattle.ebpf_meaning.specs.Values.{cut as Values·cut, immediate as Values·immediate};

use base::Width;

// The lower half at 32 bits.
pub fn cut(w: Width, x: u64) -> u64
    ensures { (result ≡ Values·cut w x) × (result < 2 ^ bits w) }
{
    match w {
        Width::W32 => x % 0x1_0000_0000,
        Width::W64 => x,
    }
}

// imm, extended to the width by its sign. No test: the number is moved up by half of its range, cut, and moved down again.
pub fn immediate(w: Width, imm: u32) -> u64
    ensures { (result ≡ Values·immediate w imm) × (result < 2 ^ bits w) }
{
    match w {
        Width::W32 => u64::from(imm),
        Width::W64 => { ((u64::from(imm) + 0x8000_0000) % 0x1_0000_0000).wrapping_sub(0x8000_0000) }
    }
}
