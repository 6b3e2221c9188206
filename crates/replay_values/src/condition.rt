// Conditions of jumps: RFC 9669, section 4.3.
ghost use Rattle.std.specs.Prelude.{◌≡◌, ◌-◌, ◌^◌};
ghost use Rattle.base.specs.Widths.{bits};
ghost use Rattle.ebpf_meaning.specs.Values.{met as Values·met, signed as Values·signed};

use crate::operand::cut;
use base::Width;
use ebpf::kind::Condition;

// Half of the range of a width.
pub fn half(w: Width) -> u64
    ensures { result ≡ 2 ^ (bits w - 1) }
{
    match w {
        Width::W32 => 0x8000_0000,
        Width::W64 => 0x8000_0000_0000_0000,
    }
}

// A signed number, moved up so that the order is that of unsigned ones.
pub fn signed(w: Width, a: u64) -> u64
    ensures { result ≡ Values·signed w a }
{
    cut(w, a.wrapping_add(half(w)))
}

#[tactic(auto, unfolding(ebpf_meaning::specs::Values::met))]
pub fn met(c: Condition, w: Width, a: u64, b: u64) -> bool
    ensures { result ≡ Values·met c w a b }
{
    match c {
        Condition::Jeq => a == b,
        Condition::Jgt => a > b,
        Condition::Jge => a >= b,
        Condition::Jset => (a & b) != 0,
        Condition::Jne => a != b,
        Condition::Jsgt => signed(w, a) > signed(w, b),
        Condition::Jsge => signed(w, a) >= signed(w, b),
        Condition::Jlt => a < b,
        Condition::Jle => a <= b,
        Condition::Jslt => signed(w, a) < signed(w, b),
        Condition::Jsle => signed(w, a) <= signed(w, b),
    }
}
