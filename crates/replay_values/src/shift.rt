// Shifts: RFC 9669, section 4.1. A count is its remainder by the width.
ghost use Rattle.std.specs.Prelude.{◌≡◌, ◌-◌, ◌%◌, ◌^◌, ◌<◌};
ghost use Rattle.base.specs.Pick.{pick};
ghost use Rattle.base.specs.Widths.{bits};
ghost use Rattle.ebpf_meaning.specs.Values.{shift_value, negative};

use crate::condition::half;
use crate::operand::cut;
use base::Width;
use ebpf::kind::ShiftOp;

pub fn count(w: Width, b: u64) -> u64
    ensures { (result ≡ b % bits w) × (result < bits w) }
{
    match w {
        Width::W32 => b % 32,
        Width::W64 => b % 64,
    }
}

// All ones.
pub fn ones(w: Width) -> u64
    ensures { result ≡ 2 ^ bits w - 1 }
{
    match w {
        Width::W32 => 0xffff_ffff,
        Width::W64 => 0xffff_ffff_ffff_ffff,
    }
}

// The ones that come in from above where a negative number is shifted right.
pub fn fill(w: Width, a: u64, by: u64) -> u64
    requires { by < bits w }
    ensures { result ≡ pick (negative w a) (2 ^ bits w - 2 ^ (bits w - by)) 0 }
{
    if a < half(w) {
        return 0;
    }
    let all = ones(w);
    all - (all >> by)
}

#[tactic(auto, unfolding(ebpf_meaning::specs::Values::shift_value))]
pub fn shift(op: ShiftOp, w: Width, a: u64, b: u64) -> u64
    requires { a < 2 ^ bits w }
    ensures { result ≡ shift_value op w a b }
{
    let by = count(w, b);
    match op {
        ShiftOp::Lsh => cut(w, a << by),
        ShiftOp::Rsh => a >> by,
        ShiftOp::Arsh => (a >> by) + fill(w, a, by),
    }
}
