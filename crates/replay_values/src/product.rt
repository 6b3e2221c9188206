// Multiplication, division and modulo: RFC 9669, section 4.1. Division and modulo are unsigned, and a zero divisor stops nothing.
ghost use Rattle.std.specs.Prelude.{◌≡◌, ◌/◌, ◌%◌, ◌==◌};
ghost use Rattle.base.specs.Pick.{pick};
ghost use Rattle.ebpf_meaning.specs.Values.{mul_value};

use crate::operand::cut;
use base::Width;
use ebpf::kind::MulOp;

pub fn quotient(a: u64, b: u64) -> u64
    ensures { result ≡ pick (b == 0) 0 (a / b) }
{
    if b == 0 {
        return 0;
    }
    a / b
}

pub fn remainder(a: u64, b: u64) -> u64
    ensures { result ≡ pick (b == 0) a (a % b) }
{
    if b == 0 {
        return a;
    }
    a % b
}

#[tactic(auto, unfolding(ebpf_meaning::specs::Values::mul_value))]
pub fn mul(op: MulOp, w: Width, a: u64, b: u64) -> u64
    ensures { result ≡ mul_value op w a b }
{
    match op {
        MulOp::Mul => cut(w, a.wrapping_mul(b)),
        MulOp::Div => quotient(a, b),
        MulOp::Mod => remainder(a, b),
    }
}
