// Arithmetic that wraps at the width: RFC 9669, section 4.1.
ghost use Rattle.std.specs.Prelude.{◌≡◌, ◌^◌, ◌<◌};
ghost use Rattle.base.specs.Widths.{bits};
ghost use Rattle.ebpf_meaning.specs.Values.{alu_value, neg_value};

use crate::operand::cut;
use base::Width;
use ebpf::kind::AluOp;

#[tactic(auto, unfolding(ebpf_meaning::specs::Values::alu_value))]
pub fn alu(op: AluOp, w: Width, a: u64, b: u64) -> u64
    requires { b < 2 ^ bits w }
    ensures { result ≡ alu_value op w a b }
{
    match op {
        AluOp::Add => cut(w, a.wrapping_add(b)),
        AluOp::Sub => cut(w, a.wrapping_sub(b)),
        AluOp::Or => a | b,
        AluOp::And => a & b,
        AluOp::Xor => a ^ b,
    }
}

#[tactic(auto, unfolding(ebpf_meaning::specs::Values::neg_value))]
pub fn neg(w: Width, a: u64) -> u64
    requires { a < 2 ^ bits w }
    ensures { result ≡ neg_value w a }
{
    cut(w, 0u64.wrapping_sub(a))
}
