// Refusals 6 to 14: the quick check first, and the measuring pass where it is not sure.
ghost use Rattle.std.specs.Prelude.{◌≡◌};
ghost use Rattle.jit.specs.Lent.{filter_of};
ghost use Rattle.jit.specs.Passes.{WithinLimits};
ghost use Rattle.jit_judging.specs.Lent.{verdict_of};

use base::{Position, Slot};
use ebpf::kind::Opcodes;
use jit::{Mode, Refusal};
use jit_measuring::fits::Fit;
use jit_measuring::{fits, measure};

// By measuring; the epilogue comes behind the slots, and the targets last.
fn judge_measured(
    opcodes: &Opcodes,
    prog: &[u8],
    mode: Mode,
    ids: &[u32],
    addresses: &[u64],
    page: usize,
    start: Position,
) -> Result<(), Refusal>
    requires { WithinLimits prog ids addresses page start }
    ensures { result ≡ verdict_of (filter_of prog mode ids addresses) page start }
{
    let measured = measure::measure(opcodes, prog, mode, ids, addresses, page, start)?;
    if page < measured.end.offset + jit::EPILOGUE_SIZE {
        return Err(Refusal::NoRoom(Slot {
            number: prog.len() / 8,
        }));
    }
    match measured.bad {
        Some(slot) => Err(Refusal::BadTarget(slot)),
        None => Ok(()),
    }
}

// `start` is where the first slot's code begins.
pub fn judge(
    opcodes: &Opcodes,
    prog: &[u8],
    mode: Mode,
    ids: &[u32],
    addresses: &[u64],
    page: usize,
    start: Position,
) -> Result<(), Refusal>
    requires { WithinLimits prog ids addresses page start }
    ensures { result ≡ verdict_of (filter_of prog mode ids addresses) page start }
{
    match fits::fits(opcodes, prog, mode, ids, addresses, page, start)? {
        Fit::Sure => Ok(()),
        Fit::Unsure => judge_measured(opcodes, prog, mode, ids, addresses, page, start),
    }
}
