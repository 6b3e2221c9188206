// Whether a filter is run: the translator's own verdict, in standard mode and without flags, and then whether it has a slot that is not run.
ghost use Rattle.std.specs.Prelude.{◌≡◌, ◌≤◌, length};
ghost use Rattle.jit.specs.Limits.{most_slots};
ghost use Rattle.jit.specs.Translation.{translation_of};
ghost use Rattle.jit_translate.specs.Translated.{verdict_in};
ghost use Rattle.replay_capture.specs.Lent.{inputs_in, decided_of};
ghost use Rattle.replay_capture.specs.PassesLent.{PreparedFor};

use ebpf::kind::Opcodes;
use jit;
use jit::{Flags, MOST_SLOTS, Mode};
use jit_translate::translate;
use replay::Refusal;
use replay_slots::{all_modelled, code_slots};

// Whether the filter is translated, of which only the table of counts is lent, by its length.
fn translated(
    opcodes: &Opcodes,
    prog: &[u8],
    ids: &[u32],
    addresses: &[u64],
    page: usize,
    counts: usize,
) -> Result<(), jit::Refusal>
    ensures { result ≡ verdict_in (translation_of (inputs_in prog ids addresses page counts)) }
{
    let flags = Flags {
        use_mbuff: false,
        update_data_ptr: false,
    };
    let mode = Mode {
        standard: true,
        compact: false,
    };
    translate::decide_in(
        opcodes, prog, flags, mode, ids, addresses, page, counts, counts, counts, counts, counts,
    )
}

// Where the filter is run, `codes` is left as its table of codes.
pub fn prepare(
    prog: &[u8],
    ids: &[u32],
    addresses: &[u64],
    page: usize,
    counts: usize,
    codes: &mut [u8],
) -> Result<(), Refusal>
    requires { most_slots ≤ length codes.old }
    ensures { PreparedFor prog ids addresses page counts codes result }
{
    let opcodes = Opcodes::new();
    match translated(&opcodes, prog, ids, addresses, page, counts) {
        Err(refusal) => Err(Refusal::from(refusal)),
        Ok(()) => {
            code_slots(&opcodes, prog, codes);
            all_modelled(codes, prog)
        }
    }
}

// `page` and `counts` are the lengths of a code buffer and of the table of counts.
pub fn decide_replay(
    prog: &[u8],
    ids: &[u32],
    addresses: &[u64],
    page: usize,
    counts: usize,
) -> Result<(), Refusal>
    ensures { result ≡ decided_of prog ids addresses page counts }
{
    let mut codes = [0u8; MOST_SLOTS];
    prepare(prog, ids, addresses, page, counts, &mut codes)
}
