// The one function that a user calls: every program, mode, pair of flags, helper lists and set of lent buffers gets finished code or one refusal.
// It is `decide`, which writes nothing, and then `write_page`, which refuses nothing.
ghost use Rattle.std.specs.Prelude.{◌≡◌, ◌≤◌, Ok};
ghost use Rattle.x86.specs.Code.{size};
ghost use Rattle.jit.specs.Frame.{prologue};
ghost use Rattle.jit.specs.Room.{longest_prologue};
ghost use Rattle.jit.specs.Lent.{filter_of};
ghost use Rattle.jit_translate.specs.Translated.{Decided};
ghost use Rattle.jit_translate.specs.Lent.{sized, inputs, asked, Translated, Named};
ghost use Rattle.jit_translate.specs.HalvesLent.{Begun, Closing, Ended, inputs_by, asked_by};

use base::{Position, Slot};
use ebpf::kind::Opcodes;
use jit::{Flags, Mode, Refusal};
use jit_judging::{judge, sizes};
use jit_recording::emission::JumpTables;

// How many bytes of code there are, and entries in each jump table.
#[derive(Clone, Copy)]
pub struct Accepted {
    pub length: usize,
    pub jumps: usize,
}

pub fn prologue_size(flags: Flags) -> usize
    ensures { (result ≡ size (prologue flags)) × (result ≤ longest_prologue) }
{
    if flags.use_mbuff {
        if flags.update_data_ptr {
            return 49;
        }
        return 31;
    }
    34
}

// Whether the program is translated, and if not, why: `decide` below, by the opcode table, which `translate` lays out once for both halves.
pub fn decide_in(
    opcodes: &Opcodes,
    prog: &[u8],
    flags: Flags,
    mode: Mode,
    ids: &[u32],
    addresses: &[u64],
    page: usize,
    locations: usize,
    fields: usize,
    targets: usize,
    kinds: usize,
    makers: usize,
) -> Result<(), Refusal>
    ensures { Decided (sized (filter_of prog mode ids addresses) flags page locations fields targets kinds makers) result }
{
    let sized = sizes::sizes(
        prog.len(),
        page,
        locations,
        fields,
        targets,
        kinds,
        makers,
        ids,
        addresses.len(),
    );
    sized?;
    let start = Position {
        offset: prologue_size(flags),
    };
    judge::judge(opcodes, prog, mode, ids, addresses, page, start)
}

// The six numbers behind the helpers are the lengths of the code buffer and of the tables.
pub fn decide(
    prog: &[u8],
    flags: Flags,
    mode: Mode,
    ids: &[u32],
    addresses: &[u64],
    page: usize,
    locations: usize,
    fields: usize,
    targets: usize,
    kinds: usize,
    makers: usize,
) -> Result<(), Refusal>
    ensures { Decided (sized (filter_of prog mode ids addresses) flags page locations fields targets kinds makers) result }
{
    let opcodes = Opcodes::new();
    decide_in(
        &opcodes, prog, flags, mode, ids, addresses, page, locations, fields, targets, kinds,
        makers,
    )
}

// The prologue and the slots of a program that is accepted. The answer is where they end.
fn write_begin(
    opcodes: &Opcodes,
    prog: &[u8],
    flags: Flags,
    mode: Mode,
    ids: &[u32],
    addresses: &[u64],
    code: &mut [u8],
    locations: &mut [u32],
    jumps: &mut JumpTables<'_>,
) -> Position
    requires decided { Decided (inputs_by prog flags mode ids addresses code locations jumps) (Ok tt) × (jumps.old.count ≡ 0) }
    ensures { Begun (asked_by prog flags mode ids addresses code locations jumps) code locations jumps result }
{
    let page = code.len();
    let n = Slot {
        number: prog.len() / 8,
    };
    let start = jit_writing::frame::emit_prologue(code, jumps, flags, n);
    jit_writing::write::write_slots(
        opcodes, prog, mode, ids, addresses, page, start, code, locations, jumps,
    )
}

// The epilogue at `end`, location n, and the fields.
fn write_end(
    code: &mut [u8],
    locations: &mut [u32],
    fields: &[u32],
    targets: &[u32],
    n: Slot,
    end: Position,
    jumps: usize,
)
    requires { Closing code locations fields targets n end jumps }
    ensures { Ended code locations fields targets n end jumps }
{
    jit_writing::frame::emit_epilogue(code, end);
    let last = n.number;
    locations[last] = 0;
    jit_resolving::resolve::resolve_jumps(code, locations, n, fields, targets, end, jumps);
}

// The page and the tables of a program that is accepted.
pub fn write_page(
    opcodes: &Opcodes,
    prog: &[u8],
    flags: Flags,
    mode: Mode,
    ids: &[u32],
    addresses: &[u64],
    code: &mut [u8],
    locations: &mut [u32],
    fields: &mut [u32],
    targets: &mut [u32],
    kinds: &mut [u32],
    makers: &mut [u32],
) -> Accepted
    requires decided { Decided (inputs prog flags mode ids addresses code locations fields targets kinds makers) (Ok tt) }
    ensures translated { Translated (asked prog flags mode ids addresses code locations fields targets kinds makers) code locations fields targets (Ok result) }
    ensures named { Named (asked prog flags mode ids addresses code locations fields targets kinds makers) kinds makers }
{
    let n = Slot {
        number: prog.len() / 8,
    };
    let mut jumps = JumpTables {
        fields,
        targets,
        kinds,
        makers,
        count: 0,
    };
    let end = write_begin(
        opcodes, prog, flags, mode, ids, addresses, code, locations, &mut jumps,
    );
    // All four are named, so that the proof knows what each lender is left with.
    let JumpTables {
        fields,
        targets,
        kinds: _kinds,
        makers: _makers,
        count,
    } = jumps;
    write_end(code, locations, fields, targets, n, end, count);
    let length = end.offset + jit::EPILOGUE_SIZE;
    Accepted {
        length,
        jumps: count,
    }
}

// The answer and the contents at exit of what is lent are what `translation_of` gives on the contents at entry, and of the kinds and makers what
// `kinds_in` and `makers_in` do (specs/Translated.antt): accepted, the code and the tables' entries at the head, everything behind as it was;
// refused, everything as it was. What is lent is a parameter each, as C lends it to `ndakoleem_translate_4`.
pub fn translate(
    prog: &[u8],
    flags: Flags,
    mode: Mode,
    ids: &[u32],
    addresses: &[u64],
    code: &mut [u8],
    locations: &mut [u32],
    fields: &mut [u32],
    targets: &mut [u32],
    kinds: &mut [u32],
    makers: &mut [u32],
) -> Result<Accepted, Refusal>
    ensures translated { Translated (asked prog flags mode ids addresses code locations fields targets kinds makers) code locations fields targets result }
    ensures named { Named (asked prog flags mode ids addresses code locations fields targets kinds makers) kinds makers }
{
    let opcodes = Opcodes::new();
    decide_in(
        &opcodes,
        prog,
        flags,
        mode,
        ids,
        addresses,
        code.len(),
        locations.len(),
        fields.len(),
        targets.len(),
        kinds.len(),
        makers.len(),
    )?;
    Ok(write_page(
        &opcodes, prog, flags, mode, ids, addresses, code, locations, fields, targets, kinds,
        makers,
    ))
}
