// The translator that also writes the page's map. It is `decide_mapped`, the translator's `decide` and whether the map has its addresses and its
// room, which writes nothing; and then `write_mapped`, the page and the map, which refuses nothing.
ghost use Rattle.std.specs.Prelude.{◌≡◌, ◌≤◌, leb, length, Ok};
ghost use Rattle.jit.specs.Lent.{filter_in};
ghost use Rattle.jit.specs.Passes.{WithinLimits};
ghost use Rattle.jit.specs.Room.{longest_prologue};
ghost use Rattle.jit_translate.specs.Translated.{Decided};
ghost use Rattle.jit_translate.specs.Lent.{sized, inputs, asked};
ghost use Rattle.jit_mapping.specs.Mapped.{map_of};
ghost use Rattle.jit_mapping.specs.Passes.{filter_at, Walked, Accepted as AcceptedWalk, code_length, text_length, is_low, Judging, fit_of, fit_in, Fitting};
ghost use Rattle.jit_mapping.specs.Lent.{Mapped};

use crate::measure::text_length;
use crate::write::write_map;
use crate::{Accepted, LONGEST_LINE, Refusal};
use base::Position;
use ebpf::kind::Opcodes;
use jit::{Flags, Mode};
use jit_measuring::measure;
use jit_translate::translate;

// The program and what its slots are read by, as the definition has them together (`Filter` of jit/specs/Translation.antt).
#[derive(Clone, Copy)]
struct Filter<'a> {
    program: &'a [u8],
    mode: Mode,
    ids: &'a [u32],
    addresses: &'a [u64],
}

// Of a program that is accepted; `start` is where the first slot's code begins.
fn code_length(opcodes: &Opcodes, filter: Filter, page: usize, start: Position) -> usize
    requires limits { WithinLimits filter.program filter.ids filter.addresses page start }
    requires walked { Walked (filter_at filter) page start }
    ensures { result ≡ code_length (filter_at filter.entry) page start }
{
    let measured = measure::measure(
        opcodes,
        filter.program,
        filter.mode,
        filter.ids,
        filter.addresses,
        page,
        start,
    );
    measured.unwrap().end.offset + jit::EPILOGUE_SIZE
}

// Whether every byte behind the code has an address. The code is no longer than the page, so that it is measured near the largest address alone.
fn is_low(opcodes: &Opcodes, filter: Filter, page: usize, start: Position, base: u64) -> bool
    requires limits { WithinLimits filter.program filter.ids filter.addresses page start }
    requires walked { Walked (filter_at filter) page start }
    ensures { result ≡ is_low (filter_at filter.entry) page start base }
{
    if base <= u64::MAX - page as u64 {
        return true;
    }
    let length = code_length(opcodes, filter, page, start);
    base <= u64::MAX - length as u64
}

// Whether the text has room. It is measured where there is less room than the longest lines would take.
fn has_room(
    opcodes: &Opcodes,
    filter: Filter,
    page: usize,
    start: Position,
    base: u64,
    room: usize,
) -> bool
    requires limits { WithinLimits filter.program filter.ids filter.addresses page start }
    requires accepted { AcceptedWalk (filter_at filter) page start base × (start.offset ≤ longest_prologue) }
    ensures { result ≡ leb (text_length (filter_at filter.entry) page start base) room }
{
    if LONGEST_LINE * (filter.program.len() / 8 + 2) <= room {
        return true;
    }
    let length = text_length(
        opcodes,
        filter.program,
        filter.mode,
        filter.ids,
        filter.addresses,
        page,
        start,
        base,
    );
    length <= room
}

// Whether the map fits, and if not, why; `page` and `room` are the lengths of the code buffer and of the text buffer.
fn judge_map(
    opcodes: &Opcodes,
    filter: Filter,
    flags: Flags,
    page: usize,
    base: u64,
    room: usize,
) -> Result<(), Refusal>
    requires { Judging (filter_at filter) flags page }
    ensures { result ≡ fit_of (filter_at filter.entry) flags page base room }
{
    let start = Position {
        offset: translate::prologue_size(flags),
    };
    if !is_low(opcodes, filter, page, start, base) {
        return Err(Refusal::BaseTooHigh);
    }
    if !has_room(opcodes, filter, page, start, base, room) {
        return Err(Refusal::TextTooShort);
    }
    Ok(())
}

// Whether `translate` accepts, and then whether there is a map; the lengths are those of what is lent. It writes nothing.
fn decide_mapped(
    opcodes: &Opcodes,
    filter: Filter,
    flags: Flags,
    page: usize,
    locations: usize,
    fields: usize,
    targets: usize,
    kinds: usize,
    makers: usize,
    base: u64,
    room: usize,
) -> Result<(), Refusal>
    ensures { result ≡ fit_in (map_of (sized (filter_at filter.entry) flags page locations fields targets kinds makers) base room) }
{
    translate::decide_in(
        opcodes,
        filter.program,
        flags,
        filter.mode,
        filter.ids,
        filter.addresses,
        page,
        locations,
        fields,
        targets,
        kinds,
        makers,
    )?;
    judge_map(opcodes, filter, flags, page, base, room)
}

// The page, the tables and the map of a program that is accepted, where the map fits.
fn write_mapped(
    opcodes: &Opcodes,
    prog: &[u8],
    flags: Flags,
    mode: Mode,
    ids: &[u32],
    addresses: &[u64],
    code: &mut [u8],
    locations: &mut [u32],
    fields: &mut [u32],
    targets: &mut [u32],
    kinds: &mut [u32],
    makers: &mut [u32],
    base: u64,
    text: &mut [u8],
) -> Accepted
    requires decided { Decided (inputs prog flags mode ids addresses code locations fields targets kinds makers) (Ok tt) }
    requires fitting { Fitting (filter_in prog mode ids addresses) flags code base text }
    ensures { Mapped (asked prog flags mode ids addresses code locations fields targets kinds makers) base
        code locations fields targets kinds makers text (Ok result) }
{
    let n = prog.len() / 8;
    let page = translate::write_page(
        opcodes, prog, flags, mode, ids, addresses, code, locations, fields, targets, kinds, makers,
    );
    let exit = page.length - jit::EPILOGUE_SIZE;
    let end = write_map(locations, n, exit, base, text);
    Accepted {
        length: page.length,
        jumps: page.jumps,
        text: end,
    }
}

// What `translate` leaves, and at the head of `text` the page's map, where the page lies at `base` (specs/Mapped.antt); refused, everything is
// as it was.
pub fn translate_mapped(
    prog: &[u8],
    flags: Flags,
    mode: Mode,
    ids: &[u32],
    addresses: &[u64],
    code: &mut [u8],
    locations: &mut [u32],
    fields: &mut [u32],
    targets: &mut [u32],
    kinds: &mut [u32],
    makers: &mut [u32],
    base: u64,
    text: &mut [u8],
) -> Result<Accepted, Refusal>
    ensures { Mapped (asked prog flags mode ids addresses code locations fields targets kinds makers) base
        code locations fields targets kinds makers text result }
{
    let opcodes = Opcodes::new();
    let filter = Filter {
        program: prog,
        mode,
        ids,
        addresses,
    };
    decide_mapped(
        &opcodes,
        filter,
        flags,
        code.len(),
        locations.len(),
        fields.len(),
        targets.len(),
        kinds.len(),
        makers.len(),
        base,
        text.len(),
    )?;
    Ok(write_mapped(
        &opcodes, prog, flags, mode, ids, addresses, code, locations, fields, targets, kinds,
        makers, base, text,
    ))
}
