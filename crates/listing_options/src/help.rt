// The lines of a program's help that explain the options: they are put into a lent buffer, and written to standard output. What they say of
// every program stands here once.
ghost use Rattle.text.specs.Lent.{Says, given};
ghost use Rattle.listing_options.specs.Help.{end_of, flags_help, page_help, helpers_help, options_help};

use crate::options::Program;
use jit::{LONGEST_PAGE, MOST_HELPERS, SHORTEST_PAGE};
use listing_arguments::SOME_ADDRESS;
use text::form::put_form;
use text::text::{put_byte, put_text};

// They are no longer.
pub const HELP: usize = 1024;

// The end of a line, which says more where the program is the listing.
fn put_end(out: &mut [u8], at: usize, program: Program, more: &[u8]) -> usize
    ensures { Says out at result (end_of program (given more)) }
{
    match program {
        Program::Listing => {
            let next = put_text(out, at, more);
            put_byte(out, next, b'\n')
        }
        Program::Map | Program::Maps | Program::Replay => put_byte(out, at, b'\n'),
    }
}

fn put_flags(out: &mut [u8], at: usize, program: Program) -> usize
    ensures { Says out at result (flags_help program) }
{
    let mbuff = put_text(out, at, b"  --mbuff              the flag use_mbuff\n");
    let update = put_text(
        out,
        mbuff,
        b"  --update-data-ptr    the flag update_data_ptr\n",
    );
    let standard = put_text(
        out,
        update,
        b"  --standard           standard mode: MOV32_REG, MOD32 by zero and LE as in RFC 9669, all else as in rbpf\n",
    );
    let compact = put_text(
        out,
        standard,
        b"  --compact            compact constants: 0 to 4294967295 in five or six bytes",
    );
    put_end(
        out,
        compact,
        program,
        b"; the last line says what that saves",
    )
}

pub fn put_page(out: &mut [u8], at: usize) -> usize
    ensures { Says out at result page_help }
{
    put_form(
        out,
        at,
        b"  --page N             a page of N bytes, # to # (# unless said)\n",
        &[
            SHORTEST_PAGE as u64,
            LONGEST_PAGE as u64,
            SHORTEST_PAGE as u64,
        ],
    )
}

pub fn put_helpers(out: &mut [u8], at: usize, program: Program) -> usize
    ensures { Says out at result (helpers_help program) }
{
    let id = put_form(
        out,
        at,
        b"  --helper ID          the filter may call helper ID; up to # times\n",
        &[MOST_HELPERS as u64],
    );
    let address = put_form(
        out,
        id,
        b"  --helper ID=ADDRESS  and the page calls it at ADDRESS (0x$ unless said)",
        &[SOME_ADDRESS],
    );
    put_end(
        out,
        address,
        program,
        b", which the listing shows where it is loaded",
    )
}

// A line for each option, at the start of `out`.
pub fn explain_options(rt: &HostRuntime, out: &mut [u8], program: Program) -> usize
    ensures { Says out 0 result (options_help program) }
{
    let flags = put_flags(out, 0, program);
    let page = put_page(out, flags);
    let helpers = put_helpers(out, page, program);
    let end = put_text(out, helpers, b"  --help               this text\n");
    if end <= out.len() {
        streams::show(rt, &out[..end]);
    }
    end
}
