// The lines of the help that explain a replay's options, put into a lent buffer.
ghost use Rattle.text.specs.Lent.{Says};
ghost use Rattle.replay_options.specs.Help.{options_help};

use listing_options::help::{put_helpers, put_page};
use listing_options::options::Program;
use text::text::put_text;

// A line for each option, at the start of `out`.
pub fn put_options(out: &mut [u8]) -> usize
    ensures { Says out 0 result options_help }
{
    let page = put_page(out, 0);
    let helpers = put_helpers(out, page, Program::Replay);
    let write = put_text(
        out,
        helpers,
        b"  --write FILE         the kept packets, their records as they were, into FILE: a capture\n",
    );
    put_text(out, write, b"  --help               this text\n")
}
