// The bytes of the filter, from a file or from standard input. What cannot be read gets the system's reason on standard error.
ghost use Rattle.std.specs.Prelude.{◌≤◌, length, IfSome};

use cases_bytes::stream::fill;
use jit::LONGEST_PROGRAM;
use streams::Source;

// One byte more than a program may have: a longer one is refused for it, however long it is.
pub const INPUT: usize = LONGEST_PROGRAM + 1;

// What is open under that name, to its end, at the start of `input`: how many bytes.
fn read_whole(rt: &HostRuntime, name: &[u8], source: &Source, input: &mut [u8]) -> Option<usize>
    ensures { IfSome result (λ bytes. bytes ≤ length input.new) }
{
    match fill(source, input, 0, INPUT) {
        Ok(read) => Some(read.end),
        Err(reason) => {
            streams::fail(rt, name, reason);
            None
        }
    }
}

fn read_standard(rt: &HostRuntime, input: &mut [u8]) -> Option<usize>
    ensures { IfSome result (λ bytes. bytes ≤ length input.new) }
{
    read_whole(rt, b"standard input", &streams::input(rt), input)
}

// The file whose name is the argument `index`.
fn read_file(rt: &HostRuntime, index: usize, input: &mut [u8]) -> Option<usize>
    ensures { IfSome result (λ bytes. bytes ≤ length input.new) }
{
    let mut path = streams::word_room();
    let n = streams::word_or_empty(rt, index, &mut path);
    match streams::open(rt, &path[..n]) {
        Ok(file) => read_whole(rt, &path[..n], &file, input),
        Err(reason) => {
            streams::fail(rt, &path[..n], reason);
            None
        }
    }
}

// The filter in the file whose name is the argument `file`, or on standard input where that is 0: how many bytes it has, at the start of the
// buffer that is lent. Nothing where it cannot be read.
pub fn read_filter(rt: &HostRuntime, file: usize, input: &mut [u8]) -> Option<usize>
    ensures { IfSome result (λ bytes. bytes ≤ length input.new) }
{
    if file == 0 {
        return read_standard(rt, input);
    }
    read_file(rt, file, input)
}
