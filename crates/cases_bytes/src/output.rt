// Output that stands in a buffer: what waits to be written in large pieces, and what is written at once.
ghost use Rattle.std.specs.Prelude.{◌≤◌, length, IfOk};

use streams::Reason;

// All that waits, on standard output; where it cannot be written, standard error says so in the words `complaint`.
pub fn flush(rt: &HostRuntime, waiting: &[u8], complaint: &[u8]) -> Result<(), Reason> {
    let written = streams::write(&streams::output(rt), waiting);
    if written.is_err() {
        streams::tell(rt, complaint);
    }
    written
}

// The first `at` bytes of the buffer wait: they are written where there are no `room` bytes behind them. The answer is how many wait then.
pub fn made_room(
    rt: &HostRuntime,
    out: &[u8],
    at: usize,
    room: usize,
    complaint: &[u8],
) -> Result<usize, Reason>
    requires { at ≤ length out.now }
    ensures { IfOk result (λ left. left ≤ length out.now) }
{
    if room <= out.len() - at {
        return Ok(at);
    }
    flush(rt, &out[..at], complaint)?;
    Ok(0)
}

// The first `length` bytes, on standard output; where there are not so many standard error says `complaint`, and where they cannot be written
// why.
pub fn write_first(rt: &HostRuntime, bytes: &[u8], length: usize, complaint: &[u8]) {
    if bytes.len() < length {
        streams::tell(rt, complaint);
        return;
    }
    if let Err(reason) = streams::write(&streams::output(rt), &bytes[..length]) {
        streams::fail(rt, b"standard output", reason);
    }
}
