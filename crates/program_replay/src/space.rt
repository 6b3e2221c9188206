// The room that a replay takes, all of it here: zeros, of which a caller has to know no more than how many.
ghost use Rattle.std.specs.Prelude.{◌≡◌, length};

use listing_options::filter::INPUT;
use pcap::LONGEST_PACKET;

// A window of the capture: the longest record fits many times.
pub const WINDOW: usize = 1048576;

// An entry for each slot that a filter can have, and one.
pub const TABLE: usize = jit::MOST_SLOTS + 1;

// The report: the lines of the totals, and for each slot a row, of which none is longer than 176 bytes.
pub const REPORT: usize = 176 * (jit::MOST_SLOTS + 2);

pub(crate) fn for_filter() -> [u8; INPUT]
    ensures { 16385 ≡ length result }
{
    [0; INPUT]
}

pub(crate) fn for_counts() -> [u64; TABLE]
    ensures { 2049 ≡ length result }
{
    [0; TABLE]
}

pub(crate) fn for_packet() -> [u8; LONGEST_PACKET]
    ensures { 65535 ≡ length result }
{
    [0; LONGEST_PACKET]
}

pub(crate) fn for_window() -> [u8; WINDOW]
    ensures { 1048576 ≡ length result }
{
    [0; WINDOW]
}

pub(crate) fn for_report() -> [u8; REPORT]
    ensures { 360800 ≡ length result }
{
    [0; REPORT]
}
