// Bytes of the page from a place on: one, and the numbers that two, four and eight of them make, the last two also by a width. Each answer
// holds the place behind what was read.
ghost use Rattle.std.specs.Prelude.{◌+◌, ◌<◌, ◌/◌, length, drop, MatchOption};
ghost use Rattle.std.specs.Array.{IsFirstChunk};
ghost use Rattle.base.specs.Widths.{bits};
ghost use Rattle.x86_encoding.specs.Lent.{Reads1, ReadsNumber};

use base::Width;

pub fn byte_at(code: &[u8], at: usize) -> Option<(u8, usize)>
    ensures { Reads1 code at result }
{
    let byte = code.get(at)?;
    Some((*byte, at + 1))
}

// The next N bytes, if there are so many.
fn bytes_at<const N: usize>(code: &[u8], at: usize) -> Option<&[u8; N]>
    ensures { MatchOption result (length code.now < at + N) (λ bytes. IsFirstChunk (drop at code.now) bytes.now N) }
{
    code.get(at..)?.first_chunk()
}

// The numbers of two bytes, four and eight: one function for the three would need a trait of its own, since std's `from_le_bytes` is a
// method of each type. Two bytes go into a number of 32 bits.
pub fn two_at(code: &[u8], at: usize) -> Option<(u32, usize)>
    ensures { ReadsNumber code at 2 result }
{
    let bytes = bytes_at(code, at)?;
    Some((u32::from(u16::from_le_bytes(*bytes)), at + 2))
}

pub fn four_at(code: &[u8], at: usize) -> Option<(u32, usize)>
    ensures { ReadsNumber code at 4 result }
{
    let bytes = bytes_at(code, at)?;
    Some((u32::from_le_bytes(*bytes), at + 4))
}

fn eight_at(code: &[u8], at: usize) -> Option<(u64, usize)>
    ensures { ReadsNumber code at 8 result }
{
    let bytes = bytes_at(code, at)?;
    Some((u64::from_le_bytes(*bytes), at + 8))
}

// Four bytes or eight, as the width says, in a number of 64 bits.
pub fn word_at(code: &[u8], at: usize, w: Width) -> Option<(u64, usize)>
    ensures { ReadsNumber code at (bits w / 8) result }
{
    match w {
        Width::W32 => {
            let (low, end) = four_at(code, at)?;
            Some((u64::from(low), end))
        },
        Width::W64 => eight_at(code, at),
    }
}
