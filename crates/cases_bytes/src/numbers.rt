// Numbers in a record, lowest byte first.
ghost use Rattle.std.specs.Prelude.{◌≡◌, [], ◌∷◌, ◌+◌, ◌≤◌, ◌<◌, ◌^◌, length};
ghost use Rattle.base.specs.Bytes.{le32};
ghost use Rattle.cases_bytes.specs.Lent.{number_at, wide_at, Put};

pub fn number_at(s: &[u8], at: usize) -> u32
    requires { at + 4 ≤ length s.now }
    ensures { result ≡ number_at s at }
{
    u32::from_le_bytes([s[at], s[at + 1], s[at + 2], s[at + 3]])
}

// The same as a number of things.
pub fn count_at(s: &[u8], at: usize) -> usize
    requires { at + 4 ≤ length s.now }
    ensures { (result ≡ number_at s at) × (result < 2 ^ 32) }
{
    number_at(s, at) as usize
}

pub fn address_at(s: &[u8], at: usize) -> u64
    requires { at + 8 ≤ length s.now }
    ensures { result ≡ wide_at s at }
{
    u64::from(number_at(s, at)) + 4294967296 * u64::from(number_at(s, at + 4))
}

// Puts a byte at a place, and answers the next place.
pub fn put_byte(out: &mut [u8], at: usize, x: u8) -> usize
    requires { at < length out.old }
    ensures { Put out at result (x ∷ []) }
{
    out[at] = x;
    at + 1
}

// Puts four bytes at a place, and answers the next place.
pub fn put_number(out: &mut [u8], at: usize, x: u32) -> usize
    requires { at + 4 ≤ length out.old }
    ensures { Put out at result (le32 x) }
{
    x86_emit::bytes::store4(out, at, x);
    at + 4
}
