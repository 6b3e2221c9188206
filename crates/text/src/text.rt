// Text into a lent buffer. Each function writes from `at` on and answers the next place; what does not fit is cut.
ghost use Rattle.std.specs.Prelude.{[], ◌∷◌, ◌-◌, replicate};
ghost use Rattle.text.specs.Lent.{Says, given};

pub fn put_byte(out: &mut [u8], at: usize, x: u8) -> usize
    ensures { Says out at result (x ∷ []) }
{
    if at < out.len() {
        out[at] = x;
        return at + 1;
    }
    at
}

pub fn put_text(out: &mut [u8], at: usize, text: &[u8]) -> usize
    ensures { Says out at result (given text) }
{
    let mut next = at;
    for &x in text {
        next = put_byte(out, next, x);
    }
    next
}

// Spaces up to a column, which is a place in the buffer.
pub fn put_padding(out: &mut [u8], at: usize, column: usize) -> usize
    ensures { Says out at result (replicate (column - at) 0x20) }
{
    let mut next = at;
    for _ in at..column {
        next = put_byte(out, next, b' ');
    }
    next
}
