// The digits of a number, two at a time: how many there are, and they themselves, written where there is room for all of them.
ghost use Rattle.std.specs.Prelude.{◌≡◌, [], ◌∷◌, ◌+◌, ◌-◌, ◌*◌, ◌/◌, ◌%◌, ◌^◌, ◌≤◌, ◌<◌, length};
ghost use Rattle.text.specs.Numerals.{numeral, most_digits, decimal, hex, pairs};
ghost use Rattle.text.specs.Numerals.{glyph as Numerals·glyph};
ghost use Rattle.text.specs.Lent.{Says, HasRoom, Stands};

// As many as 64 bits can have in a base of 10 or more.
pub const MOST_DIGITS: usize = 20;

// The digits from 10 on are letters.
const LETTERS: u8 = b'a' - 10;

// Two characters for each number below 256: its digits in hexadecimal, the first in the lower byte.
const PAIRS: [u16; 256] = [
    0x3030, 0x3130, 0x3230, 0x3330, 0x3430, 0x3530, 0x3630, 0x3730, 0x3830, 0x3930, 0x6130, 0x6230,
    0x6330, 0x6430, 0x6530, 0x6630, 0x3031, 0x3131, 0x3231, 0x3331, 0x3431, 0x3531, 0x3631, 0x3731,
    0x3831, 0x3931, 0x6131, 0x6231, 0x6331, 0x6431, 0x6531, 0x6631, 0x3032, 0x3132, 0x3232, 0x3332,
    0x3432, 0x3532, 0x3632, 0x3732, 0x3832, 0x3932, 0x6132, 0x6232, 0x6332, 0x6432, 0x6532, 0x6632,
    0x3033, 0x3133, 0x3233, 0x3333, 0x3433, 0x3533, 0x3633, 0x3733, 0x3833, 0x3933, 0x6133, 0x6233,
    0x6333, 0x6433, 0x6533, 0x6633, 0x3034, 0x3134, 0x3234, 0x3334, 0x3434, 0x3534, 0x3634, 0x3734,
    0x3834, 0x3934, 0x6134, 0x6234, 0x6334, 0x6434, 0x6534, 0x6634, 0x3035, 0x3135, 0x3235, 0x3335,
    0x3435, 0x3535, 0x3635, 0x3735, 0x3835, 0x3935, 0x6135, 0x6235, 0x6335, 0x6435, 0x6535, 0x6635,
    0x3036, 0x3136, 0x3236, 0x3336, 0x3436, 0x3536, 0x3636, 0x3736, 0x3836, 0x3936, 0x6136, 0x6236,
    0x6336, 0x6436, 0x6536, 0x6636, 0x3037, 0x3137, 0x3237, 0x3337, 0x3437, 0x3537, 0x3637, 0x3737,
    0x3837, 0x3937, 0x6137, 0x6237, 0x6337, 0x6437, 0x6537, 0x6637, 0x3038, 0x3138, 0x3238, 0x3338,
    0x3438, 0x3538, 0x3638, 0x3738, 0x3838, 0x3938, 0x6138, 0x6238, 0x6338, 0x6438, 0x6538, 0x6638,
    0x3039, 0x3139, 0x3239, 0x3339, 0x3439, 0x3539, 0x3639, 0x3739, 0x3839, 0x3939, 0x6139, 0x6239,
    0x6339, 0x6439, 0x6539, 0x6639, 0x3061, 0x3161, 0x3261, 0x3361, 0x3461, 0x3561, 0x3661, 0x3761,
    0x3861, 0x3961, 0x6161, 0x6261, 0x6361, 0x6461, 0x6561, 0x6661, 0x3062, 0x3162, 0x3262, 0x3362,
    0x3462, 0x3562, 0x3662, 0x3762, 0x3862, 0x3962, 0x6162, 0x6262, 0x6362, 0x6462, 0x6562, 0x6662,
    0x3063, 0x3163, 0x3263, 0x3363, 0x3463, 0x3563, 0x3663, 0x3763, 0x3863, 0x3963, 0x6163, 0x6263,
    0x6363, 0x6463, 0x6563, 0x6663, 0x3064, 0x3164, 0x3264, 0x3364, 0x3464, 0x3564, 0x3664, 0x3764,
    0x3864, 0x3964, 0x6164, 0x6264, 0x6364, 0x6464, 0x6564, 0x6664, 0x3065, 0x3165, 0x3265, 0x3365,
    0x3465, 0x3565, 0x3665, 0x3765, 0x3865, 0x3965, 0x6165, 0x6265, 0x6365, 0x6465, 0x6565, 0x6665,
    0x3066, 0x3166, 0x3266, 0x3366, 0x3466, 0x3566, 0x3666, 0x3766, 0x3866, 0x3966, 0x6166, 0x6266,
    0x6366, 0x6466, 0x6566, 0x6666,
];

// That table, laid out: a constant array is laid out anew at each use, so that it is made once and lent.
#[derive(Drop)]
pub struct Pairs {
    table: [u16; 256],
    ghost whole: { table ≡ pairs },
}

// A number and the base that it is written in, where it has no more digits than may be.
#[derive(Clone, Copy)]
pub struct Numeral {
    pub base: u64,
    pub n: u64,
    ghost more: { 1 < base },
    ghost most: { base ≤ 16 },
    ghost short: { n < base ^ most_digits },
}

// A number of hexadecimal digits, and the largest number that has as many.
#[derive(Clone, Copy)]
pub struct Width {
    pub digits: usize,
    pub largest: u64,
    ghost some: { 0 < digits },
    ghost power: { largest + 1 ≡ 16 ^ digits },
}

pub fn glyph(d: u64) -> u8
    requires { d < 16 }
    ensures { result ≡ Numerals·glyph d }
{
    if d < 10 {
        return b'0' + d as u8;
    }
    LETTERS + d as u8
}

// How many in decimal and in hexadecimal.
pub fn count_decimal(n: u64) -> usize
    ensures { (result ≡ length (decimal n)) × (result ≤ most_digits) }
{
    Numeral { base: 10, n }.count()
}

pub fn count_hex(n: u64) -> usize
    ensures { (result ≡ length (hex n)) × (result ≤ most_digits) }
{
    Numeral { base: 16, n }.count()
}

impl Numeral {
    // How many digits it has; four are counted at a time.
    fn count(self) -> usize
        ensures { (result ≡ length (numeral self.base most_digits self.n)) × (result ≤ most_digits) }
    {
        let base = self.base;
        let square = base * base;
        let cube = square * base;
        let fourth = cube * base;
        let mut rest = self.n;
        let mut count = 0;
        while fourth <= rest {
            rest = rest / base / base / base / base;
            count += 4;
        }
        if rest < square {
            if rest < base {
                return count + 1;
            }
            return count + 2;
        }
        if rest < cube {
            return count + 3;
        }
        count + 4
    }
}

impl Pairs {
    pub fn new() -> Self {
        Pairs { table: PAIRS }
    }

    // A number of one digit: the second of two.
    fn put_single(&self, out: &mut [u8], at: usize, digit: u64)
        requires { (digit < 16) × HasRoom out at 1 }
        ensures { Stands out at (Numerals·glyph digit ∷ []) }
    {
        out[at] = (self.table[digit as usize] / 256) as u8;
    }

    // A number of two digits. It stands in the table where it would if it were hexadecimal.
    fn put_pair(&self, out: &mut [u8], at: usize, base: u64, both: u64)
        requires both { (1 < base) × ((base ≤ 16) × (both < base * base)) }
        requires has_room { HasRoom out at 2 }
        ensures { Stands out at (Numerals·glyph (both / base) ∷ Numerals·glyph (both % base) ∷ []) }
    {
        let pair = self.table[(both + (16 - base) * (both / base)) as usize];
        out[at] = (pair % 256) as u8;
        out[at + 1] = (pair / 256) as u8;
    }

    // The digits of a number, the last of them ahead of `end`.
    fn put_ending(&self, out: &mut [u8], end: usize, number: Numeral)
        requires { (length (numeral number.base most_digits number.n) ≤ end) × HasRoom out end 0 }
        ensures { Stands out (end - length (numeral number.base most_digits number.n)) (numeral number.base most_digits number.n) }
    {
        let base = number.base;
        let square = base * base;
        let mut rest = number.n;
        let mut left = end;
        while square <= rest {
            left -= 2;
            self.put_pair(out, left, base, rest % square);
            rest = rest / base / base;
        }
        if rest < base {
            self.put_single(out, left - 1, rest);
            return;
        }
        self.put_pair(out, left - 2, base, rest);
    }

    // The digits of a number from `at` on, where there is room for them.
    pub fn put_digits(&self, out: &mut [u8], at: usize, number: Numeral) -> usize
        requires { HasRoom out at (length (numeral number.base most_digits number.n)) }
        ensures { Says out at result (numeral number.base most_digits number.n) }
    {
        if number.n < number.base {
            self.put_single(out, at, number.n);
            return at + 1;
        }
        let end = at + number.count();
        self.put_ending(out, end, number);
        end
    }

    // In decimal and in hexadecimal, where there is room for the digits.
    pub fn put_decimal(&self, out: &mut [u8], at: usize, n: u64) -> usize
        requires { HasRoom out at (length (decimal n)) }
        ensures { Says out at result (decimal n) }
    {
        self.put_digits(out, at, Numeral { base: 10, n })
    }

    pub fn put_hex(&self, out: &mut [u8], at: usize, n: u64) -> usize
        requires { HasRoom out at (length (hex n)) }
        ensures { Says out at result (hex n) }
    {
        self.put_digits(out, at, Numeral { base: 16, n })
    }

    // In hexadecimal, where it is known how many digits there are.
    pub fn put_hex_counted(&self, out: &mut [u8], at: usize, digits: usize, n: u64) -> usize
        requires { (digits ≡ length (hex n)) × HasRoom out at digits }
        ensures { Says out at result (hex n) }
    {
        let end = at + digits;
        self.put_ending(out, end, Numeral { base: 16, n });
        end
    }
}

impl Width {
    pub fn one_digit() -> Self
        ensures { result.digits ≡ 1 }
    {
        Width {
            digits: 1,
            largest: 15,
        }
    }

    // The width of n, counted on from one that is no larger: of numbers that grow, most have as many digits as the one before.
    pub fn widen(self, n: u64) -> Self
        requires { self.digits ≤ length (hex n) }
        ensures { result.digits ≡ length (hex n) }
    {
        let mut digits = self.digits;
        let mut largest = self.largest;
        while largest < n {
            largest = largest * 16 + 15;
            digits += 1;
        }
        Width { digits, largest }
    }
}
