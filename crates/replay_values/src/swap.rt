// Byte swaps: RFC 9669, section 4.2, on a host whose byte order is little-endian.
ghost use Rattle.std.specs.Prelude.{◌≡◌, ◌^◌, ◌<◌, true};
ghost use Rattle.ebpf_meaning.specs.Values.{le_value, be_value};
ghost use Rattle.jit.specs.Translation.{swap_bits};

// For any width, so that a caller need not know that it is 16, 32 or 64.
pub fn le(width: u32, a: u64) -> u64
    ensures { result ≡ le_value width a }
{
    if width < 64 {
        return a % (1u64 << width);
    }
    a
}

// The lowest bytes turned round are the highest of all eight turned round.
pub fn be(width: u32, a: u64) -> u64
    requires { swap_bits width ≡ true }
    ensures { (result ≡ be_value width a) × (result < 2 ^ width) }
{
    a.swap_bytes() >> (64 - width)
}
