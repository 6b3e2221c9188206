// The register map of the Rust.
ghost use Rattle.std.specs.Prelude.{◌≡◌, ◌<◌};
ghost use Rattle.jit.specs.Slots.{reg_of};

use x86::{R8, R9, R13, R14, R15, RAX, RBP, RBX, RDI, RDX, RSI};

// Sixteen arms, one for each value of the field, make it a table in read-only memory: no test in front of it, nothing to lay out in a call.
// No caller asks for what is above 10.
pub fn map_register(r: u8) -> u8
    requires { r < 11 }
    ensures { (result ≡ reg_of r) × (result < 16) }
{
    match r % 16 {
        0 => RAX,
        1 => RDI,
        2 => RSI,
        3 => RDX,
        4 => R9,
        5 => R8,
        6 => RBX,
        7 => R13,
        8 => R14,
        9 => R15,
        10 => RBP,
        11 => RAX,
        12 => RAX,
        13 => RAX,
        14 => RAX,
        _ => RAX,
    }
}
