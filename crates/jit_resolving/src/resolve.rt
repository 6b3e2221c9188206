// `resolve_jumps` of the Rust: each recorded field gets its value.
ghost use Rattle.std.specs.Prelude.{◌≡◌, ◌^◌, ◌<◌, ◌≤◌, length};
ghost use Rattle.jit_resolving.specs.Lent.{place_in, Inside, Resolves};

use base::{Position, Slot};

// Where a target lies: the exit, or its location, which is looked up among 0 to n.
fn location(locations: &[u32], n: Slot, exit: Position, target: u32) -> Position
    requires { (n.number < length locations.now) × (exit.offset < 2 ^ 32) }
    ensures { (result.offset ≡ place_in locations n exit target) × (result.offset < 2 ^ 32) }
{
    if target == jit::ANCHOR {
        return exit;
    }
    let number = target as usize;
    if number <= n.number {
        return Position {
            offset: locations[number] as usize,
        };
    }
    Position { offset: 0 }
}

// The field holds its location minus the field's end, modulo 2 ^ 32, low byte first.
pub fn resolve_jumps(
    code: &mut [u8],
    locations: &[u32],
    n: Slot,
    fields: &[u32],
    targets: &[u32],
    exit: Position,
    count: usize,
)
    requires number_in_bounds { (n.number < length locations.now) × ((exit.offset < 2 ^ 32) × ((count ≤ length fields.now) × (count ≤ length targets.now))) }
    requires inside { Inside code fields count }
    ensures { Resolves code (place_in locations n exit) fields targets count }
{
    for k in 0..count {
        let field = fields[k];
        let place = location(locations, n, exit, targets[k]);
        let to = place.offset as u32;
        let end = std::num::wrapping_add_u32(field, 4);
        x86_emit::bytes::store4(code, field as usize, std::num::wrapping_sub_u32(to, end));
    }
}
