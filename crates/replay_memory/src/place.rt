// The address of an access, and which of a run's two areas it lies in.
ghost use Rattle.std.specs.Prelude.{◌≡◌};
ghost use Rattle.replay.specs.Memory.{address_of, place_of};
ghost use Rattle.replay_memory.specs.Access.{Access};

use replay::{PACKET, Place, STACK, STACK_SIZE};
use std::num::{wrapping_add_u64, wrapping_sub_u64};

// How many numbers of 32 bits there are, and half of them: those from there on are the negative ones.
const ALL: u64 = 0x1_0000_0000;

const HALF: u64 = 0x8000_0000;

// `off` is two's complement. It is extended without a test: moved up by half of its range, cut, and moved down again.
pub fn address(register: u64, off: u32) -> u64
    ensures { result ≡ address_of register off }
{
    wrapping_add_u64(
        register,
        wrapping_sub_u64((u64::from(off) + HALF) % ALL, HALF),
    )
}

// How far behind the start of an area an address lies tells, modulo 2 ^ 64, also that it does not lie ahead of it. The areas lie apart, so what
// begins in the packet and ends behind it lies in neither.
pub fn place_of(packet: usize, address: u64, size: usize) -> Option<Place>
    requires { Access packet size }
    ensures { result ≡ place_of packet address size }
{
    let in_packet = wrapping_sub_u64(address, PACKET) as usize;
    if in_packet < packet {
        if size <= packet - in_packet {
            return Some(Place::Packet(in_packet));
        }
        return None;
    }
    let in_stack = wrapping_sub_u64(address, STACK) as usize;
    if in_stack <= STACK_SIZE - size {
        return Some(Place::Stack(in_stack));
    }
    None
}
