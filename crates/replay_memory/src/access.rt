// A load and a store at an address, in whichever of the two areas it lies. Each takes its cases by the size first, so that behind that the size
// is a constant: compiled, a size has two tests an area and one load or store.
ghost use Rattle.std.specs.Prelude.{◌≡◌, length};
ghost use Rattle.base.specs.declared.Size.TheVariants.{S8, S16, S32, S64};
ghost use Rattle.replay.specs.Memory.{place_of, size_bytes};
ghost use Rattle.replay_memory.specs.Access.{Areas};
ghost use Rattle.replay_memory.specs.AtPlace.{loaded_at, StoredAt};

use crate::load::load;
use crate::place::place_of;
use crate::store::store;
use base::Size;
use replay::Place;

fn bytes_of(z: Size) -> usize
    ensures { result ≡ size_bytes z }
{
    match z {
        Size::S8 => 1,
        Size::S16 => 2,
        Size::S32 => 4,
        Size::S64 => 8,
    }
}

fn load_sized(z: Size, packet: &[u8], stack: &[u8], address: u64) -> Option<u64>
    requires { Areas (length packet.now) (length stack.now) }
    ensures { result ≡ loaded_at z packet.now stack.now (place_of (length packet.now) address (size_bytes z)) }
{
    match place_of(packet.len(), address, bytes_of(z))? {
        Place::Packet(at) => Some(load(z, packet, at)),
        Place::Stack(at) => Some(load(z, stack, at)),
    }
}

// None where the access lies in neither area.
pub fn load_at(z: Size, packet: &[u8], stack: &[u8], address: u64) -> Option<u64>
    requires { Areas (length packet.now) (length stack.now) }
    ensures { result ≡ loaded_at z packet.now stack.now (place_of (length packet.now) address (size_bytes z)) }
{
    match z {
        Size::S8 => load_sized(Size::S8, packet, stack, address),
        Size::S16 => load_sized(Size::S16, packet, stack, address),
        Size::S32 => load_sized(Size::S32, packet, stack, address),
        Size::S64 => load_sized(Size::S64, packet, stack, address),
    }
}

fn store_sized(z: Size, packet: &mut [u8], stack: &mut [u8], address: u64, value: u64) -> bool
    requires { Areas (length packet.old) (length stack.old) }
    ensures { StoredAt z value packet stack (place_of (length packet.old) address (size_bytes z)) result }
{
    match place_of(packet.len(), address, bytes_of(z)) {
        Some(Place::Packet(at)) => {
            store(z, packet, at, value);
            true
        }
        Some(Place::Stack(at)) => {
            store(z, stack, at, value);
            true
        }
        None => false,
    }
}

// False where the access lies in neither area; both are then as they were.
pub fn store_at(z: Size, packet: &mut [u8], stack: &mut [u8], address: u64, value: u64) -> bool
    requires { Areas (length packet.old) (length stack.old) }
    ensures { StoredAt z value packet stack (place_of (length packet.old) address (size_bytes z)) result }
{
    match z {
        Size::S8 => store_sized(Size::S8, packet, stack, address, value),
        Size::S16 => store_sized(Size::S16, packet, stack, address, value),
        Size::S32 => store_sized(Size::S32, packet, stack, address, value),
        Size::S64 => store_sized(Size::S64, packet, stack, address, value),
    }
}
