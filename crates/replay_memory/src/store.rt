// A number put at a place of an area, byte by byte, lowest first, and cut to the size. Compiled, each size is one store.
ghost use Rattle.std.specs.Prelude.{◌≡◌, ◌+◌, ◌≤◌, length};
ghost use Rattle.replay.specs.Memory.{stored, size_bytes};

use base::Size;

pub fn store(z: Size, area: &mut [u8], at: usize, value: u64)
    requires { at + size_bytes z ≤ length area.old }
    ensures { area.new ≡ stored z area.old at value }
{
    match z {
        Size::S8 => area[at] = (value % 0x100) as u8,
        Size::S16 => {
            let low = (value % 0x1_0000) as u16;
            area[at..at + 2].copy_from_slice(&low.to_le_bytes());
        }
        Size::S32 => {
            let low = (value % 0x1_0000_0000) as u32;
            area[at..at + 4].copy_from_slice(&low.to_le_bytes());
        }
        Size::S64 => area[at..at + 8].copy_from_slice(&value.to_le_bytes()),
    }
}
