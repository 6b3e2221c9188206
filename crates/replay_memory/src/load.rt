// What stands at a place of an area: its bytes, lowest first, put together. Compiled, each size is one load.
ghost use Rattle.std.specs.Prelude.{◌≡◌, ◌+◌, ◌^◌, ◌<◌, ◌≤◌, length};
ghost use Rattle.replay.specs.Memory.{loaded, size_bytes};

use base::Size;

pub fn load(z: Size, area: &[u8], at: usize) -> u64
    requires { at + size_bytes z ≤ length area.now }
    ensures { (result ≡ loaded z area.now at) × (result < 256 ^ size_bytes z) }
{
    match z {
        Size::S8 => u64::from(area[at]),
        Size::S16 => u64::from(u16::from_le_bytes([area[at], area[at + 1]])),
        Size::S32 => u64::from(u32::from_le_bytes([
            area[at],
            area[at + 1],
            area[at + 2],
            area[at + 3],
        ])),
        Size::S64 => u64::from_le_bytes([
            area[at],
            area[at + 1],
            area[at + 2],
            area[at + 3],
            area[at + 4],
            area[at + 5],
            area[at + 6],
            area[at + 7],
        ]),
    }
}
