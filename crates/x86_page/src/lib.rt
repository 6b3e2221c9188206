// The page that is lent, and the place of its next byte: the Rust's `JitMemory` and `emit_bytes!`. `emit_words` takes and gives plain
// values, so whoever calls it holds no memory.

#![tactic(auto)]

ghost use Rattle.std.specs.Prelude.{◌≡◌, ◌+◌, ◌≤◌, length};
ghost use Rattle.x86_page.specs.Emitted.{emitted};
ghost use Rattle.x86_emit.specs.Lent.{Fits};
ghost use Rattle.x86_page.specs.Lent.{StoresWords};

use base::Position;

#[derive(Drop)]
pub struct JitMemory<'a> {
    pub contents: &'a mut [u8],
    pub offset: Position,
}

impl<'a> JitMemory<'a> {
    // The borrow goes into the memory, beside the place of the next byte.
    pub fn new(contents: &'a mut [u8], offset: Position) -> JitMemory<'a>
        ensures { (result.contents ≡ contents.entry) × (result.offset ≡ offset) }
    {
        JitMemory { contents, offset }
    }

    // `emit_bytes!`: a whole word is stored, and the next byte goes behind the lowest `size` bytes of it.
    pub fn emit_bytes(&mut self, word: u64, size: usize)
        requires { (self.old.offset.offset + 8 ≤ length self.old.contents.now) × (size ≤ 8) }
        ensures { self.new ≡ emitted self.old word size }
    {
        let at = self.offset.offset;
        x86_emit::bytes::store8(self.contents, at, word);
        self.offset = Position { offset: at + size };
    }
}

// Eight bytes, and the lowest `size` bytes of a second word behind them; the answer is the place behind those.
pub fn emit_words(code: &mut [u8], at: Position, first: u64, second: u64, size: usize) -> Position
    requires { Fits code at × (size ≤ 8) }
    ensures { StoresWords code at result first second size }
{
    let mut mem = JitMemory::new(code, at);
    mem.emit_bytes(first, 8);
    mem.emit_bytes(second, size);
    mem.offset
}
