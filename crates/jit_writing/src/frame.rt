// The frame round the slots: the prologue, of three kinds, and the epilogue.
ghost use Rattle.std.specs.Prelude.{◌++◌, ◌+◌, ◌≤◌, ◌<◌, ◌^◌, length};
ghost use Rattle.x86.specs.Fill.{blanks};
ghost use Rattle.x86_emit.specs.Lent.{FitAll, Stores, Wrote};
ghost use Rattle.jit.specs.Frame.{saves, keep_packet, packet_start, packet_end, argument, enter, prologue, epilogue};
ghost use Rattle.jit_recording.specs.Lent.{Emits, Room, first};
ghost use Rattle.jit.specs.Room.{epilogue_size};

use base::{Position, Size, Slot, Width};
use ebpf::constants::STACK_SIZE;
use jit::Flags;
use jit_recording::emission::JumpTables;
use x86::{ADD, GROUP1, GROUP1_SUB, MOV, R8, R9, RBP, RCX, RDI, RDX, RSP};

// The program's stack, in bytes.
const STACK: u32 = STACK_SIZE as u32;

// A jump's bytes: the opcode, and where it goes.
const JMP_SIZE: u32 = 5;

// What the caller keeps, push rbp, rbx, r13, r14, r15, which is one word; and the packet's address, mov r10, rdx.
fn emit_saves(code: &mut [u8], at: Position) -> Position
    requires { FitAll code at (saves ++ keep_packet) }
    ensures { Wrote code at result (blanks (saves ++ keep_packet)) }
{
    x86_page::emit_words(code, at, 0x5741564155415355, 0xd28949, 3)
}

// The packet's address goes into the buffer, at RDI + R8.
fn emit_packet_start(code: &mut [u8], at: Position) -> Position
    requires { FitAll code at packet_start }
    ensures { Wrote code at result (blanks packet_start) }
{
    let added = x86_emit::alu::emit_alu(code, at, Width::W64, ADD, RDI, R8);
    x86_emit::memory::emit_store(code, added, Size::S64, RDX, R8, 0)
}

// .. and its end, at RDI + R9.
fn emit_packet_end(code: &mut [u8], at: Position) -> Position
    requires { FitAll code at packet_end }
    ensures { Wrote code at result (blanks packet_end) }
{
    let loaded = x86_emit::memory::emit_load(code, at, Size::S64, RDX, R8, 0);
    let ended = x86_emit::alu::emit_alu(code, loaded, Width::W64, ADD, RCX, R8);
    let placed = x86_emit::alu::emit_alu(code, ended, Width::W64, ADD, RDI, R9);
    x86_emit::memory::emit_store(code, placed, Size::S64, R8, R9, 0)
}

fn emit_argument(code: &mut [u8], at: Position, flags: Flags) -> Position
    requires { FitAll code at (argument flags) }
    ensures { Wrote code at result (blanks (argument flags)) }
{
    if flags.use_mbuff {
        if flags.update_data_ptr {
            let next = emit_packet_start(code, at);
            return emit_packet_end(code, next);
        }
        return at;
    }
    x86_emit::alu::emit_alu(code, at, Width::W64, MOV, RDX, RDI)
}

// r10, the stack, and a call over the jump to the exit: the program's last return comes back to that jump.
fn emit_enter(code: &mut [u8], at: Position, jumps: &mut JumpTables<'_>, n: Slot) -> Position
    requires { Room code at jumps enter × (n.number < 2 ^ 16) }
    ensures { Emits code at result jumps n enter }
{
    let based = x86_emit::alu::emit_alu(code, at, Width::W64, MOV, RSP, RBP);
    let stacked = x86_emit::alu::emit_alu_imm32(
        code,
        based,
        Width::W64,
        GROUP1,
        GROUP1_SUB,
        RSP,
        STACK,
    );
    let called = x86_emit::jump::emit_call(code, stacked, JMP_SIZE);
    let jumped = x86_emit::jump::emit_jmp(code, called, 0);
    jumps.record_jump(jumped, jit::ANCHOR, jit::PLAIN, n);
    jumped
}

// The jump is made by no slot: its maker is n, the number behind the last.
pub fn emit_prologue(code: &mut [u8], jumps: &mut JumpTables<'_>, flags: Flags, n: Slot) -> Position
    requires { Room code first jumps (prologue flags) × (n.number < 2 ^ 16) }
    ensures { Emits code first result jumps n (prologue flags) }
{
    let saved = emit_saves(code, Position { offset: 0 });
    let argued = emit_argument(code, saved, flags);
    emit_enter(code, argued, jumps, n)
}

// Sixteen bytes in two words, and none behind them: add rsp, 512; pop r15, r14, r13, rbx, rbp; ret.
pub fn emit_epilogue(code: &mut [u8], at: Position)
    requires { at.offset + epilogue_size ≤ length code.old }
    ensures { Stores code at.offset (blanks epilogue) }
{
    x86_page::emit_words(code, at, 0x4100000200c48148, 0xc35d5b5d415e415f, 8);
}
