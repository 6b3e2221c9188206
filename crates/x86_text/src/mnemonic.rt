// The mnemonics, each with the space behind it.
ghost use Rattle.std.specs.Prelude.{◌≡◌};
ghost use Rattle.text.specs.Lent.{Says};
ghost use Rattle.x86_text.specs.Intel.{alu_name, shift_name, unary_name, cond_name, jump_name, mov_imm_name, load_name, mnemonic_text};

use base::{Size, Width};
use text::text::put_text;
use x86_instructions::{Alu, Cond, Instruction, Jump, Shift, Unary};

fn alu_name(o: Alu) -> &'static [u8]
    ensures { result.now ≡ alu_name o }
{
    match o {
        Alu::Add => b"add ",
        Alu::Or => b"or ",
        Alu::And => b"and ",
        Alu::Sub => b"sub ",
        Alu::Xor => b"xor ",
        Alu::Cmp => b"cmp ",
        Alu::Mov => b"mov ",
        Alu::Test => b"test ",
    }
}

fn shift_name(o: Shift) -> &'static [u8]
    ensures { result.now ≡ shift_name o }
{
    match o {
        Shift::Shl => b"shl ",
        Shift::Shr => b"shr ",
        Shift::Sar => b"sar ",
    }
}

fn unary_name(o: Unary) -> &'static [u8]
    ensures { result.now ≡ unary_name o }
{
    match o {
        Unary::Neg => b"neg ",
        Unary::Mul => b"mul ",
        Unary::Div => b"div ",
    }
}

fn cond_name(c: Cond) -> &'static [u8]
    ensures { result.now ≡ cond_name c }
{
    match c {
        Cond::Jb => b"jb ",
        Cond::Jae => b"jae ",
        Cond::Je => b"je ",
        Cond::Jne => b"jne ",
        Cond::Jbe => b"jbe ",
        Cond::Ja => b"ja ",
        Cond::Jl => b"jl ",
        Cond::Jge => b"jge ",
        Cond::Jle => b"jle ",
        Cond::Jg => b"jg ",
    }
}

fn jump_name(j: Jump) -> &'static [u8]
    ensures { result.now ≡ jump_name j }
{
    match j {
        Jump::Jmp => b"jmp ",
        Jump::Call => b"call ",
        Jump::Jcc(c) => cond_name(c),
    }
}

// B8+r: with eight bytes of constant it has a name of its own.
fn mov_imm_name(w: Width) -> &'static [u8]
    ensures { result.now ≡ mov_imm_name w }
{
    match w {
        Width::W32 => b"mov ",
        Width::W64 => b"movabs ",
    }
}

fn load_name(z: Size) -> &'static [u8]
    ensures { result.now ≡ load_name z }
{
    match z {
        Size::S8 | Size::S16 => b"movzx ",
        Size::S32 | Size::S64 => b"mov ",
    }
}

fn mnemonic(i: Instruction) -> &'static [u8]
    ensures { result.now ≡ mnemonic_text i }
{
    match i {
        Instruction::Push(_) => b"push ",
        Instruction::Pop(_) => b"pop ",
        Instruction::Alu(o, ..) | Instruction::AluImm(o, ..) => alu_name(o),
        Instruction::ShiftImm(o, ..) | Instruction::ShiftCl(o, ..) => shift_name(o),
        Instruction::Unary(o, ..) => unary_name(o),
        Instruction::MovImm(w, ..) => mov_imm_name(w),
        Instruction::Rol16(..) => b"rol ",
        Instruction::Bswap(..) => b"bswap ",
        Instruction::Load(z, ..) => load_name(z),
        Instruction::Store(..) | Instruction::StoreImm(..) => b"mov ",
        Instruction::Jump(j, _) => jump_name(j),
        Instruction::CallReg(_) => b"call ",
        Instruction::Ret => b"ret",
    }
}

pub fn put_mnemonic(out: &mut [u8], at: usize, i: Instruction) -> usize
    ensures { Says out at result (mnemonic_text i) }
{
    put_text(out, at, mnemonic(i))
}
