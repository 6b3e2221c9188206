// The fields of a slot for those who show it, whether its bytes are there or not: `ebpf_text` lists it,
// `refusals_text` says what is wrong.

#![tactic(auto)]

ghost use Rattle.std.specs.Prelude.{◌≡◌};
ghost use Rattle.ebpf_fields.specs.Fields.{fields_at};

use base::Slot;
use ebpf::insn::{Insn, get_insn};

// The slot's fields, all 0 where its bytes are not there.
pub fn fields_at(prog: &[u8], slot: usize) -> Insn
    ensures { result ≡ fields_at prog.now slot }
{
    match get_insn(prog, Slot { number: slot }) {
        Some(insn) => insn,
        None => Insn {
            opc: 0,
            dst: 0,
            src: 0,
            off: 0,
            imm: 0,
        },
    }
}
