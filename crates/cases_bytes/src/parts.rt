// A case taken apart.
ghost use Rattle.std.specs.Prelude.{◌≡◌, ◌+◌, ◌*◌, ◌≤◌, ◌<◌, length, IfOk, OnOk, OnErr};
ghost use Rattle.cases_bytes.specs.Cases.{lengths_end as Cases·lengths_end};
ghost use Rattle.base.specs.Lent.{read, seen};
ghost use Rattle.cases_bytes.specs.Cases.{program_at, ids_in, addresses_in};
ghost use Rattle.cases_bytes.specs.Lent.{length_of, lengths_end, case_of, wrong_with, further, parts_of, id_at, address_at, Filled, Inside};

use crate::{limits, numbers};
use cases_problems::Problem;
use jit::{Flags, Mode};

// What a case asks for, all lengths as it has them. The program is the rest of the body, from `program` on.
#[derive(Clone, Copy)]
pub struct Case {
    pub flags: Flags,
    pub mode: Mode,
    // The answer has the kinds and makers of the jumps too.
    pub named: bool,
    pub code: usize,
    pub locations: usize,
    pub fields: usize,
    pub targets: usize,
    pub kinds: usize,
    pub makers: usize,
    pub ids: usize,
    pub addresses: usize,
    pub program: usize,
}

// Where the lengths of the page and the tables end: bit 7 of the flags brings two more.
fn lengths_end(body: &[u8]) -> usize
    requires { 0 < length body.now }
    ensures { (result ≡ lengths_end body) × (result ≤ 25) }
{
    17 + 8 * usize::from(body[0] / 128)
}

// The parts have to fill the body, and the helpers to fit what is there for them.
fn checked(body: &[u8], most_ids: usize, most_addresses: usize) -> Result<(), Problem>
    ensures wrong { result ≡ wrong_with body most_ids most_addresses }
    ensures inside { OnOk result ((ids_in body.now ≤ most_ids) × ((addresses_in body.now ≤ most_addresses) × (program_at body.now ≤ length body.now))) }
{
    if body.is_empty() {
        return Err(Problem::Unfilled);
    }
    if 15 < body[0] % 128 {
        return Err(Problem::OtherFlags);
    }
    let end = lengths_end(body);
    if body.len() < end + 4 {
        return Err(Problem::Unfilled);
    }
    let ids = numbers::count_at(body, end);
    if most_ids < ids {
        return Err(Problem::ManyIds);
    }
    if body.len() < end + 8 + 4 * ids {
        return Err(Problem::Unfilled);
    }
    let addresses = numbers::count_at(body, end + 4 + 4 * ids);
    if most_addresses < addresses {
        return Err(Problem::ManyAddresses);
    }
    let program = end + 12 + 4 * ids + 8 * addresses;
    if body.len() < program {
        return Err(Problem::Unfilled);
    }
    let length = numbers::count_at(body, end + 8 + 4 * ids + 8 * addresses);
    if limits::PROGRAM < length {
        return Err(Problem::LongProgram);
    }
    if body.len() - program != length {
        return Err(Problem::Unfilled);
    }
    Ok(())
}

// The two stay twins: `Filled`, of which the clauses of `take_apart` speak, and `values` of base below it are of lists of numbers, and a
// generic slice is none.
fn read_ids(body: &[u8], at: usize, ids: &mut [u32])
    requires { at + 4 * length ids.old ≤ length body.now }
    ensures { Filled ids (id_at body at) (length_of (seen ids)) }
{
    for (k, id) in ids.iter_mut().enumerate() {
        *id = numbers::number_at(body, at + 4 * k);
    }
}

fn read_addresses(body: &[u8], at: usize, addresses: &mut [u64])
    requires { at + 8 * length addresses.old ≤ length body.now }
    ensures { Filled addresses (address_at body at) (length_of (seen addresses)) }
{
    for (k, address) in addresses.iter_mut().enumerate() {
        *address = numbers::address_at(body, at + 8 * k);
    }
}

// The length of a further table: the one at a place, or `unsaid` where bit 7 is not set.
fn further_length(body: &[u8], at: usize, unsaid: usize) -> usize
    requires { (at ≤ 21) × (Cases·lengths_end body.now ≤ length body.now) }
    ensures { result ≡ further body at unsaid }
{
    if body[0] / 128 == 1 {
        return numbers::count_at(body, at);
    }
    unsaid
}

fn parts_of(body: &[u8]) -> Case
    requires { program_at body.now ≤ length body.now }
    ensures { result ≡ parts_of body }
{
    let end = lengths_end(body);
    let ids = numbers::count_at(body, end);
    let addresses = numbers::count_at(body, end + 4 + 4 * ids);
    let program = end + 12 + 4 * ids + 8 * addresses;
    let unsaid = (body.len() - program) / 8 + 1;
    Case {
        flags: Flags {
            use_mbuff: body[0] % 2 == 1,
            update_data_ptr: body[0] / 2 % 2 == 1,
        },
        mode: Mode {
            standard: body[0] / 4 % 2 == 1,
            compact: body[0] / 8 % 2 == 1,
        },
        named: body[0] / 128 == 1,
        code: numbers::count_at(body, 1),
        locations: numbers::count_at(body, 5),
        fields: numbers::count_at(body, 9),
        targets: numbers::count_at(body, 13),
        kinds: further_length(body, 17, unsaid),
        makers: further_length(body, 21, unsaid),
        ids,
        addresses,
        program,
    }
}

// The case in a body, its helpers put at the start of `ids` and `addresses`, whose lengths are how many there may be.
pub fn take_apart(body: &[u8], ids: &mut [u32], addresses: &mut [u64]) -> Result<Case, Problem>
    ensures value { result ≡ case_of body ids addresses }
    ensures filled { IfOk result (λ case. Filled ids (id_at body (lengths_end body + 4)) case.ids) }
    ensures filled_2 { IfOk result (λ case. Filled addresses (address_at body (lengths_end body + 8 + 4 * case.ids)) case.addresses) }
    ensures unfilled { OnErr result ((ids.new ≡ ids.old) × (addresses.new ≡ addresses.old)) }
    ensures inside { IfOk result (λ case. Inside body.entry (read ids.exit) (read addresses.exit) case) }
{
    checked(body, ids.len(), addresses.len())?;
    let end = lengths_end(body);
    let case = parts_of(body);
    read_ids(body, end + 4, &mut ids[..case.ids]);
    read_addresses(
        body,
        end + 8 + 4 * case.ids,
        &mut addresses[..case.addresses],
    );
    Ok(case)
}
