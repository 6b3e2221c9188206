// Classic libpcap captures, read from bytes that nobody vouches for: the header of the file, and what stands at the head of the bytes behind it.

#![tactic(auto)]

ghost use Rattle.std.specs.Prelude.{◌≡◌, ◌+◌, ◌*◌, ◌≤◌, length};
ghost use Rattle.pcap.specs.Capture.{number_at, is_magic, header_of, record_of};

// The file's header and each record's, in bytes, and the longest packet that is taken, as specs/Capture.antt has them.
pub const HEADER: usize = 24;

pub const RECORD: usize = 16;

pub const LONGEST_PACKET: usize = 65535;

// Where the captured length stands in a record's header.
const CAPTURED: usize = 8;

// A file's first number, by what its times are in.
const MICROSECONDS: u32 = 0xa1b2c3d4;

const NANOSECONDS: u32 = 0xa1b23c4d;

// In which order the bytes of a number stand: lowest first, or highest first.
#[derive(Clone, Copy)]
pub enum Order {
    Little,
    Big,
}

// What stands at the head of the bytes behind a header: four answers, of which `End` is no refusal, so no Option or Result has them.
#[derive(Clone, Copy)]
pub enum Record {
    // Nothing.
    End,
    // A whole record, whose packet has so many captured bytes.
    Packet(usize),
    // A record of which not all bytes are there.
    Partial,
    // A record whose packet has more than LONGEST_PACKET bytes.
    TooLong,
}

fn number_at(order: Order, s: &[u8], at: usize) -> u32
    requires { at + 4 ≤ length s.now }
    ensures { result ≡ number_at order s.now at }
{
    let bytes = [s[at], s[at + 1], s[at + 2], s[at + 3]];
    match order {
        Order::Little => u32::from_le_bytes(bytes),
        Order::Big => u32::from_be_bytes(bytes),
    }
}

fn is_magic(x: u32) -> bool
    ensures { result ≡ is_magic x }
{
    matches!(x, MICROSECONDS | NANOSECONDS)
}

// In which order the numbers of a capture stand; none where the bytes are no capture.
pub fn header_of(file: &[u8]) -> Option<Order>
    ensures { result ≡ header_of file.now }
{
    if file.len() < HEADER {
        return None;
    }
    if is_magic(number_at(Order::Little, file, 0)) {
        return Some(Order::Little);
    }
    if is_magic(number_at(Order::Big, file, 0)) {
        return Some(Order::Big);
    }
    None
}

// What stands at the head of the bytes behind the header, or behind a packet.
pub fn record_of(order: Order, bytes: &[u8]) -> Record
    ensures { result ≡ record_of order bytes.now }
{
    if bytes.is_empty() {
        return Record::End;
    }
    if bytes.len() < RECORD {
        return Record::Partial;
    }
    let captured = number_at(order, bytes, CAPTURED) as usize;
    if LONGEST_PACKET < captured {
        return Record::TooLong;
    }
    if bytes.len() < RECORD + captured {
        return Record::Partial;
    }
    Record::Packet(captured)
}
