// A filter over a capture: whether it is run at all (decide), a packet's record (record), the records of a part of a capture (window), a capture
// that is lent whole (capture), and one packet by itself (packet). What is answered is said in replay's specs/Report.antt.

#![tactic(auto)]

use replay::Totals;

pub mod capture;
pub mod decide;
pub mod packet;
pub mod record;
pub mod totals;
pub mod window;

// What a part of a capture comes to: how many bytes of it were whole records, how many bytes the records of kept packets have, and the totals with
// its packets.
#[derive(Clone, Copy)]
pub struct Progress {
    pub used: usize,
    pub kept: usize,
    pub totals: Totals,
}

// What a capture comes to: the totals; or, where a record is bad, those of the packets before it.
#[derive(Clone, Copy)]
pub enum Report {
    Whole(Totals),
    Cut(Totals),
}
