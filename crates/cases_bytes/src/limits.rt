// How much a case may hold and how much is lent. One place more than the translator takes stands for every longer page and table.
use jit::LONGEST_PAGE;

// Bytes of code and entries of a table that are lent at most.
pub const PAGE: usize = LONGEST_PAGE + 1;

pub const TABLE: usize = 4096;

// Entries of a helper list, bytes of a program and bytes of a whole case, its four length bytes not counted.
pub const HELPERS: usize = 512;

pub const PROGRAM: usize = 32768;

pub const CASE: usize = 37 + 12 * HELPERS + PROGRAM;

// No answer is longer: 17 bytes in front, the page and five tables.
pub const ANSWER: usize = 17 + PAGE + 20 * TABLE;
