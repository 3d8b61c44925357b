// Where a book has what, by words: specs/Layout.antt says the same, and explains it. No number of these is written anywhere else.
// The header.
pub const SIGNATURE_AT: u64 = 0;

pub const PAGES_AT: u64 = 1;

pub const ROOT_AT: u64 = 2;

pub const TICKETS_AT: u64 = 3;

pub const FREE_AT: u64 = 4;

pub const ASIDE_AT: u64 = 5;

pub const HEAD_AT: u64 = 6;
// How many words it has. Behind them come the ring, a slot for each page of the pool, and then a count for each.
pub const HEADER: u64 = 16;
