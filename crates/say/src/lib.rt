// Counts and pages in words, for the programs of this repository.
#![tactic(auto)]

use entry::Bytes;
use std::fmt;

// How many of a thing: no table, 1 table, 2 tables.
#[derive(Clone, Copy)]
pub struct Count<'a>(pub u64, pub &'a str);

impl fmt::Display for Count<'_> {
    fn fmt<W: fmt::Write>(&self, f: &mut fmt::Formatter<W>) -> fmt::Result {
        let Count(n, thing) = self;
        match n {
            0 => write!(f, "no {thing}"),
            1 => write!(f, "1 {thing}"),
            _ => write!(f, "{n} {thing}s"),
        }
    }
}

// A page in physical memory: its size, and its frame.
#[derive(Clone, Copy)]
pub struct Page(pub u64, pub u64);

impl fmt::Display for Page {
    fn fmt<W: fmt::Write>(&self, f: &mut fmt::Formatter<W>) -> fmt::Result {
        let size = Bytes(self.0);
        let frame = self.1;
        write!(f, "{size} at frame {frame:#x}")
    }
}
