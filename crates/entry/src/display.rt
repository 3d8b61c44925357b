// Sizes, rights and entries in words.
use crate::{Entry, Rights};
use std::fmt;

// A number of bytes, in the unit that a page of that size is named by.
#[derive(Clone, Copy)]
pub struct Bytes(pub u64);

impl fmt::Display for Bytes {
    fn fmt<W: fmt::Write>(&self, f: &mut fmt::Formatter<W>) -> fmt::Result {
        match self.0 {
            0x1000 => write!(f, "4 KiB"),
            0x20_0000 => write!(f, "2 MiB"),
            0x4000_0000 => write!(f, "1 GiB"),
            n => write!(f, "{n} bytes"),
        }
    }
}

// As a kernel developer reads them: rwx, and whose they are.
impl fmt::Display for Rights {
    fn fmt<W: fmt::Write>(&self, f: &mut fmt::Formatter<W>) -> fmt::Result {
        let w = if self.writable { 'w' } else { '-' };
        let x = if self.noexec { '-' } else { 'x' };
        let who = if self.user { "user" } else { "kernel" };
        write!(f, "r{w}{x} {who}")
    }
}

// What an entry says: in short, and by {:#} as a part of a sentence.
impl fmt::Display for Entry {
    fn fmt<W: fmt::Write>(&self, f: &mut fmt::Formatter<W>) -> fmt::Result {
        let (page, table, comma) = if f.alternate() {
            ("a page at", "a table in page", ",")
        } else {
            ("page", "table", "")
        };
        match self {
            Entry::Nothing => write!(f, "nothing"),
            Entry::Page(at, rights) => write!(f, "{page} {at:#x}{comma} {rights}"),
            Entry::Table(p, rights) => write!(f, "{table} {p:#x}{comma} {rights}"),
        }
    }
}
