// The window of the demonstration, the pool in it, and a copy that shows whether a byte of the window changed.
use pool::{Book, Space};
use std::io;

// The window begins at 1 MiB and has eight pages; the pool has all but the first and the last of them.
pub const ORIGIN: u64 = 0x10_0000;

pub const BYTES: usize = 32768;

pub const FIRST: u64 = 0x101;

pub const ROOT: u64 = 0x102;

pub const SPACE: Space = Space {
    origin: ORIGIN,
    first: FIRST,
    pages: 6,
    root: ROOT,
};

// The window's bytes of this moment.
pub fn copy(mem: &[u8]) -> [u8; BYTES] {
    let mut old = [0u8; BYTES];
    let n = mem.len().min(BYTES);
    old[..n].copy_from_slice(&mem[..n]);
    old
}

// What the book counts.
pub fn book(rt: &impl Print, mem: &[u8], space: Space) -> io::Result<()> {
    match pool::open(mem, space) {
        Ok(Book { free, aside, .. }) => println!(rt; " (free {free}, set aside {aside})"),
        Err(_) => println!(rt; " (no book)"),
    }
}
