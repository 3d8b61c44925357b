// The operations in the demonstration's own pool, which each call would have to name; on pages that the correlator reads and writes, and runs nothing in.
use ask::SPACE;
use entry::Rights;
use plan::Asked;
use std::io;

const READ_WRITE: Rights = Rights {
    writable: true,
    user: true,
    noexec: true,
};

pub const READ_ONLY: Rights = Rights {
    writable: false,
    user: true,
    noexec: true,
};

// What no page may grant: to run what was written in it.
pub const WRITE_EXECUTE: Rights = Rights {
    writable: true,
    user: true,
    noexec: false,
};

pub fn page(size: u64, frame: u64, base: u64) -> Asked {
    Asked {
        base,
        frame,
        size,
        rights: READ_WRITE,
    }
}

pub fn create(rt: &impl Print, mem: &mut [u8]) -> io::Result<()> {
    ask::create(rt, mem, SPACE)
}

pub fn map(rt: &impl Print, mem: &mut [u8], q: Asked) -> io::Result<()> {
    ask::map(rt, mem, SPACE, q)
}

pub fn unmap(rt: &impl Print, mem: &mut [u8], base: u64) -> io::Result<()> {
    ask::unmap(rt, mem, SPACE, base)
}

pub fn protect(rt: &impl Print, mem: &mut [u8], base: u64, rights: Rights) -> io::Result<()> {
    ask::protect(rt, mem, SPACE, base, rights)
}

pub fn told(rt: &impl Print, mem: &mut [u8], ticket: u64) -> io::Result<()> {
    ask::told(rt, mem, SPACE, ticket)
}

pub fn look_up(rt: &impl Print, mem: &[u8], va: u64) -> io::Result<()> {
    ask::look_up(rt, mem, SPACE, va)
}
