// Walks through tables that were written by hand, entry by entry: pages of each size, and what the machine makes of damage.
#![tactic(auto)]

use entry::{Entry, Rights};
use std::io;
use walk::Place;

// The window begins at 1 MiB; its first page is the root.
const ORIGIN: u64 = 0x10_0000;

const ROOT: u64 = 0x10_0000;

const ALL: Rights = Rights {
    writable: true,
    user: true,
    noexec: false,
};

const DATA: Rights = Rights {
    writable: true,
    user: true,
    noexec: true,
};

// The addresses that are looked up, and what is found there: pages, and nothing.
const SHOWN: [(&str, u64); 9] = [
    ("a page of 4 KiB", 0x7f1234567abc),
    ("a page of 2 MiB", 0x7f1234612345),
    ("a page of 1 GiB", 0x7f1251234567),
    (
        "the same 4 KiB page by a way that is read-only",
        0x7f12b4567abc,
    ),
    ("a hole", 0x7f1234568000),
    ("a reserved bit", 0x7f1234800000),
    ("a way that leaves the window", 0x7f12c0000000),
    ("the upper half", 0xffffff1234567abc),
    ("no address at all", 0x800000000000),
];

// As in the demonstration, in two lines: what the programs share, `say`, has words only.
fn store(mem: &mut [u8], page: u64, index: u64, w: u64) {
    let mut left: u64 = word::ENDLESS;
    word::write(mem, &mut left, ORIGIN, page, index, w)
}

// Writes a word that was made, where it was not refused.
fn put(
    rt: &impl Print,
    mem: &mut [u8],
    page: u64,
    index: u64,
    made: Option<u64>,
) -> io::Result<()> {
    let Some(w) = made else {
        return println!(rt; "refused");
    };
    store(mem, page, index, w);
    Ok(())
}

// The way to 0x7f1234567000: four tables.
fn tables(rt: &impl Print, mem: &mut [u8]) -> io::Result<()> {
    put(rt, mem, 0x100, 254, entry::table_word(0x101))?;
    put(rt, mem, 0x101, 72, entry::table_word(0x102))?;
    put(rt, mem, 0x102, 418, entry::table_word(0x103))
}

// A page of 4 KiB there, and beside it one of 2 MiB and one of 1 GiB.
fn pages(rt: &impl Print, mem: &mut [u8]) -> io::Result<()> {
    put(rt, mem, 0x103, 359, entry::page_word(0, 0x1234000, ALL))?;
    put(rt, mem, 0x102, 419, entry::page_word(1, 0x40000000, DATA))?;
    put(rt, mem, 0x101, 73, entry::page_word(2, 0x80000000, DATA))
}

// What may go wrong: a table that grants less, a large page with a reserved bit, and a way that leaves the window.
fn damage(mem: &mut [u8]) {
    // a table that is read-only: its pages are, whatever they say themselves
    store(mem, 0x101, 74, 0x102005);
    // a 2 MiB page whose address has bit 13 set
    store(mem, 0x102, 420, 0x40002087);
    // a table at 0x900000, which nobody lent
    store(mem, 0x101, 75, 0x900007);
}

// What one entry of level n, whose word is w, says in words; and why, where that is nothing: told here alone.
fn tell(rt: &impl Print, n: u64, w: u64) -> io::Result<()> {
    let e = entry::decode(n, w);
    print!(rt; "{w:#x} says {e:#}")?;
    match e {
        Entry::Nothing if w % 2 == 0 => println!(rt; ": not present"),
        Entry::Nothing => println!(rt; ": a reserved bit is set"),
        _ => println!(rt),
    }
}

// The entry that the walk reads at level n of the table in page t.
fn tell_read(rt: &impl Print, mem: &[u8], n: u64, va: u64, t: u64) -> io::Result<()> {
    let i = walk::index(n, va);
    print!(rt; "  level {n}, entry {i} of page {t:#x}: ")?;
    match word::read(mem, ORIGIN, t, i) {
        Some(w) => tell(rt, n, w),
        None => println!(rt; "that page is outside the window"),
    }
}

// One step, told before it is taken.
fn step(rt: &impl Print, mem: &[u8], n: u64, va: u64, p: Place) -> io::Result<Place> {
    if let Place::Going(t, _) = p {
        tell_read(rt, mem, n, va, t)?;
    }
    Ok(walk::step(mem, ORIGIN, n, va, p))
}

fn show(rt: &impl Print, mem: &[u8], name: &str, va: u64) -> io::Result<()> {
    println!(rt; "{name}: {va:#x}")?;
    let mut p = walk::begin(ROOT, va);
    for n in (0..4).rev() {
        p = step(rt, mem, n, va, p)?;
    }
    println!(rt; "  so: {}", walk::answer(p))
}

fn main(rt: HostRuntime) -> io::Result<()> {
    println!(rt; "WALKS, ENTRY BY ENTRY")?;
    let mut mem = [0u8; 16384];
    tables(&rt, &mut mem)?;
    pages(&rt, &mut mem)?;
    damage(&mut mem);
    for (name, va) in SHOWN {
        show(&rt, &mem, name, va)?;
    }
    Ok(())
}
