// Vectors from the manual and from document 01 of the source's description, run through the proved code; what they must give stands in `stdout`.
#![tactic(auto)]

use entry::Rights;
use std::io;

// rwx user
const ALL: Rights = Rights {
    writable: true,
    user: true,
    noexec: false,
};

// r-- kernel
const LEAST: Rights = Rights {
    writable: false,
    user: false,
    noexec: true,
};

// The edges of the two halves.
const EDGES: [u64; 5] = [
    0x7fffffffffff,
    0x800000000000,
    0xffff7fffffffffff,
    0xffff800000000000,
    0xffffffffffffffff,
];

// Words as they are found in memory.
const WORDS: [(&str, u64); 9] = [
    ("absent, every other bit set", 0xfffffffffffffffe),
    ("a plain entry", 0x1234007),
    ("bit 7: a page, a memory type, or reserved", 0x40000087),
    ("bit 13 of a large page is reserved", 0x40002087),
    ("bit 12 of a large page is a memory type's", 0x40001087),
    ("bit 21: address of 2 MiB, reserved of 1 GiB", 0x40200087),
    (
        "free bits 9 to 11 and 52 to 62, and the marks",
        0x7ff0000001234e65,
    ),
    ("every address bit", 0x000fffffffffffff),
    ("no-execute", 0x8000000000001001),
];

// The four indices of an address.
fn indices(rt: &impl Print, va: u64) -> io::Result<()> {
    let [i3, i2, i1, i0] = [3, 2, 1, 0].map(|n| walk::index(n, va));
    println!(rt; "{va:#x} goes through entries {i3}, {i2}, {i1}, {i0}")
}

// What a word says at each level, the root's first.
fn levels(rt: &impl Print, name: &str, w: u64) -> io::Result<()> {
    println!(rt; "{name}, {w:#x}")?;
    for n in (0..4).rev() {
        let e = entry::decode(n, w);
        println!(rt; "  level {n}: {e}")?;
    }
    Ok(())
}

fn made(rt: &impl Print, name: &str, word: Option<u64>) -> io::Result<()> {
    match word {
        Some(w) => println!(rt; "{name}: {w:#x}"),
        None => println!(rt; "{name}: refused"),
    }
}

// Words that we write.
fn pages(rt: &impl Print) -> io::Result<()> {
    for (name, n, frame, rights) in [
        ("4 KiB at 0x1234000, rwx user", 0, 0x1234000, ALL),
        ("2 MiB at 0x40000000, rwx user", 1, 0x40000000, ALL),
        ("1 GiB at 0x40000000, r-- kernel", 2, 0x40000000, LEAST),
        ("the last 4 KiB below 2^52", 0, 0xffffffffff000, ALL),
        ("4 KiB at 2^52", 0, 0x10000000000000, ALL),
        ("4 KiB at 0x1234800", 0, 0x1234800, ALL),
        ("2 MiB at 0x40001000", 1, 0x40001000, ALL),
        ("a page at the root's level", 3, 0, ALL),
    ] {
        made(rt, name, entry::page_word(n, frame, rights))?;
    }
    Ok(())
}

fn tables(rt: &impl Print) -> io::Result<()> {
    made(rt, "the table in page 0x1234", entry::table_word(0x1234))?;
    made(
        rt,
        "the table in page 2^40",
        entry::table_word(0x10000000000),
    )
}

// Other rights, with the marks and the free bits as they were.
fn changes(rt: &impl Print) -> io::Result<()> {
    let read_only = entry::with_rights(0x7ff0000001234e67, LEAST);
    println!(rt; "0x7ff0000001234e67 made r-- kernel: {read_only:#x}")?;
    let all = entry::with_rights(0x8000000001234061, ALL);
    println!(rt; "0x8000000001234061 made rwx user: {all:#x}")
}

// Is it an address, and which way does it go?
fn address(rt: &impl Print, va: u64) -> io::Result<()> {
    if walk::canonical(va) {
        return indices(rt, va);
    }
    println!(rt; "{va:#x} is no address")
}

fn main(rt: HostRuntime) -> io::Result<()> {
    indices(&rt, 0x7f1234567000)?;
    indices(&rt, 0)?;
    for va in EDGES {
        address(&rt, va)?;
    }
    for (name, w) in WORDS {
        levels(&rt, name, w)?;
    }
    pages(&rt)?;
    tables(&rt)?;
    changes(&rt)
}
