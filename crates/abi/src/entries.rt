// One entry as the numbers that C gets, for whoever draws tables or looks for damage in them.
ghost use Rattle.std.specs.Prelude.{◌≡◌, ◌<◌};
ghost use Rattle.entry.specs.Entry.{bit, says};
ghost use Rattle.entry.specs.Words.{flag};
ghost use Rattle.abi.specs.Entries as the;

use crate::answers::rights_word;
use entry::Entry;

// What an entry says. Fields that say nothing are 0.
#[repr(C)]
#[derive(Clone, Copy, Default)]
pub struct Said {
    // 0: nothing, it is not present; 1: a page; 2: outside, there is no such entry in the window; 3: a table;
    // 4: nothing, though it is present: reserved bits are set
    pub kind: u64,
    // where the page, or the table that it names, lies in physical memory
    pub address: u64,
    // its own: bit 0 writable, bit 1 user, bit 2 not executable
    pub rights: u64,
    // the machine's: bit 0 accessed, bit 1 dirty, which a table's entry has not
    pub marks: u64,
}

// A kind that says all.
pub fn bare(kind: u64) -> Said
    ensures { result ≡ the.bare_of kind }
{
    Said {
        kind,
        ..Said::default()
    }
}

fn accessed(w: u64) -> u64
    ensures { (result ≡ flag (bit 5 w)) × (result < 2) }
{
    u64::from(w / 32 % 2 == 1)
}

fn dirty(w: u64) -> u64
    ensures { (result ≡ flag (bit 6 w)) × (result < 2) }
{
    u64::from(w / 64 % 2 == 1)
}

// A word that says nothing.
fn silent(w: u64) -> Said
    ensures { result ≡ the.silent_of w }
{
    if w % 2 == 0 {
        return bare(0);
    }
    bare(4)
}

// What the word says at level n: two numbers, so no From.
pub fn of_word(n: u64, w: u64) -> Said
    ensures { result ≡ the.said_of w (says n w) }
{
    match entry::decode(n, w) {
        Entry::Nothing => silent(w),
        Entry::Page(f, g) => Said {
            kind: 1,
            address: f,
            rights: rights_word(g),
            marks: accessed(w) + 2 * dirty(w),
        },
        Entry::Table(t, g) => Said {
            kind: 3,
            address: 4096 * t,
            rights: rights_word(g),
            marks: accessed(w),
        },
    }
}
