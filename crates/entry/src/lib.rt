// Entries of page tables: what a word says at each level, and the words that we write.
#![tactic(auto)]

ghost use Rattle.std.specs.Prelude.{◌≡◌, ℕ, ◌<◌, ◌≤◌};
ghost use Rattle.entry.specs.Entry as the;
ghost use Rattle.entry.specs.Words as made;

mod display;

pub use display::Bytes;

// Frames end here: physical addresses have 52 bits.
pub const FRAME_END: u64 = 4503599627370496;

#[derive(Clone, Copy)]
pub struct Rights {
    pub writable: bool,
    pub user: bool,
    pub noexec: bool,
}

#[derive(Clone, Copy)]
pub enum Entry {
    Nothing,
    // the frame's address, and the entry's own rights
    Page(u64, Rights),
    // the number of the page that holds the table, and what the entry grants
    Table(u64, Rights),
}

// What one entry of level n covers; there are four levels. A level is a number: what is public takes any, and the few that ask for less get a
// numeral, or what was tested just before, with bounds of 2, 3 and 4.
pub fn size(n: u64) -> u64
    ensures { (n < 4 → result ≡ the.size_of n) × (0 < result) × (4 ≤ n → result ≡ the.size_of 3) }
{
    if n == 0 {
        return 4096;
    }
    if n == 1 {
        return 2097152;
    }
    if n == 2 {
        return 1073741824;
    }
    549755813888
}

// The number of the page that holds the table that a word names; of CR3, the root's.
pub fn table(w: u64) -> u64
    ensures { result ≡ the.table_of w }
{
    w / 4096 % word::PAGE_COUNT
}

pub fn granted(w: u64) -> Rights
    ensures { result ≡ the.rights_of w }
{
    Rights {
        writable: w / 2 % 2 == 1,
        user: w / 4 % 2 == 1,
        noexec: w / 9223372036854775808 % 2 == 1,
    }
}

pub fn both(a: Rights, b: Rights) -> Rights
    ensures { result ≡ the.both a b }
{
    Rights {
        writable: a.writable & b.writable,
        user: a.user & b.user,
        noexec: a.noexec | b.noexec,
    }
}

// The address bits of a page's word at level n.
fn frame(n: u64, w: u64) -> u64
    requires { n < 3 }
    ensures { result ≡ the.frame_of n w }
{
    let s = size(n);
    w / s % (FRAME_END / s) * s
}

// A present word above the last table whose bit 7 is 1.
fn large(n: u64, w: u64) -> Entry
    requires { 0 < n }
    ensures { result ≡ the.large_of n w }
{
    if 2 < n {
        return Entry::Nothing;
    }
    if w / 8192 % (size(n) / 8192) == 0 {
        return Entry::Page(frame(n, w), granted(w));
    }
    Entry::Nothing
}

// At the root a present word names a table, or says nothing where bit 7 is 1. Both bits are one test: one less than an odd word has its other
// bits as they were, and one less than an even word is odd.
fn at_root(w: u64) -> Entry
    ensures { (n : ℕ) → 2 < n → result ≡ the.says n w }
{
    if std::num::wrapping_sub_u64(w, 1) & 129 == 0 {
        return Entry::Table(table(w), granted(w));
    }
    Entry::Nothing
}

// What the word says at level n.
pub fn decode(n: u64, w: u64) -> Entry
    ensures { result ≡ the.says n w }
{
    if 2 < n {
        return at_root(w);
    }
    if w % 2 == 0 {
        return Entry::Nothing;
    }
    if n == 0 {
        return Entry::Page(frame(0, w), granted(w));
    }
    if w / 128 % 2 == 0 {
        return Entry::Table(table(w), granted(w));
    }
    large(n, w)
}

// Bit 7, in its place, as a page of level n has it.
fn large_flag(n: u64) -> u64
    ensures { (result ≡ made.large_flag n) × (result < 129) }
{
    if n == 0 {
        return 0;
    }
    128
}

// The word of a page at level n: none where the frame is not a page of that size below 2^52.
pub fn page_word(n: u64, frame: u64, r: Rights) -> Option<u64>
    ensures { result ≡ made.made_page n frame r }
{
    if 2 < n {
        return None;
    }
    if frame % size(n) != 0 {
        return None;
    }
    if FRAME_END <= frame {
        return None;
    }
    Some(
        1 + 2 * u64::from(r.writable)
            + 4 * u64::from(r.user)
            + large_flag(n)
            + frame
            + 9223372036854775808 * u64::from(r.noexec),
    )
}

// The word that names the table in page p, and grants everything.
pub fn table_word(p: u64) -> Option<u64>
    ensures { result ≡ made.made_table p }
{
    if word::PAGE_COUNT <= p {
        return None;
    }
    Some(4096 * p + 7)
}

// The word with other rights; every other bit stays, the machine's marks among them.
pub fn with_rights(w: u64, r: Rights) -> u64
    ensures { result ≡ made.with_rights w r }
{
    w % 2
        + 2 * u64::from(r.writable)
        + 4 * u64::from(r.user)
        + 8 * (w / 8 % 1152921504606846976)
        + 9223372036854775808 * u64::from(r.noexec)
}
