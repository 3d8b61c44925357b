// What a walk through the tables finds: the page that an address means, for any bytes.
#![tactic(auto)]

ghost use Rattle.std.specs.Prelude.{◌≡◌, ◌<◌, ◌≤◌};
ghost use Rattle.word.specs.Memory.{memory, holds};
ghost use Rattle.walk.specs.Walk as the;

use entry::{Entry, Rights};

mod display;

// Half of all addresses: the lower half begins at 0, the upper so far below 2^64.
pub const HALF: u64 = 140737488355328;

// What a number means as an address: an answer of one of four kinds, none of which is an error of the call.
#[derive(Clone, Copy)]
pub enum Found {
    // the page's first address, its size, where it lies in physical memory, and the rights of the whole way
    Page {
        base: u64,
        size: u64,
        frame: u64,
        rights: Rights,
    },
    // an entry on the way says nothing, or has a reserved bit set
    Nothing,
    // the way leads to a table that does not lie in the window
    Outside,
    // the number is no address: it is not canonical
    NoAddress,
}

// A walk on its way: at the table in a page, with the rights so far; or at its end. Neither is a refusal, nor an end of a function: the laws of
// walks (walk, tables, tablepath) speak of both as the state that a walk is in between two reads.
#[derive(Clone, Copy)]
pub enum Place {
    Going(u64, Rights),
    Ended(Found),
}

// Which entry of a table of level n the address goes through.
pub fn index(n: u64, va: u64) -> u64
    ensures { (n < 4 → result ≡ the.index_of n va) × (4 ≤ n → result ≡ the.index_of 3 va) }
{
    va / entry::size(n) % 512
}

// Where the range that the entry covers begins.
fn base(n: u64, va: u64) -> u64
    requires { n < 4 }
    ensures { result ≡ the.base_of n va }
{
    let s = entry::size(n);
    va / s * s
}

// What comes of an entry of level n; r: the rights of the way to it.
fn enter(n: u64, va: u64, r: Rights, e: Entry) -> Place
    requires { n < 4 }
    ensures { result ≡ the.entered n va r e }
{
    match e {
        Entry::Nothing => Place::Ended(Found::Nothing),
        Entry::Page(f, g) => Place::Ended(Found::Page {
            base: base(n, va),
            size: entry::size(n),
            frame: f,
            rights: entry::both(r, g),
        }),
        Entry::Table(t, g) => Place::Going(t, entry::both(r, g)),
    }
}

// The walk reads its entry of the table in page t.
fn arrive(mem: &[u8], origin: u64, n: u64, va: u64, t: u64, r: Rights) -> Place
    requires { n < 4 }
    ensures { result ≡ the.step_of (holds mem.now origin) (memory mem.now origin) n va (the.going t r) }
{
    match word::read(mem, origin, t, index(n, va)) {
        Some(w) => enter(n, va, r, entry::decode(n, w)),
        None => Place::Ended(Found::Outside),
    }
}

// One step of a walk, at level n.
pub fn step(mem: &[u8], origin: u64, n: u64, va: u64, p: Place) -> Place
    ensures { (n < 4 → result ≡ the.step_of (holds mem.now origin) (memory mem.now origin) n va p) × (4 ≤ n → result ≡ p) }
{
    if 3 < n {
        return p;
    }
    match p {
        Place::Going(t, r) => arrive(mem, origin, n, va, t, r),
        Place::Ended(f) => Place::Ended(f),
    }
}

// Is the number an address? With half the range added, the two halves are one run from 0 on.
pub fn canonical(va: u64) -> bool
    ensures { result ≡ the.canonical va }
{
    std::num::wrapping_add_u64(va, HALF) < 2 * HALF
}

// Where a walk begins with this CR3.
pub fn begin(cr3: u64, va: u64) -> Place
    ensures { result ≡ the.start cr3 va }
{
    if canonical(va) {
        return Place::Going(
            entry::table(cr3),
            Rights {
                writable: true,
                user: true,
                noexec: false,
            },
        );
    }
    Place::Ended(Found::NoAddress)
}

// What a walk has found.
pub fn answer(p: Place) -> Found
    ensures { result ≡ the.found_of p }
{
    match p {
        Place::Going(_, _) => Found::Nothing,
        Place::Ended(f) => f,
    }
}

// What the address means with this CR3, for any bytes and any numbers.
pub fn look_up(mem: &[u8], origin: u64, cr3: u64, va: u64) -> Found
    ensures { result ≡ the.walk (holds mem.now origin) (memory mem.now origin) cr3 va }
{
    let mut p = begin(cr3, va);
    for n in (0..4).rev() {
        p = step(mem, origin, n, va, p);
    }
    answer(p)
}
