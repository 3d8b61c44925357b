// The book of a pool of pages, in the pool's own first pages: which pages are free, and which are set aside until every cache was told.
// The code knows no tables: what is taken, set aside and released is up to the caller. Its laws give each page a role (tables/specs/Roles):
// a book lists those that are free and those set aside, and all others are the book's, the root, or tables.
#![tactic(auto)]

ghost use Rattle.std.specs.Prelude.{◌≡◌, ◌+◌, ◌*◌, ◌/◌, ◌%◌, ◌^◌, ◌<◌, ◌≤◌, true};
ghost use Rattle.word.specs.Memory.{memory, holds};
ghost use Rattle.pool.specs.Book as the;
ghost use Rattle.pool.specs.Layout.{book_pages};

use word::Run;

mod bounds;
mod changes;
mod display;
mod header;
mod layout;
mod making;
mod moment;

use bounds::{book_by_half, book_of};
pub use bounds::{clear_page, entry, in_pool, set_entry};
pub use changes::{release, set_aside, takes, took};
pub use header::{book_now, names, open};
pub use layout::{FREE_AT, HEADER, TICKETS_AT};
pub use making::create;
pub use moment::{Counts, state};

// "the-book" in ASCII.
const SIGNATURE: u64 = 7741528751932270708;
// The most pages that a pool may have: 16 TiB of tables.
const MOST: u64 = 4294967296;
// Tickets end here; it takes a million releases a second for 146,000 years.
const LAST: u64 = 4611686018427387904;

// A window's origin, and the pool in it by page numbers: its first page, how many it has, and the page of the root table.
#[derive(Clone, Copy)]
pub struct Space {
    pub origin: u64,
    pub first: u64,
    pub pages: u64,
    pub root: u64,
}

// What a book's header counts.
#[derive(Clone, Copy)]
pub struct Book {
    pub head: u64,
    pub free: u64,
    pub aside: u64,
    pub tickets: u64,
}

// Why a window, a pool, a root or a book is refused.
#[derive(Clone, Copy, Debug, PartialEq, Eq)]
pub enum Reason {
    OriginUnaligned,
    LengthUnaligned,
    PoolLarge,
    PoolSmall,
    PoolOutside,
    // no page of the pool behind its book, or not the one that the book names
    BadRoot,
    // there is no signature
    NoBook,
    // the book of a pool of another size
    OtherBook,
    // its counts cannot be
    BadBook,
}

// Why a report releases nothing.
#[derive(Clone, Copy, Debug, PartialEq, Eq)]
pub enum NotDue {
    // a ticket above the present one
    Unknown,
    // no ticket is left
    Spent,
}

// How many pages the book of a pool has: its header, and two words for each page of the pool.
pub fn book_pages(pages: u64) -> u64
    ensures { result ≡ book_pages pages }
{
    pages / 256 + (HEADER + 2 * (pages % 256) + 511) / 512
}

// All pages of the pool.
fn run_of(space: Space) -> Run
    ensures { result ≡ record { origin = space.origin; first = space.first; kept = 0; pages = space.pages } }
{
    Run {
        origin: space.origin,
        first: space.first,
        kept: 0,
        pages: space.pages,
    }
}

// Does a pool of that many pages have room for a book, a root and a page more, and lie in the window?
fn room(mem: &[u8], origin: u64, first: u64, pages: u64) -> Result<(), Reason>
    ensures { result ≡ the.room_of (holds mem.now origin) first pages }
{
    if MOST < pages {
        return Err(Reason::PoolLarge);
    }
    if pages < book_of(pages) + 2 {
        return Err(Reason::PoolSmall);
    }
    let run = Run {
        origin,
        first,
        kept: 0,
        pages,
    };
    if run.spans(mem) {
        return Ok(());
    }
    Err(Reason::PoolOutside)
}

// Can a pool of that many pages have a book with these counts?
fn adds_up(pages: u64, b: Book) -> bool
    ensures { result ≡ the.adds_up_of pages b }
{
    if MOST < pages {
        return false;
    }
    if pages <= b.head {
        return false;
    }
    let used = book_by_half(pages);
    if pages <= used {
        return false;
    }
    let most = pages - used - 1;
    if most < b.free {
        return false;
    }
    if most - b.free < b.aside {
        return false;
    }
    b.tickets <= LAST
}

// The slot k positions behind the head, on the ring of slots.
fn slot(pages: u64, head: u64, k: u64) -> u64
    ensures { result ≡ the.slot_of pages head k }
{
    if pages <= head {
        return k;
    }
    if k < pages - head {
        return head + k;
    }
    k - (pages - head)
}

// The page that word k of the book names; none where that is no page for tables.
fn named(mem: &[u8], space: Space, k: u64) -> Option<u64>
    ensures { result ≡ the.named_of (holds mem.now space.origin) (memory mem.now space.origin) space k }
{
    if word::PAGE_COUNT <= space.first {
        return None;
    }
    let p = run_of(space).read_any(mem, space.first + k / 512, k % 512)?;
    usable(space, p)
}

// The page, where it can become a table.
fn usable(space: Space, p: u64) -> Option<u64>
    ensures { result ≡ the.usable_of space p }
{
    if p == space.root {
        return None;
    }
    if in_pool(space, p) {
        return Some(p);
    }
    None
}

// The free page at position k, from the oldest on.
pub fn free_page(mem: &[u8], space: Space, book: Book, k: u64) -> Option<u64>
    ensures { result ≡ the.listed_of (holds mem.now space.origin) (memory mem.now space.origin) space book k }
{
    if book.free <= k {
        return None;
    }
    if adds_up(space.pages, book) {
        return named(mem, space, HEADER + slot(space.pages, book.head, k));
    }
    None
}

// The ticket of this moment: every page set aside so far has a smaller number, every later one has not.
pub fn ticket(book: Book) -> u64
    ensures { result ≡ the.ticket_in book }
{
    std::num::wrapping_add_u64(book.tickets, book.aside)
}

// The ticket once so many pages more are set aside.
pub fn ticket_after(book: Book, more: u64) -> u64
    ensures { result ≡ the.ticket_after book more }
{
    std::num::wrapping_add_u64(ticket(book), more)
}

// How many of the oldest pages set aside a report of this ticket releases. A count in its place would be wrong where two reports overlap:
// the pages of the one would be counted for the other.
pub fn due_by(book: Book, ticket: u64) -> Result<u64, NotDue>
    ensures { result ≡ the.due_of book ticket }
{
    if ticket <= book.tickets {
        return Ok(0);
    }
    let k = ticket - book.tickets;
    if book.aside < k {
        return Err(NotDue::Unknown);
    }
    if LAST < ticket {
        return Err(NotDue::Spent);
    }
    Ok(k)
}
