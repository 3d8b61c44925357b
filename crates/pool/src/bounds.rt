// Where a pool lies, by as few comparisons as it takes: every operation asks for it.
ghost use Rattle.std.specs.Prelude.{◌≡◌, ◌+◌, ◌-◌, ◌^◌, ◌<◌, ◌≤◌};
ghost use Rattle.word.specs.Writes.{Wrote};
ghost use Rattle.pool.specs.Book as the;
ghost use Rattle.pool.specs.Layout.{book_pages};
ghost use Rattle.pool.specs.Stands as stand;

use crate::layout::HEADER;
use crate::{Space, book_pages};
use word::Run;

// How many pages the book of a pool has, where the pool's pages can be counted.
pub fn book_of(pages: u64) -> u64
    requires { pages ≤ 2 ^ 32 }
    ensures { result ≡ book_pages pages }
{
    (HEADER + 2 * pages + 511) / 512
}

// The same by half of what is divided: two forms, so that the compiler keeps neither number for the other's sake.
pub fn book_by_half(pages: u64) -> u64
    requires { pages ≤ 2 ^ 32 }
    ensures { result ≡ book_pages pages }
{
    (HEADER / 2 + pages + 255) / 256
}

// By one comparison, where the pool's numbers are those of one in a window: what `in_pool` tests first the compiler has seen before.
fn in_pool_by_one(space: Space, p: u64) -> bool
    requires { stand.Counted space }
    ensures { result ≡ the.in_pool space p }
{
    let book = book_of(space.pages);
    let behind = std::num::wrapping_sub_u64(p, space.first + book);
    if behind < space.pages - book {
        return true;
    }
    false
}

// By three, for any numbers.
fn in_pool_by_three(space: Space, p: u64) -> bool
    ensures { result ≡ the.in_pool space p }
{
    if p < space.first {
        return false;
    }
    let i = p - space.first;
    if i < book_pages(space.pages) {
        return false;
    }
    if space.pages <= i {
        return false;
    }
    true
}

// Is p a page of the pool, and not the book's? The tests are those of `room` and `spans`: where these were made before, the compiler
// leaves out the second ones, and one comparison is left.
pub fn in_pool(space: Space, p: u64) -> bool
    ensures { result ≡ the.in_pool space p }
{
    if 4294967296 < space.pages {
        return in_pool_by_three(space, p);
    }
    if space.pages < book_of(space.pages) + 2 {
        return in_pool_by_three(space, p);
    }
    if word::PAGE_COUNT - space.pages < space.first {
        return in_pool_by_three(space, p);
    }
    in_pool_by_one(space, p)
}

// The pool's pages, without those of its book.
fn behind_book(space: Space) -> Run
    requires { space.pages ≤ 2 ^ 32 }
    ensures { result ≡ record { origin = space.origin; first = space.first; kept = book_pages space.pages; pages = space.pages } }
{
    Run {
        origin: space.origin,
        first: space.first,
        kept: book_of(space.pages),
        pages: space.pages,
    }
}

// Entry i of page p, where the pool lies in the window and p is a page of it, and not the book's; else none.
pub fn entry(mem: &[u8], space: Space, p: u64, i: u64) -> Option<u64>
    ensures { result ≡ stand.read_entry_of mem.now space p i }
{
    if 4294967296 < space.pages {
        return None;
    }
    behind_book(space).read(mem, p, i)
}

// Sets entry i of page p, where the pool lies in the window and p is a page of it, and not the book's: one write of the budget; else no write.
pub fn set_entry(mem: &mut [u8], left: &mut u64, sp: Space, p: u64, i: u64, w: u64)
    ensures { Wrote sp.origin (stand.entry_writes mem.old sp p i w) left.old left.new mem.old mem.new }
{
    if 4294967296 < sp.pages {
        return;
    }
    behind_book(sp).write(mem, left, p, i, w)
}

// Clears page p, where the pool lies in the window and p is a page of it, and not the book's; else no write.
pub fn clear_page(mem: &mut [u8], left: &mut u64, sp: Space, p: u64)
    ensures { Wrote sp.origin (stand.clear_writes mem.old sp p) left.old left.new mem.old mem.new }
{
    if 4294967296 < sp.pages {
        return;
    }
    behind_book(sp).clear(mem, left, p)
}
