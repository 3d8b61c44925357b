// What is written to a book: pages that are taken, set aside and released.
ghost use Rattle.std.specs.Prelude.{◌≡◌, [], ◌∷◌};
ghost use Rattle.word.specs.Writes.{Wrote};
ghost use Rattle.pool.specs.Changes as to;
ghost use Rattle.pool.specs.Stands as stand;

use crate::layout::{ASIDE_AT, FREE_AT, HEAD_AT, HEADER, TICKETS_AT};
use crate::{Book, Space, adds_up, book_pages, run_of, slot};

// Sets word k of the book: one write of the budget. A page from 2^40 on lies in no window, so any such page will do.
pub fn put(mem: &mut [u8], left: &mut u64, space: Space, k: u64, w: u64)
    ensures { Wrote space.origin (to.put space k w ∷ []) left.old left.new mem.old mem.new }
{
    if word::PAGE_COUNT <= space.first {
        word::write(mem, left, space.origin, word::PAGE_COUNT, k % 512, w);
        return;
    }
    run_of(space).write_any(mem, left, space.first + k / 512, k % 512, w)
}

// The k oldest free pages were taken.
pub fn took(mem: &mut [u8], left: &mut u64, space: Space, book: Book, k: u64)
    ensures { Wrote space.origin (to.took_writes space book k) left.old left.new mem.old mem.new }
{
    if book.free < k {
        return;
    }
    if adds_up(space.pages, book) {
        put(mem, left, space, HEAD_AT, slot(space.pages, book.head, k));
        put(mem, left, space, FREE_AT, book.free - k);
    }
}

// Sets page p aside, behind all others, and answers the book after it.
pub fn set_aside(mem: &mut [u8], left: &mut u64, space: Space, book: Book, p: u64) -> Book
    ensures value { result ≡ to.aside_book space book }
    ensures wrote { Wrote space.origin (to.aside_writes space book p) left.old left.new mem.old mem.new }
{
    if adds_up(space.pages, book) {
        let at = slot(space.pages, book.head, book.free + book.aside);
        put(mem, left, space, HEADER + at, p);
        put(mem, left, space, ASIDE_AT, book.aside + 1);
        return Book {
            head: book.head,
            free: book.free,
            aside: book.aside + 1,
            tickets: book.tickets,
        };
    }
    book
}

// The k oldest pages set aside become free: the border moves, no slot is written.
pub fn release(mem: &mut [u8], left: &mut u64, space: Space, book: Book, k: u64)
    ensures { Wrote space.origin (to.release_writes space book k) left.old left.new mem.old mem.new }
{
    if book.aside < k {
        return;
    }
    if adds_up(space.pages, book) {
        put(mem, left, space, FREE_AT, book.free + k);
        put(mem, left, space, ASIDE_AT, book.aside - k);
        put(mem, left, space, TICKETS_AT, book.tickets + k);
    }
}

// Has the book room for n pages more to be set aside?
pub fn takes(space: Space, book: Book, n: u64) -> bool
    ensures { result ≡ stand.takes_of space book n }
{
    if adds_up(space.pages, book) {
        let most = space.pages - book_pages(space.pages) - 1;
        if most - book.free - book.aside < n {
            return false;
        }
        return true;
    }
    false
}
