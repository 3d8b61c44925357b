// Reading a book's header: does it name this space, and what does it count? Every operation asks the first before all else about the pool.
ghost use Rattle.std.specs.Prelude.{◌≡◌, ◌<◌};
ghost use Rattle.word.specs.Memory.{memory, holds};
ghost use Rattle.pool.specs.Book as the;
ghost use Rattle.pool.specs.State as say;

use crate::layout::{ASIDE_AT, FREE_AT, HEAD_AT, PAGES_AT, ROOT_AT, SIGNATURE_AT, TICKETS_AT};
use crate::{Book, Reason, SIGNATURE, Space, adds_up, in_pool, room, run_of};

// Word i of the header, where the pool lies in the window: that was tested before, and the compiler leaves out the second test.
fn get(mem: &[u8], space: Space, i: u64) -> u64
    requires { i < 512 }
    ensures in_memory { the.room_of (holds mem.now space.origin) space.first space.pages ≡ Ok tt → result ≡ memory mem.now space.origin (the.word_of space i) }
    ensures for_any_bytes { result ≡ say.word_now mem.now space i }
{
    run_of(space).read(mem, space.first, i).unwrap_or(0)
}

// Is it the header of a book of so many pages, with that root?
fn headed(mem: &[u8], space: Space) -> Result<(), Reason>
    ensures { the.room_of (holds mem.now space.origin) space.first space.pages ≡ Ok tt → result ≡ the.headed_of (memory mem.now space.origin) space }
{
    if get(mem, space, SIGNATURE_AT) != SIGNATURE {
        return Err(Reason::NoBook);
    }
    if get(mem, space, PAGES_AT) != space.pages {
        return Err(Reason::OtherBook);
    }
    if get(mem, space, ROOT_AT) != space.root {
        return Err(Reason::BadRoot);
    }
    Ok(())
}

// Does the book there name this space? A caller that gives other pages, another root or another pool is refused by it.
pub fn names(mem: &[u8], space: Space) -> Result<(), Reason>
    ensures { result ≡ the.names_of (holds mem.now space.origin) (memory mem.now space.origin) space }
{
    room(mem, space.origin, space.first, space.pages)?;
    headed(mem, space)?;
    if in_pool(space, space.root) {
        return Ok(());
    }
    Err(Reason::BadRoot)
}

// The counts as they stand: for a space in which a page was found, whose book was asked before.
pub fn book_now(mem: &[u8], space: Space) -> Book
    ensures { result ≡ say.book_now mem.now space }
{
    Book {
        head: get(mem, space, HEAD_AT),
        free: get(mem, space, FREE_AT),
        aside: get(mem, space, ASIDE_AT),
        tickets: get(mem, space, TICKETS_AT),
    }
}

// The same, where they can be.
fn counts(mem: &[u8], space: Space) -> Result<Book, Reason>
    ensures { the.room_of (holds mem.now space.origin) space.first space.pages ≡ Ok tt → result ≡ the.counts_of (memory mem.now space.origin) space }
{
    let b = book_now(mem, space);
    if adds_up(space.pages, b) {
        return Ok(b);
    }
    Err(Reason::BadBook)
}

// The counts of the book that names this space: nobody else reads a header.
pub fn open(mem: &[u8], space: Space) -> Result<Book, Reason>
    ensures { result ≡ the.opened_of (holds mem.now space.origin) (memory mem.now space.origin) space }
{
    names(mem, space)?;
    counts(mem, space)
}
