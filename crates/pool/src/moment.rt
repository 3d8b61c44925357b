// The state of a pool: how many of its pages are what.
ghost use Rattle.std.specs.Prelude.{◌≡◌};
ghost use Rattle.word.specs.Memory.{memory, holds};
ghost use Rattle.pool.specs.Book as the;
ghost use Rattle.pool.specs.State as say;

use crate::{Book, Reason, Space, book_pages, open, ticket};

// How many pages a pool has, how many of them are free, set aside, and tables beside the root; and the ticket of the moment.
#[derive(Clone, Copy)]
pub struct Counts {
    pub pages: u64,
    pub free: u64,
    pub aside: u64,
    pub tables: u64,
    pub ticket: u64,
}

// What an opened book says of its pool.
fn counted(space: Space, b: Book) -> Counts
    requires { the.AddsUp space.pages b }
    ensures { result ≡ say.counted_of space b }
{
    Counts {
        pages: space.pages,
        free: b.free,
        aside: b.aside,
        tables: space.pages - book_pages(space.pages) - 1 - b.free - b.aside,
        ticket: ticket(b),
    }
}

// Opens the book and answers its counts; writes nothing.
pub fn state(mem: &[u8], space: Space) -> Result<Counts, Reason>
    ensures answer { result ≡ say.state_of (holds mem.now space.origin) (memory mem.now space.origin) space }
{
    let b = open(mem, space)?;
    Ok(counted(space, b))
}
