// Making a pool: its book, and an empty root.
ghost use Rattle.std.specs.Prelude.{◌≡◌, ◌+◌, ◌^◌, ◌<◌, ◌≤◌, length};
ghost use Rattle.word.specs.Memory.{holds};
ghost use Rattle.word.specs.Writes.{Wrote};
ghost use Rattle.pool.specs.Create as made;

use crate::changes::put;
use crate::layout::{ASIDE_AT, FREE_AT, HEADER, PAGES_AT, ROOT_AT, SIGNATURE_AT, TICKETS_AT};
use crate::{Reason, SIGNATURE, Space, book_pages, room};

// May a pool be made there? The window's ends are page boundaries.
fn may_create(mem: &[u8], origin: u64, first: u64, pages: u64) -> Result<(), Reason>
    ensures { result ≡ made.may_create (length mem.now) (holds mem.now origin) origin first pages }
{
    if origin % 4096 != 0 {
        return Err(Reason::OriginUnaligned);
    }
    if mem.len() % 4096 != 0 {
        return Err(Reason::LengthUnaligned);
    }
    room(mem, origin, first, pages)
}

// Lists n pages from `from` on, in the first n slots. This loop and the two below stay three: over a closure for the word, each would need a
// ghost function and a clause that ties the closure to it, which is more than the loop.
fn fill(mem: &mut [u8], left: &mut u64, space: Space, from: u64, n: u64)
    requires { (from + n < 2 ^ 63) × (n < 2 ^ 63) }
    ensures { Wrote space.origin (made.fills space from n) left.old left.new mem.old mem.new }
{
    for j in 0..n {
        put(mem, left, space, HEADER + j, from + j);
    }
}

// n words from word k on become 0.
fn blank(mem: &mut [u8], left: &mut u64, space: Space, k: u64, n: u64)
    requires { k + n < 2 ^ 63 }
    ensures { Wrote space.origin (made.blanks space k n) left.old left.new mem.old mem.new }
{
    for j in 0..n {
        put(mem, left, space, k + j, 0);
    }
}

// n pages from page p on begin with 0, where a book would have its signature.
fn unmark(mem: &mut [u8], left: &mut u64, origin: u64, p: u64, n: u64)
    requires { p + n < 2 ^ 63 }
    ensures { Wrote origin (made.unmarks p n) left.old left.new mem.old mem.new }
{
    for j in 0..n {
        word::write(mem, left, origin, p + j, SIGNATURE_AT, 0);
    }
}

// No signature is left, here or in the n pages behind the root.
fn bare(mem: &mut [u8], left: &mut u64, space: Space, n: u64)
    requires { (space.root < 2 ^ 41) × (n ≤ 2 ^ 32) }
    ensures { Wrote space.origin (made.bared space n) left.old left.new mem.old mem.new }
{
    put(mem, left, space, SIGNATURE_AT, 0);
    unmark(mem, left, space.origin, space.root + 1, n);
}

// The first n slots list the pages behind the root; every other slot is 0, and every count.
fn put_slots(mem: &mut [u8], left: &mut u64, space: Space, n: u64)
    requires { (space.root < 2 ^ 41) × (space.pages ≤ 2 ^ 32) × (n ≤ space.pages) }
    ensures { Wrote space.origin (made.slots space n) left.old left.new mem.old mem.new }
{
    fill(mem, left, space, space.root + 1, n);
    blank(mem, left, space, HEADER + n, 2 * space.pages - n);
}

// All of the header but its signature: so many pages are free.
fn put_header(mem: &mut [u8], left: &mut u64, space: Space, free: u64)
    ensures { Wrote space.origin (made.header_writes space free) left.old left.new mem.old mem.new }
{
    put(mem, left, space, PAGES_AT, space.pages);
    put(mem, left, space, ROOT_AT, space.root);
    put(mem, left, space, TICKETS_AT, 0);
    put(mem, left, space, FREE_AT, free);
    blank(mem, left, space, ASIDE_AT, HEADER - ASIDE_AT);
}

// The book of a new pool, all of whose pages behind the root are free, and an empty root. The signature goes first and comes last: in between there
// is no book. No page that becomes free is left with the signature of an older one.
fn lay_out(mem: &mut [u8], left: &mut u64, space: Space)
    requires { made.Roomy space }
    ensures { Wrote space.origin (made.lay_out space) left.old left.new mem.old mem.new }
{
    let free = space.pages - book_pages(space.pages) - 1;
    bare(mem, left, space, free);
    put_slots(mem, left, space, free);
    put_header(mem, left, space, free);
    word::clear(mem, left, space.origin, space.root);
    put(mem, left, space, SIGNATURE_AT, SIGNATURE);
}

// Makes a pool of these pages, with its book and an empty root, or refuses and changes nothing.
pub fn create(
    mem: &mut [u8],
    left: &mut u64,
    origin: u64,
    first: u64,
    pages: u64,
) -> Result<u64, Reason>
    ensures answer { result ≡ made.created_of (length mem.old) (holds mem.old origin) origin first pages }
    ensures order { Wrote origin (made.create_writes (length mem.old) (holds mem.old origin) origin first pages) left.old left.new mem.old mem.new }
{
    may_create(mem, origin, first, pages)?;
    let root = first + book_pages(pages);
    let space = Space {
        origin,
        first,
        pages,
        root,
    };
    lay_out(mem, left, space);
    Ok(root)
}
