// Unmap: the page's entry is cleared first; then each table that became empty is unlinked, bottom up, and set aside.
ghost use Rattle.std.specs.Prelude.{◌≡◌, ◌+◌, ◌-◌, ◌<◌, ◌≤◌, true};
ghost use Rattle.word.specs.Memory.{memory, holds};
ghost use Rattle.word.specs.Writes.{Wrote};
ghost use Rattle.walk.specs.Walk.{index_of};
ghost use Rattle.plan.specs.Unmap as the;

use crate::Reason;
use crate::descent::Way;
use crate::finding::{PageEntry, find};
use pool::{Book, Space};

// The page that goes, how many tables become empty with it, and the book that takes them.
#[derive(Clone, Copy)]
pub struct Removal {
    pub page: PageEntry,
    pub empties: u64,
    pub book: Book,
}

// How many tables become empty, from the one of the page's entry up; the root stays.
fn emptied(mem: &[u8], origin: u64, va: u64, i: u64, w: Way) -> u64
    ensures { i ≡ index_of w.level va → result ≡ the.emptied_of (holds mem.now origin) (memory mem.now origin) va w }
{
    if 3 <= w.level {
        return 0;
    }
    if word::besides(mem, origin, w.a, i) {
        return 0;
    }
    if 2 <= w.level {
        return 1;
    }
    if word::besides(mem, origin, w.b, walk::index(w.level + 1, va)) {
        return 1;
    }
    if 1 <= w.level {
        return 2;
    }
    if word::besides(mem, origin, w.c, walk::index(2, va)) {
        return 2;
    }
    3
}

// The book has room for the tables that become empty.
fn booked(space: Space, s: PageEntry, n: u64, b: Book) -> Result<Removal, Reason>
    ensures { result ≡ the.booked_of space s n b }
{
    if pool::takes(space, b, n) {
        return Ok(Removal {
            page: s,
            empties: n,
            book: b,
        });
    }
    Err(Reason::Pool(pool::Reason::BadBook))
}

// A book is needed only where a table becomes empty.
fn remove(mem: &[u8], space: Space, s: PageEntry, n: u64) -> Result<Removal, Reason>
    ensures { result ≡ the.remove_of (holds mem.now space.origin) (memory mem.now space.origin) space s n }
{
    if n == 0 {
        return Ok(Removal {
            page: s,
            empties: 0,
            book: Book {
                head: 0,
                free: 0,
                aside: 0,
                tickets: 0,
            },
        });
    }
    // A copy, so that the space itself need not lie in memory where no book is needed.
    let sp = space;
    let b = pool::open(mem, sp)?;
    booked(space, s, n, b)
}

// What unmap would write.
fn decide_unmap(mem: &[u8], space: Space, va: u64) -> Result<Removal, Reason>
    ensures { result ≡ the.decide_of (holds mem.now space.origin) (memory mem.now space.origin) space va }
{
    let p = find(mem, space, va)?;
    let n = emptied(mem, space.origin, va, p.index, p.way);
    remove(mem, space, p, n)
}

// Where k is below n, the table `child` is the k-th that became empty: its entry in its parent, of level l, is cleared, and it is set aside.
fn cut(
    mem: &mut [u8],
    left: &mut u64,
    space: Space,
    va: u64,
    k: u64,
    n: u64,
    parent: u64,
    l: u64,
    child: u64,
    b: Book,
) -> Book
    requires { k < n → l < 4 }
    ensures value { result ≡ the.cut_book space k n b }
    ensures wrote { Wrote space.origin (the.cut_writes space k n parent (index_of l va) child b) left.old left.new mem.old mem.new }
{
    if n <= k {
        return b;
    }
    word::write(mem, left, space.origin, parent, walk::index(l, va), 0);
    pool::set_aside(mem, left, space, b, child)
}

fn carry_unmap(mem: &mut [u8], left: &mut u64, space: Space, va: u64, r: Removal)
    requires { (the.low r) × (r.page.index ≡ index_of r.page.way.level va) }
    ensures { Wrote space.origin (the.writes_of space va r) left.old left.new mem.old mem.new }
{
    let s = r.page;
    let w = s.way;
    let n = r.empties;
    let l = w.level;
    let b0 = r.book;
    word::write(mem, left, space.origin, w.a, s.index, 0);
    if n == 0 {
        return;
    }
    // A copy, so that the space itself need not lie in memory where nothing becomes empty.
    let sp = space;
    let b1 = cut(mem, left, sp, va, 0, n, w.b, l + 1, w.a, b0);
    let b2 = cut(mem, left, sp, va, 1, n, w.c, l + 2, w.b, b1);
    cut(mem, left, sp, va, 2, n, w.d, l + 3, w.c, b2);
}

// Unmaps, and answers what went, and the ticket of the book after it, by the counts before; or refuses and writes nothing.
pub fn unmap(
    mem: &mut [u8],
    left: &mut u64,
    space: Space,
    va: u64,
) -> Result<(Removal, u64), Reason>
    ensures answer { result ≡ the.unmapping_of (memory mem.old space.origin) space (the.decide_of (holds mem.old space.origin) (memory mem.old space.origin) space va) }
    ensures order { Wrote space.origin (the.did_of space va (the.decide_of (holds mem.old space.origin) (memory mem.old space.origin) space va)) left.old left.new mem.old mem.new }
{
    let p = decide_unmap(mem, space, va)?;
    let ticket = pool::ticket_after(pool::book_now(mem, space), p.empties);
    carry_unmap(mem, left, space, va, p);
    Ok((p, ticket))
}
