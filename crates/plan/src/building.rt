// Map: what was decided is carried out. For each missing level, from the top, a page is cleared and then linked; the page's own entry is written last.
ghost use Rattle.std.specs.Prelude.{◌≡◌, ◌<◌, true};
ghost use Rattle.word.specs.Memory.{page_count, memory, holds};
ghost use Rattle.word.specs.Writes.{Wrote};
ghost use Rattle.pool.specs.Book.{in_pool};
ghost use Rattle.pool.specs.Stands.{stands_of};
ghost use Rattle.plan.specs.Map as the;

use crate::Reason;
use crate::maps::{Asked, Leaf, Mapping, Placing, decide_map};
use pool::Space;

#[derive(Clone, Copy)]
pub struct TableReached {
    pub level: u64,
    pub table: u64,
}

// The word that names the table in page p.
fn link(p: u64) -> u64
    requires { p < page_count }
    ensures { result ≡ the.link_of p }
{
    4096 * p + 7
}

// Above the target page p is cleared and then linked, and the way goes on there. Both are pages of the pool, found by its own test.
fn grow(
    mem: &mut [u8],
    left: &mut u64,
    space: Space,
    va: u64,
    target: u64,
    p: u64,
    s: TableReached,
) -> TableReached
    requires { ((s.level < 4) × (p < page_count)) × ((stands_of (holds mem.old space.origin) space ≡ Ok tt) × (target < s.level → (in_pool space p ≡ true) × (in_pool space s.table ≡ true))) }
    ensures value { result ≡ the.next_of target p s }
    ensures wrote { Wrote space.origin (the.grow_of va target p s) left.old left.new mem.old mem.new }
{
    if s.level <= target {
        return s;
    }
    pool::clear_page(mem, left, space, p);
    pool::set_entry(mem, left, space, s.table, walk::index(s.level, va), link(p));
    TableReached {
        level: s.level - 1,
        table: p,
    }
}

fn build(mem: &mut [u8], left: &mut u64, space: Space, m: Mapping)
    requires { the.Buildable space m × (stands_of (holds mem.old space.origin) space ≡ Ok tt) }
    ensures { Wrote space.origin (the.build_of m) left.old left.new mem.old mem.new }
{
    let f = m.fresh;
    let s0 = TableReached {
        level: m.level,
        table: m.table,
    };
    let s1 = grow(mem, left, space, m.base, m.target, f.a, s0);
    let s2 = grow(mem, left, space, m.base, m.target, f.b, s1);
    let s3 = grow(mem, left, space, m.base, m.target, f.c, s2);
    pool::set_entry(
        mem,
        left,
        space,
        s3.table,
        walk::index(s3.level, m.base),
        m.word,
    );
}

// Where no table is missing: one write. Protect's is another plan, with a law of its own; each is one line.
fn carry_here(mem: &mut [u8], left: &mut u64, space: Space, c: Leaf)
    ensures { Wrote space.origin (the.leaf_writes c) left.old left.new mem.old mem.new }
{
    word::write(mem, left, space.origin, c.table, c.index, c.word)
}

// The tables and the page, and then the book.
fn carry_map(mem: &mut [u8], left: &mut u64, space: Space, m: Mapping)
    requires { the.Buildable space m × (stands_of (holds mem.old space.origin) space ≡ Ok tt) }
    ensures { Wrote space.origin (the.writes_of space m) left.old left.new mem.old mem.new }
{
    build(mem, left, space, m);
    let f = m.fresh;
    let b = f.book;
    if 0 < f.need {
        pool::took(mem, left, space, b, f.need);
    }
}

// Maps, and answers how many tables were made; or refuses and writes nothing.
pub fn map(mem: &mut [u8], left: &mut u64, space: Space, q: Asked) -> Result<u64, Reason>
    ensures answer { result ≡ the.making_of (the.decide_of (holds mem.old space.origin) (memory mem.old space.origin) space q) }
    ensures order { Wrote space.origin (the.did_of space (the.decide_of (holds mem.old space.origin) (memory mem.old space.origin) space q)) left.old left.new mem.old mem.new }
{
    match decide_map(mem, space, q)? {
        Placing::Here(c) => {
            carry_here(mem, left, space, c);
            Ok(0)
        }
        Placing::Built(p) => {
            carry_map(mem, left, space, p);
            Ok(p.fresh.need)
        }
    }
}
