// Map: what it would write, where everything that can be asked for was found right.
ghost use Rattle.std.specs.Prelude.{◌≡◌, ◌+◌, ◌-◌, ◌^◌, ◌<◌, ◌≤◌, Some};
ghost use Rattle.word.specs.Memory.{memory, holds};
ghost use Rattle.entry.specs.Entry.{size_of, frame_end};
ghost use Rattle.entry.specs.Words.{made_page};
ghost use Rattle.plan.specs.declared.descent.Way.{Way};
ghost use Rattle.plan.specs.Descend.{stop_at};
ghost use Rattle.plan.specs.Map as the;

use crate::Reason;
use crate::descent::{Arrival, Standing, Why, descend};
use crate::rights::write_execute;
use crate::spare::spared;
use entry::Rights;
use pool::{Book, Space};

// What is asked: the frame, of that size, at that base, with these rights.
#[derive(Clone, Copy)]
pub struct Asked {
    pub base: u64,
    pub frame: u64,
    pub size: u64,
    pub rights: Rights,
}

// Up to three pages that become tables, and the book that they come from. Three fields and no array: the laws (`fresh_three`, `Spared`) name
// them, and which of them count is known where each is read.
#[derive(Clone, Copy)]
pub struct NewTables {
    pub need: u64,
    pub a: u64,
    pub b: u64,
    pub c: u64,
    pub book: Book,
}

// What is written: from the table at a level down, the new tables, and the page's word at the target.
#[derive(Clone, Copy)]
pub struct Mapping {
    pub base: u64,
    pub target: u64,
    pub level: u64,
    pub table: u64,
    pub word: u64,
    pub fresh: NewTables,
}

// Where no table is missing: the entry, and the page's word.
#[derive(Clone, Copy)]
pub struct Leaf {
    pub table: u64,
    pub index: u64,
    pub word: u64,
}

#[derive(Clone, Copy)]
pub enum Placing {
    Here(Leaf),
    Built(Mapping),
}

// The level n, where the asked range and frame fit its pages: one test for each reason.
fn tested(n: u64, size: u64, base: u64, frame: u64) -> Result<u64, Reason>
    requires { (0 < size) × (size ≤ 1073741824) }
    ensures { result ≡ the.fits_of n size base frame }
{
    if base % size != 0 {
        return Err(Reason::BaseUnaligned);
    }
    if frame % size != 0 {
        return Err(Reason::FrameUnaligned);
    }
    if walk::canonical(base) {
        if entry::FRAME_END - size < frame {
            return Err(Reason::FrameRange);
        }
        return Ok(n);
    }
    Err(Reason::BaseRange)
}

// What fits is found first, in a form in which alignment and range are one test to the compiler: half of all addresses further on, an address
// is aligned as before, and lies below twice as many. Where a page ends is not computed, since the last one ends at 2^64.
pub fn fits(n: u64, size: u64, base: u64, frame: u64) -> Result<u64, Reason>
    requires { (n ≤ 2) × (size ≡ size_of n) }
    ensures { result ≡ the.fits_of n size base frame }
{
    let on = std::num::wrapping_add_u64(base, walk::HALF);
    if frame % size == 0 {
        if frame < entry::FRAME_END {
            if on % size == 0 {
                if on < 2 * walk::HALF {
                    return Ok(n);
                }
            }
        }
    }
    tested(n, size, base, frame)
}

fn shaped(size: u64, base: u64, frame: u64) -> Result<u64, Reason>
    ensures { result ≡ the.shape_of size base frame }
{
    if size == 4096 {
        return fits(0, 4096, base, frame);
    }
    if size == 2097152 {
        return fits(1, 2097152, base, frame);
    }
    if size == 1073741824 {
        return fits(2, 1073741824, base, frame);
    }
    Err(Reason::Size)
}

// All of what is asked that is looked at before the pool: its size, alignment and range, and then its rights.
pub fn allowed(q: Asked) -> Result<u64, Reason>
    ensures { result ≡ the.allowed_of q }
{
    let n = shaped(q.size, q.base, q.frame)?;
    let rights = q.rights;
    if write_execute(rights) {
        return Err(Reason::WriteExecute);
    }
    Ok(n)
}

// Do the frame and the pool share a byte?
pub fn meets(space: Space, frame: u64, size: u64) -> bool
    ensures { frame + size ≤ frame_end → space.pages ≤ 2 ^ 32 → result ≡ the.meets_of space frame size }
{
    if word::PAGE_COUNT < space.first {
        return false;
    }
    if 4294967296 < space.pages {
        return false;
    }
    if 9223372036854775808 <= frame {
        return false;
    }
    if 9223372036854775808 <= size {
        return false;
    }
    if frame + size <= space.first * 4096 {
        return false;
    }
    frame < (space.first + space.pages) * 4096
}

// The free page at position j, where more than j are needed.
fn nth(mem: &[u8], space: Space, book: Book, need: u64, j: u64) -> Option<u64>
    ensures { result ≡ the.nth_of (holds mem.now space.origin) (memory mem.now space.origin) space book need j }
{
    if need <= j {
        return Some(0);
    }
    pool::free_page(mem, space, book, j)
}

fn take_fresh(mem: &[u8], space: Space, book: Book, need: u64) -> Result<NewTables, Reason>
    ensures { result ≡ the.fresh_of (holds mem.now space.origin) (memory mem.now space.origin) space book need }
{
    let a = nth(mem, space, book, need, 0).ok_or(Reason::BadList)?;
    let b = nth(mem, space, book, need, 1).ok_or(Reason::BadList)?;
    let c = nth(mem, space, book, need, 2).ok_or(Reason::BadList)?;
    Ok(NewTables {
        need,
        a,
        b,
        c,
        book,
    })
}

// No page is needed, and no book.
fn none() -> NewTables
    ensures { Ok result ≡ the.none_of }
{
    NewTables {
        need: 0,
        a: 0,
        b: 0,
        c: 0,
        book: Book {
            head: 0,
            free: 0,
            aside: 0,
            tickets: 0,
        },
    }
}

// The pages for the missing tables. A book is needed only where a table is missing.
fn supplied(mem: &[u8], space: Space, need: u64) -> Result<NewTables, Reason>
    ensures { result ≡ the.supply_of (holds mem.now space.origin) (memory mem.now space.origin) space need }
{
    if need == 0 {
        return Ok(none());
    }
    // A copy, so that the space itself need not lie in memory where no table is missing.
    let sp = space;
    let b = pool::open(mem, sp)?;
    if b.free < need {
        return Err(Reason::NoRoom);
    }
    take_fresh(mem, space, b, need)
}

// What is asked, the level of its size, and the page's word, which was made of these.
#[derive(Clone, Copy)]
pub struct Page {
    pub asked: Asked,
    pub target: u64,
    pub word: u64,
    ghost made: { made_page target asked.frame asked.rights ≡ Some word },
}

impl Page {
    // The pages for the missing tables were found.
    fn placed(self, level: u64, table: u64, fresh: NewTables) -> Placing
        ensures { self.target < level → Ok result ≡ the.placing_of (the.place_of self.asked self.target level table (Ok fresh)) }
    {
        Placing::Built(Mapping {
            base: self.asked.base,
            target: self.target,
            level,
            table,
            word: self.word,
            fresh,
        })
    }

    // The entry is free.
    fn vacant(self, mem: &[u8], space: Space, t: Arrival) -> Result<Placing, Reason>
        ensures { (w : Way) → t ≡ stop_at self.asked.base w → result ≡ the.placing_of (the.place_of self.asked self.target w.level w.a (the.spared_of w (the.supply_of (holds mem.now space.origin) (memory mem.now space.origin) space (w.level - self.target)))) }
    {
        let w = t.way;
        if w.level <= self.target {
            return Ok(Placing::Here(Leaf {
                table: w.a,
                index: t.index,
                word: self.word,
            }));
        }
        let fresh = spared(w, supplied(mem, space, w.level - self.target)?)?;
        Ok(self.placed(w.level, w.a, fresh))
    }

    // The way of its base was followed.
    fn stopped(self, mem: &[u8], space: Space, t: Arrival) -> Result<Placing, Reason>
        ensures { (w : Way) → t ≡ stop_at self.asked.base w → result ≡ the.placing_of (the.stopped_of (holds mem.now space.origin) (memory mem.now space.origin) space self.asked self.target w) }
    {
        match t.way.why {
            Why::Nothing => self.vacant(mem, space, t),
            Why::Page => Err(Reason::Overlap),
            Why::Table => Err(Reason::Overlap),
            Why::Stray => Err(Reason::Stray),
        }
    }

    // Where it goes: the pool is where it says, and the frame does not meet it.
    fn placing(self, mem: &[u8], space: Space) -> Result<Placing, Reason>
        ensures { the.Sized self.asked → result ≡ the.placing_of (the.standing_of (holds mem.now space.origin) (memory mem.now space.origin) space self.asked self.target) }
    {
        let q = self.asked;
        pool::names(mem, space)?;
        if meets(space, q.frame, q.size) {
            return Err(Reason::FrameInPool);
        }
        let t = descend(Standing { mem, space }, q.base, self.target);
        self.stopped(mem, space, t)
    }
}

// What map would write. The word is made first, where the compiler has just seen that the frame fits.
pub fn decide_map(mem: &[u8], space: Space, q: Asked) -> Result<Placing, Reason>
    ensures { result ≡ the.placing_of (the.decide_of (holds mem.now space.origin) (memory mem.now space.origin) space q) }
{
    let target = allowed(q)?;
    let rights = q.rights;
    let word = entry::page_word(target, q.frame, rights).ok_or(Reason::FrameRange)?;
    let page = Page {
        asked: q,
        target,
        word,
    };
    page.placing(mem, space)
}
