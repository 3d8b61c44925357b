// Map where no table is missing, in one piece: called for one level at a time, it becomes code in which the levels are known. What it
// leaves unsaid the whole decision (maps.rt) says.
ghost use Rattle.std.specs.Prelude.{◌≡◌, ℕ, ◌<◌, ◌≤◌};
ghost use Rattle.word.specs.Memory.{memory, holds};
ghost use Rattle.word.specs.Writes.{Wrote};
ghost use Rattle.walk.specs.Walk.{index_of};
ghost use Rattle.pool.specs.Stands.{stands_of};
ghost use Rattle.plan.specs.declared.descent.Way.{Way};
ghost use Rattle.plan.specs.Descend.{Going, start_of, down_of};
ghost use Rattle.plan.specs.Map.{decide_of};
ghost use Rattle.plan.specs.AtOnce as the;

use crate::Reason;
use crate::descent::Standing;
use crate::maps::{Asked, fits, meets};
use crate::rights::write_execute;
use entry::Entry;
use pool::Space;

// Why an entry leads to no table.
#[derive(Clone, Copy, Debug, PartialEq, Eq)]
pub enum Stop {
    Page,
    Nothing,
    // its table is no page of the pool
    Stray,
}

// The table that the entry of the address in the table in page t, of level n, leads to.
fn follow(at: Standing, n: u64, va: u64, t: u64) -> Result<u64, Stop>
    requires { n < 4 }
    ensures { result ≡ the.lead_of (holds at.entry.mem.now at.entry.space.origin) (memory at.entry.mem.now at.entry.space.origin) at.entry.space va n t }
{
    let w = pool::entry(at.mem, at.space, t, walk::index(n, va)).ok_or(Stop::Stray)?;
    match entry::decode(n, w) {
        Entry::Nothing => Err(Stop::Nothing),
        Entry::Page(_, _) => Err(Stop::Page),
        Entry::Table(u, _) => Ok(u),
    }
}

// From the table in page t, of level 2, to that of the target's level.
fn down(at: Standing, target: u64, va: u64, t: u64) -> Result<u64, Stop>
    ensures { target ≤ 1 → (w : Way) → the.Leads (holds at.entry.mem.now at.entry.space.origin) (memory at.entry.mem.now at.entry.space.origin) at.entry.space target va (down_of (holds at.entry.mem.now at.entry.space.origin) (memory at.entry.mem.now at.entry.space.origin) at.entry.space target va 3 (Going t w)) result }
{
    let u = follow(at, 2, va, t)?;
    if target == 1 {
        return Ok(u);
    }
    follow(at, 1, va, u)
}

// From the root to the table of the target's level.
fn last(at: Standing, target: u64, va: u64) -> Result<u64, Stop>
    ensures { target ≤ 2 → the.Leads (holds at.entry.mem.now at.entry.space.origin) (memory at.entry.mem.now at.entry.space.origin) at.entry.space target va (down_of (holds at.entry.mem.now at.entry.space.origin) (memory at.entry.mem.now at.entry.space.origin) at.entry.space target va 4 (start_of at.entry.space)) result }
{
    let u = follow(at, 3, va, at.space.root)?;
    if target == 2 {
        return Ok(u);
    }
    down(at, target, va, u)
}

// The entry in the table in page t, of level n, is set where nothing is there.
fn settle(
    mem: &mut [u8],
    left: &mut u64,
    space: Space,
    n: u64,
    va: u64,
    t: u64,
    x: u64,
) -> Option<Result<u64, Reason>>
    requires { (n < 4) × (stands_of (holds mem.old space.origin) space ≡ Ok tt) }
    ensures value { result ≡ the.once_of (the.lead_of (holds mem.old space.origin) (memory mem.old space.origin) space va n t) }
    ensures wrote { Wrote space.origin (the.once_writes t (index_of n va) x (the.lead_of (holds mem.old space.origin) (memory mem.old space.origin) space va n t)) left.old left.new mem.old mem.new }
{
    match follow(Standing { mem, space }, n, va, t) {
        Err(Stop::Nothing) => {
            pool::set_entry(mem, left, space, t, walk::index(n, va), x);
            Some(Ok(0))
        }
        Err(Stop::Page) => Some(Err(Reason::Overlap)),
        Ok(_) => Some(Err(Reason::Overlap)),
        Err(Stop::Stray) => None,
    }
}

// The way of what is asked, where all else was found right; x is the page's word.
fn placed(
    mem: &mut [u8],
    left: &mut u64,
    space: Space,
    n: u64,
    va: u64,
    x: u64,
) -> Option<Result<u64, Reason>>
    requires { (n ≤ 2) × (stands_of (holds mem.old space.origin) space ≡ Ok tt) }
    ensures { the.Found left.old left.new mem.old mem.new space n va x result }
{
    // where there is none is rare, and one exit for all of it keeps the compiler's registers
    let t = last(Standing { mem, space }, n, va).ok()?;
    settle(mem, left, space, n, va, t, x)
}

// Maps a page of level n where no table is missing, and says what map answers; where it leaves that unsaid, nothing was written.
pub fn at_once(
    mem: &mut [u8],
    left: &mut u64,
    space: Space,
    q: Asked,
    n: u64,
) -> Option<Result<u64, Reason>>
    ensures { the.AtOnce left.old left.new mem.old mem.new space (decide_of (holds mem.old space.origin) (memory mem.old space.origin) space q) result }
{
    if 2 < n {
        return None;
    }
    let size = entry::size(n);
    if q.size != size {
        return None;
    }
    fits(n, size, q.base, q.frame).ok()?;
    let rights = q.rights;
    if write_execute(rights) {
        return None;
    }
    let x = entry::page_word(n, q.frame, rights)?;
    pool::names(mem, space).ok()?;
    if meets(space, q.frame, size) {
        return None;
    }
    placed(mem, left, space, n, q.base, x)
}
