// The page that starts exactly at a base.
ghost use Rattle.std.specs.Prelude.{◌≡◌, ◌<◌};
ghost use Rattle.word.specs.Memory.{memory, holds};
ghost use Rattle.plan.specs.declared.descent.Way.{Way};
ghost use Rattle.plan.specs.declared.descent.Why.TheVariants.{Page};
ghost use Rattle.plan.specs.Descend.{stop_at, Paged};
ghost use Rattle.plan.specs.Find as the;

use crate::Reason;
use crate::descent::{Arrival, Standing, Way, Why, descend};
use pool::Space;

// Where the page's entry is, and what it says.
#[derive(Clone, Copy)]
pub struct PageEntry {
    pub way: Way,
    pub index: u64,
    pub frame: u64,
    pub size: u64,
}

// Is va the first address that an entry of level n covers?
fn starts(n: u64, va: u64) -> bool
    ensures { n < 4 → result ≡ the.starts_of n va }
{
    va % entry::size(n) == 0
}

// The way stopped there.
fn stopped(va: u64, t: Arrival) -> Result<PageEntry, Reason>
    ensures { (w : Way) → (w.why ≡ Page → Paged w) → t ≡ stop_at va w → result ≡ the.found_stopped_of va w }
{
    let w = t.way;
    if 3 < w.level {
        return Err(Reason::Stray);
    }
    match w.why {
        Why::Stray => Err(Reason::Stray),
        Why::Nothing => Err(Reason::NothingStarts),
        Why::Table => Err(Reason::NothingStarts),
        Why::Page => {
            if starts(w.level, va) {
                return Ok(PageEntry {
                    way: w,
                    index: t.index,
                    frame: t.frame,
                    size: entry::size(w.level),
                });
            }
            Err(Reason::NothingStarts)
        }
    }
}

// Finds the page that starts at va, or says why there is none.
pub fn find(mem: &[u8], space: Space, va: u64) -> Result<PageEntry, Reason>
    ensures { result ≡ the.find_of (holds mem.now space.origin) (memory mem.now space.origin) space va }
{
    pool::names(mem, space)?;
    if walk::canonical(va) {
        return stopped(va, descend(Standing { mem, space }, va, 4));
    }
    Err(Reason::BaseRange)
}
