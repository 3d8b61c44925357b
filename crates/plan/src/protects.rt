// Protect: the page that starts at a base gets other rights, by one write.
ghost use Rattle.std.specs.Prelude.{◌≡◌};
ghost use Rattle.word.specs.Memory.{memory, holds};
ghost use Rattle.word.specs.Writes.{Wrote};
ghost use Rattle.walk.specs.Walk.{index_of};
ghost use Rattle.plan.specs.Protect as the;

use crate::Reason;
use crate::finding::{PageEntry, find};
use crate::rights::write_execute;
use entry::Rights;
use pool::Space;

// The entry that changes, and its word; the page's frame and size; and the ticket of the moment.
#[derive(Clone, Copy)]
pub struct Change {
    pub table: u64,
    pub index: u64,
    pub word: u64,
    pub frame: u64,
    pub size: u64,
    pub ticket: u64,
}

fn changed(va: u64, s: PageEntry, rights: Rights, ticket: u64) -> Change
    ensures { s.index ≡ index_of s.way.level va → result ≡ the.change_of va s rights ticket }
{
    let w = s.way;
    Change {
        table: w.a,
        index: s.index,
        word: entry::with_rights(w.word, rights),
        frame: s.frame,
        size: s.size,
        ticket: ticket,
    }
}

// What protect would write.
fn decide_protect(mem: &[u8], space: Space, va: u64, rights: Rights) -> Result<Change, Reason>
    ensures { result ≡ the.decide_of (holds mem.now space.origin) (memory mem.now space.origin) space va rights }
{
    if write_execute(rights) {
        return Err(Reason::WriteExecute);
    }
    let p = find(mem, space, va)?;
    let ticket = pool::ticket(pool::book_now(mem, space));
    Ok(changed(va, p, rights, ticket))
}

// One line, as map's where no table is missing; a plan of its own with its own law.
fn carry_protect(mem: &mut [u8], left: &mut u64, space: Space, c: Change)
    ensures { Wrote space.origin (the.writes_of c) left.old left.new mem.old mem.new }
{
    word::write(mem, left, space.origin, c.table, c.index, c.word)
}

// Gives the page that starts at va other rights, or refuses and writes nothing.
pub fn protect(
    mem: &mut [u8],
    left: &mut u64,
    space: Space,
    va: u64,
    rights: Rights,
) -> Result<Change, Reason>
    ensures answer { result ≡ the.decide_of (holds mem.old space.origin) (memory mem.old space.origin) space va rights }
    ensures order { Wrote space.origin (the.did_of (the.decide_of (holds mem.old space.origin) (memory mem.old space.origin) space va rights)) left.old left.new mem.old mem.new }
{
    let c = decide_protect(mem, space, va, rights)?;
    carry_protect(mem, left, space, c);
    Ok(c)
}
