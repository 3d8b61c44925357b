// The way from the root towards the entry of an address at a level: where it stops, why, and the tables that it came through.
ghost use Rattle.std.specs.Prelude.{◌≡◌, ℕ, ◌<◌, Ok};
ghost use Rattle.std.specs.declared.ops.ControlFlow.TheVariants.{Break};
ghost use Rattle.word.specs.Memory.{memory, holds};
ghost use Rattle.entry.specs.Entry.{says};
ghost use Rattle.walk.specs.Walk.{index_of};
ghost use Rattle.pool.specs.Stands.{stands_of};
ghost use Rattle.plan.specs.Descend as the;

use entry::Entry;
use pool::Space;
use std::ops::ControlFlow;

// A window in which the pool of a space stands, with its book and its root: that was tested. Whoever reads tables on a way takes it so.
#[derive(Clone, Copy)]
pub struct Standing<'a> {
    pub mem: &'a [u8],
    pub space: Space,
    ghost stands: { stands_of (holds mem.now space.origin) space ≡ Ok tt },
}

#[derive(Clone, Copy)]
pub enum Why {
    Nothing,
    Page,
    // at the target
    Table,
    // the way leads to a page that is no table's
    Stray,
}

// Where the way stops: the level and the word of the entry there, and the tables on the way, the last one first. The laws (`OnWay`, `Spared`) name
// the four fields, so they are no array.
#[derive(Clone, Copy)]
pub struct Way {
    pub why: Why,
    pub level: u64,
    pub word: u64,
    pub a: u64,
    pub b: u64,
    pub c: u64,
    pub d: u64,
}

// The way, and what was found out on it: the entry's index in its table, and the frame where it is a page's.
#[derive(Clone, Copy)]
pub struct Arrival {
    pub way: Way,
    pub index: u64,
    pub frame: u64,
}

// The way has come to the table t.
fn push(w: Way, t: u64) -> Way
    ensures { result ≡ the.push_of w t }
{
    Way {
        why: Why::Stray,
        level: w.level,
        word: w.word,
        a: t,
        b: w.a,
        c: w.b,
        d: w.c,
    }
}

fn stop(y: Why, n: u64, x: u64, w: Way, i: u64, f: u64) -> ControlFlow<Arrival, (u64, Way)>
    ensures { result ≡ Break (record { way = the.stop_way y n x w; index = i; frame = f }) }
{
    ControlFlow::Break(Arrival {
        way: Way {
            why: y,
            level: n,
            word: x,
            a: w.a,
            b: w.b,
            c: w.c,
            d: w.d,
        },
        index: i,
        frame: f,
    })
}

// The entry of level n, whose index is i and whose word is x, says e.
fn at_entry(
    target: u64,
    n: u64,
    x: u64,
    w: Way,
    i: u64,
    e: Entry,
) -> ControlFlow<Arrival, (u64, Way)>
    ensures { (va : ℕ) → i ≡ index_of n va → e ≡ says n x → result ≡ the.descending_of va (the.at_entry_of target n x w e) }
{
    match e {
        Entry::Nothing => stop(Why::Nothing, n, x, w, i, 0),
        Entry::Page(f, _) => stop(Why::Page, n, x, w, i, f),
        Entry::Table(t, _) => {
            if n == target {
                stop(Why::Table, n, x, w, i, 0)
            } else {
                ControlFlow::Continue((t, w))
            }
        }
    }
}

// The way has come to the table in page t. It breaks off where it stops, and else goes on at the table in another page.
fn arrive(
    at: Standing,
    target: u64,
    va: u64,
    n: u64,
    t: u64,
    w: Way,
) -> ControlFlow<Arrival, (u64, Way)>
    requires { n < 4 }
    ensures { result ≡ the.descending_of va (the.arrive_of (holds at.entry.mem.now at.entry.space.origin) (memory at.entry.mem.now at.entry.space.origin) at.entry.space target va n t w) }
{
    let i = walk::index(n, va);
    match pool::entry(at.mem, at.space, t, i) {
        Some(x) => at_entry(target, n, x, push(w, t), i, entry::decode(n, x)),
        None => stop(Why::Stray, n, 0, w, i, 0),
    }
}

// From the root, level by level.
fn down(at: Standing, target: u64, va: u64) -> ControlFlow<Arrival, (u64, Way)>
    ensures { result ≡ the.descending_of va (the.down_of (holds at.entry.mem.now at.entry.space.origin) (memory at.entry.mem.now at.entry.space.origin) at.entry.space target va 4 (the.start_of at.entry.space)) }
{
    let w = Way {
        why: Why::Stray,
        level: 0,
        word: 0,
        a: 0,
        b: 0,
        c: 0,
        d: 0,
    };
    let (t, w) = arrive(at, target, va, 3, at.space.root, w)?;
    let (t, w) = arrive(at, target, va, 2, t, w)?;
    let (t, w) = arrive(at, target, va, 1, t, w)?;
    arrive(at, target, va, 0, t, w)
}

// The way of an address to its entry at the target level.
pub fn descend(at: Standing, va: u64, target: u64) -> Arrival
    ensures { result ≡ the.stop_at va (the.way_of (holds at.entry.mem.now at.entry.space.origin) (memory at.entry.mem.now at.entry.space.origin) at.entry.space va target) }
{
    match down(at, target, va) {
        ControlFlow::Break(x) => x,
        // no entry of the last table leads to a table
        ControlFlow::Continue(_) => unreachable!(),
    }
}
