// Page tables in lent bytes: create, map, unmap, protect, look up, told, and state. Each operation decides first, only reading, and then carries
// its plan out. Any bytes and any numbers will do: what cannot be done is refused with a reason, and then no byte has changed.
// Each operation that writes also stands here with a budget of writes (`up_to`): stopped after any of them, the bytes are those at entry
// with the first so many planned writes carried out. That is the order in which it writes.
// Each clause `answer` and `bytes` is for any bytes, `meaning` says what that is where the space is whole.
#![tactic(auto)]

ghost use Rattle.std.specs.Prelude.{◌≡◌};
ghost use Rattle.word.specs.Writes.{Wrote, carried};
ghost use Rattle.walk.specs.Walk.{walk};
ghost use Rattle.pool.specs.State as say;
ghost use Rattle.tablepath.specs.declared.NotReleased.TheVariants.{Pool};
ghost use Rattle.tablepath.specs.Answers as the;
ghost use Rattle.tablepath.specs.Looks.{in_window};
ghost use Rattle.tablepath.specs.Says.{CreateSays};
ghost use Rattle.tablepath.specs.Means.{MapMeans, UnmapMeans, ProtectMeans, ToldMeans, StateMeans, LookUpMeans};

use plan::{Asked, Reason};
use pool::{Counts, NotDue, Space};
use walk::Found;

mod display;

// The page that was unmapped, how many tables were set aside, and the ticket with which to report that every cache was told. Calls that set
// nothing aside answer the same ticket again: it speaks of the last moment at which it was answered.
#[derive(Clone, Copy)]
pub struct Gone {
    pub frame: u64,
    pub size: u64,
    pub aside: u64,
    pub ticket: u64,
}

// The page whose rights changed, and the ticket, as of unmap.
#[derive(Clone, Copy)]
pub struct Altered {
    pub frame: u64,
    pub size: u64,
    pub ticket: u64,
}

// Why a report released nothing.
#[derive(Clone, Copy, Debug, PartialEq, Eq)]
pub enum NotReleased {
    // a ticket above the present one
    Unknown,
    // no ticket is left
    Spent,
    // the window, the pool, the root or the book
    Pool(pool::Reason),
}

impl From<pool::Reason> for NotReleased {
    ghost from_gives = { λ r y. y ≡ Pool r };

    fn from(r: pool::Reason) -> NotReleased {
        NotReleased::Pool(r)
    }
}

impl From<NotDue> for NotReleased {
    ghost from_gives = { λ r y. y ≡ the.undue r };

    fn from(r: NotDue) -> NotReleased {
        match r {
            NotDue::Unknown => NotReleased::Unknown,
            NotDue::Spent => NotReleased::Spent,
        }
    }
}

// Create, up to so many writes.
pub fn create_up_to(
    mem: &mut [u8],
    left: &mut u64,
    origin: u64,
    first: u64,
    pages: u64,
) -> Result<u64, pool::Reason>
    ensures answer { result ≡ the.create_answer mem.old origin first pages }
    ensures order { Wrote origin (the.create_writes mem.old origin first pages) left.old left.new mem.old mem.new }
{
    pool::create(mem, left, origin, first, pages)
}

// Makes a pool of these pages, its book and an empty root; answers the root's page.
pub fn create(mem: &mut [u8], origin: u64, first: u64, pages: u64) -> Result<u64, pool::Reason>
    ensures answer { result ≡ the.create_answer mem.old origin first pages }
    ensures bytes { mem.new ≡ carried mem.old origin (the.create_writes mem.old origin first pages) }
    ensures meaning { CreateSays mem.old mem.new origin first pages result }
{
    let mut left: u64 = word::ENDLESS;
    create_up_to(mem, &mut left, origin, first, pages)
}

// Map, up to so many writes.
pub fn map_up_to(mem: &mut [u8], left: &mut u64, space: Space, q: Asked) -> Result<u64, Reason>
    ensures answer { result ≡ in_window mem.old space.origin the.map_answer space q }
    ensures order { Wrote space.origin (in_window mem.old space.origin the.map_writes space q) left.old left.new mem.old mem.new }
{
    plan::map(mem, left, space, q)
}

// Maps the frame at the base, with these rights; answers how many tables were made for it.
pub fn map(mem: &mut [u8], space: Space, q: Asked) -> Result<u64, Reason>
    ensures answer { result ≡ in_window mem.old space.origin the.map_answer space q }
    ensures bytes { mem.new ≡ carried mem.old space.origin (in_window mem.old space.origin the.map_writes space q) }
    ensures meaning { MapMeans mem.old mem.new space q result }
{
    let mut left: u64 = word::ENDLESS;
    map_up_to(mem, &mut left, space, q)
}

// Unmap, up to so many writes.
pub fn unmap_up_to(mem: &mut [u8], left: &mut u64, space: Space, base: u64) -> Result<Gone, Reason>
    ensures answer { result ≡ in_window mem.old space.origin the.unmap_answer space base }
    ensures order { Wrote space.origin (in_window mem.old space.origin the.unmap_writes space base) left.old left.new mem.old mem.new }
{
    let (p, ticket) = plan::unmap(mem, left, space, base)?;
    Ok(Gone {
        frame: p.page.frame,
        size: p.page.size,
        aside: p.empties,
        ticket,
    })
}

// Unmaps the page that starts exactly at the base, and sets aside the tables that become empty.
pub fn unmap(mem: &mut [u8], space: Space, base: u64) -> Result<Gone, Reason>
    ensures answer { result ≡ in_window mem.old space.origin the.unmap_answer space base }
    ensures bytes { mem.new ≡ carried mem.old space.origin (in_window mem.old space.origin the.unmap_writes space base) }
    ensures meaning { UnmapMeans mem.old mem.new space base result }
{
    let mut left: u64 = word::ENDLESS;
    unmap_up_to(mem, &mut left, space, base)
}

// Protect, up to so many writes.
pub fn protect_up_to(
    mem: &mut [u8],
    left: &mut u64,
    space: Space,
    base: u64,
    rights: entry::Rights,
) -> Result<Altered, Reason>
    ensures answer { result ≡ in_window mem.old space.origin the.protect_answer space base rights }
    ensures order { Wrote space.origin (in_window mem.old space.origin the.protect_writes space base rights) left.old left.new mem.old mem.new }
{
    let c = plan::protect(mem, left, space, base, rights)?;
    Ok(Altered {
        frame: c.frame,
        size: c.size,
        ticket: c.ticket,
    })
}

// Gives the page that starts exactly at the base other rights; the machine's marks stay.
pub fn protect(
    mem: &mut [u8],
    space: Space,
    base: u64,
    rights: entry::Rights,
) -> Result<Altered, Reason>
    ensures answer { result ≡ in_window mem.old space.origin the.protect_answer space base rights }
    ensures bytes { mem.new ≡ carried mem.old space.origin (in_window mem.old space.origin the.protect_writes space base rights) }
    ensures meaning { ProtectMeans mem.old mem.new space base rights result }
{
    let mut left: u64 = word::ENDLESS;
    protect_up_to(mem, &mut left, space, base, rights)
}

// Told, up to so many writes.
pub fn told_up_to(
    mem: &mut [u8],
    left: &mut u64,
    space: Space,
    ticket: u64,
) -> Result<u64, NotReleased>
    ensures answer { result ≡ in_window mem.old space.origin the.told_answer space ticket }
    ensures order { Wrote space.origin (in_window mem.old space.origin the.told_writes space ticket) left.old left.new mem.old mem.new }
{
    let b = pool::open(mem, space)?;
    let k = pool::due_by(b, ticket)?;
    pool::release(mem, left, space, b, k);
    Ok(k)
}

// The caller reports that every cache was told of what had happened when this ticket was answered last: the pages set aside until then are
// free again, and their number is the answer. A ticket between two that were answered frees exactly the pages with smaller numbers; one above the present one is unknown.
pub fn told(mem: &mut [u8], space: Space, ticket: u64) -> Result<u64, NotReleased>
    ensures answer { result ≡ in_window mem.old space.origin the.told_answer space ticket }
    ensures bytes { mem.new ≡ carried mem.old space.origin (in_window mem.old space.origin the.told_writes space ticket) }
    ensures meaning { ToldMeans mem.old mem.new space ticket result }
{
    let mut left: u64 = word::ENDLESS;
    told_up_to(mem, &mut left, space, ticket)
}

// How many of the pool's pages are free, set aside and tables, and the ticket of this moment. Writes nothing.
pub fn state(mem: &[u8], space: Space) -> Result<Counts, pool::Reason>
    ensures answer { result ≡ in_window mem.now space.origin say.state_of space }
    ensures meaning { StateMeans mem.now space result }
{
    pool::state(mem, space)
}

// What the address means with this CR3.
pub fn look_up(mem: &[u8], origin: u64, cr3: u64, va: u64) -> Found
    ensures answer { result ≡ in_window mem.now origin walk cr3 va }
    ensures meaning { LookUpMeans mem.now origin cr3 va result }
{
    walk::look_up(mem, origin, cr3, va)
}
