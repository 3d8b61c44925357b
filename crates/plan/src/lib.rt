// Map, unmap and protect: each decides first, only reading, and then carries out a plan in which every word is computed already.
#![tactic(auto)]

ghost use Rattle.std.specs.Prelude.{◌≡◌};
ghost use Rattle.plan.specs.declared.Reason.TheVariants.{Pool};

mod building;
mod descent;
mod direct;
mod display;
mod finding;
mod maps;
mod protects;
mod rights;
mod spare;
mod unmaps;

pub use building::map;
pub use descent::{Way, Why};
pub use direct::at_once;
pub use maps::{Asked, allowed};
pub use protects::{Change, protect};
pub use rights::write_execute;
pub use unmaps::{Removal, unmap};

// Why an operation is refused: one reason for each cause.
#[derive(Clone, Copy, Debug, PartialEq, Eq)]
pub enum Reason {
    // the size is none of 4 KiB, 2 MiB, 1 GiB
    Size,
    BaseUnaligned,
    FrameUnaligned,
    // the base is no address: it is not canonical
    BaseRange,
    // the frame does not end at 2^52 or below
    FrameRange,
    // a page with these rights could be written and executed
    WriteExecute,
    // the window, the pool, the root or the book
    Pool(pool::Reason),
    FrameInPool,
    // some address of the range is mapped
    Overlap,
    // fewer free pages than missing tables
    NoRoom,
    // the base is an address, and no page starts there
    NothingStarts,
    // the tables are damaged: the way leads through a page that is no table's
    Stray,
    // the book is damaged: it lists a page that is no table's
    BadList,
}

impl From<pool::Reason> for Reason {
    ghost from_gives = { λ r y. y ≡ Pool r };

    fn from(r: pool::Reason) -> Reason {
        Reason::Pool(r)
    }
}
