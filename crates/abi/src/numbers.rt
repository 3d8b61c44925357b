// The reasons' numbers. include/reasons.txt has them all, and tools/reasons writes the constants.
ghost use Rattle.std.specs.Prelude.{◌≡◌};
ghost use Rattle.abi.specs.ReasonNumbers as why;
ghost use Rattle.abi.specs.Inner as inner;

use crate::refusal::Refusal;

// tools/reasons: constants
pub const SIZE: u64 = 1;

pub const BASE_UNALIGNED: u64 = 2;

pub const FRAME_UNALIGNED: u64 = 3;

pub const BASE_RANGE: u64 = 4;

pub const FRAME_RANGE: u64 = 5;

pub const FRAME_IN_POOL: u64 = 6;

pub const OVERLAP: u64 = 7;

pub const NO_ROOM: u64 = 8;

pub const NOTHING_STARTS: u64 = 9;

pub const STRAY: u64 = 10;

pub const BAD_LIST: u64 = 11;

pub const ORIGIN_UNALIGNED: u64 = 12;

pub const LENGTH_UNALIGNED: u64 = 13;

pub const POOL_UNALIGNED: u64 = 14;

pub const ROOT_UNALIGNED: u64 = 15;

pub const POOL_LARGE: u64 = 16;

pub const POOL_SMALL: u64 = 17;

pub const POOL_OUTSIDE: u64 = 18;

pub const BAD_ROOT: u64 = 19;

pub const NO_BOOK: u64 = 20;

pub const OTHER_BOOK: u64 = 21;

pub const BAD_BOOK: u64 = 22;

pub const UNKNOWN: u64 = 23;

pub const SPENT: u64 = 24;

pub const RIGHTS: u64 = 25;

pub const WRITE_EXECUTE: u64 = 27;

// tools/reasons: end

// The number of a reason that the pool has. No From, since neither type is this crate's.
fn pool_reason(r: pool::Reason) -> u64
    ensures { result ≡ why.pool_reason r }
{
    match r {
        pool::Reason::OriginUnaligned => ORIGIN_UNALIGNED,
        pool::Reason::LengthUnaligned => LENGTH_UNALIGNED,
        pool::Reason::PoolLarge => POOL_LARGE,
        pool::Reason::PoolSmall => POOL_SMALL,
        pool::Reason::PoolOutside => POOL_OUTSIDE,
        pool::Reason::BadRoot => BAD_ROOT,
        pool::Reason::NoBook => NO_BOOK,
        pool::Reason::OtherBook => OTHER_BOOK,
        pool::Reason::BadBook => BAD_BOOK,
    }
}

// The number of a reason; the same holds for it.
fn reason(r: plan::Reason) -> u64
    ensures { result ≡ why.reason_of r }
{
    match r {
        plan::Reason::Size => SIZE,
        plan::Reason::BaseUnaligned => BASE_UNALIGNED,
        plan::Reason::FrameUnaligned => FRAME_UNALIGNED,
        plan::Reason::BaseRange => BASE_RANGE,
        plan::Reason::FrameRange => FRAME_RANGE,
        plan::Reason::WriteExecute => WRITE_EXECUTE,
        plan::Reason::Pool(y) => pool_reason(y),
        plan::Reason::FrameInPool => FRAME_IN_POOL,
        plan::Reason::Overlap => OVERLAP,
        plan::Reason::NoRoom => NO_ROOM,
        plan::Reason::NothingStarts => NOTHING_STARTS,
        plan::Reason::Stray => STRAY,
        plan::Reason::BadList => BAD_LIST,
    }
}

// The number that C gets: by a name, since `u64::from` would not say which.
pub fn number(y: Refusal) -> u64
    ensures { result ≡ inner.number y }
{
    match y {
        Refusal::Operation(r) => reason(r),
        Refusal::PoolUnaligned => POOL_UNALIGNED,
        Refusal::RootUnaligned => ROOT_UNALIGNED,
        Refusal::Rights => RIGHTS,
        Refusal::Unknown => UNKNOWN,
        Refusal::Spent => SPENT,
    }
}
