// Why a window, a pool, a root or a book is refused, in words: those of include/reasons.txt, by tools/reasons.
use crate::Reason;
use std::error::Error;
use std::fmt;

impl fmt::Display for Reason {
    fn fmt<W: fmt::Write>(&self, f: &mut fmt::Formatter<W>) -> fmt::Result {
        match self {
            // tools/reasons: words
            Reason::OriginUnaligned => write!(f, "the origin is no multiple of 4096"),
            Reason::LengthUnaligned => write!(f, "the window's length is no multiple of 4096"),
            Reason::PoolLarge => write!(f, "more pages than a book can list"),
            Reason::PoolSmall => write!(f, "no room for the book and a root"),
            Reason::PoolOutside => write!(f, "the pool does not lie in the window"),
            Reason::BadRoot => write!(
                f,
                "the root is no page of the pool behind its book, or not the book's"
            ),
            Reason::NoBook => write!(f, "no pool was made here"),
            Reason::OtherBook => write!(f, "a pool of another size was made here"),
            Reason::BadBook => write!(f, "the book does not add up"),
            // tools/reasons: end
        }
    }
}

impl Error for Reason {}
