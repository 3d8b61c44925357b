// Why an operation is refused, in words: those of include/reasons.txt, by tools/reasons.
use crate::Reason;
use std::error::Error;
use std::fmt;

impl fmt::Display for Reason {
    fn fmt<W: fmt::Write>(&self, f: &mut fmt::Formatter<W>) -> fmt::Result {
        match self {
            Reason::Pool(why) => write!(f, "{why}"),
            // tools/reasons: words
            Reason::Size => write!(f, "the size is none of the three"),
            Reason::BaseUnaligned => write!(f, "the base is no multiple of the size"),
            Reason::FrameUnaligned => write!(f, "the frame is no multiple of the size"),
            Reason::BaseRange => write!(f, "the base is no address: it is not canonical"),
            Reason::FrameRange => write!(f, "the frame ends beyond 2^52"),
            Reason::FrameInPool => write!(f, "the frame and the pool share a byte"),
            Reason::Overlap => write!(f, "some address of the range is mapped"),
            Reason::NoRoom => write!(f, "fewer free pages than tables that are missing"),
            Reason::NothingStarts => write!(f, "no page starts at the base"),
            Reason::Stray => write!(f, "the way leads to a table that is not of the pool"),
            Reason::BadList => write!(f, "the book lists as free what it can't"),
            Reason::WriteExecute => write!(f, "the page would be writable and executable"),
            // tools/reasons: end
        }
    }
}

impl Error for Reason {}
