// Why a report released nothing, in words: those of include/reasons.txt, by tools/reasons.
use crate::NotReleased;
use std::error::Error;
use std::fmt;

impl fmt::Display for NotReleased {
    fn fmt<W: fmt::Write>(&self, f: &mut fmt::Formatter<W>) -> fmt::Result {
        match self {
            NotReleased::Pool(why) => write!(f, "{why}"),
            // tools/reasons: words
            NotReleased::Unknown => write!(f, "a ticket above the present one"),
            NotReleased::Spent => write!(f, "no ticket is left: 2^62 tables were set aside"),
            // tools/reasons: end
        }
    }
}

impl Error for NotReleased {}
