// What a walk has found, in words.
use crate::Found;
use entry::Bytes;
use std::fmt;

impl fmt::Display for Found {
    fn fmt<W: fmt::Write>(&self, f: &mut fmt::Formatter<W>) -> fmt::Result {
        match self {
            Found::Page {
                base,
                size,
                frame,
                rights,
            } => {
                let size = Bytes(*size);
                write!(
                    f,
                    "the {size} page from {base:#x} is at {frame:#x}, {rights}"
                )
            }
            Found::Nothing => write!(f, "nothing is mapped there"),
            Found::Outside => write!(f, "outside, the way leaves the window"),
            Found::NoAddress => write!(f, "that is no address"),
        }
    }
}
