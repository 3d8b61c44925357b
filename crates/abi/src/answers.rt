// Answers as the numbers that C gets: a reason, and 0 in every other field where something is refused.
ghost use Rattle.std.specs.Prelude.{◌≡◌};
ghost use Rattle.abi.specs.Answers.{looked_up_to_c};
ghost use Rattle.abi.specs.Answers as the;
ghost use Rattle.abi.specs.Inner as inner;

use crate::numbers::number;
use crate::refusal::Refusal;
use entry::Rights;
use tablepath::{Altered, Gone};
use walk::Found;

// What making a pool answers: the root's physical address.
#[repr(C)]
#[derive(Clone, Copy, Default)]
pub struct Created {
    pub reason: u64,
    pub root: u64,
}

// What map answers: how many tables were made for the page.
#[repr(C)]
#[derive(Clone, Copy, Default)]
pub struct Mapped {
    pub reason: u64,
    pub tables: u64,
}

// The page that was unmapped, how many tables were set aside, and the ticket of the moment after it, to be reported.
#[repr(C)]
#[derive(Clone, Copy, Default)]
pub struct Unmapped {
    pub reason: u64,
    pub frame: u64,
    pub size: u64,
    pub aside: u64,
    pub ticket: u64,
}

// The page whose rights changed, and the ticket, as of unmap.
#[repr(C)]
#[derive(Clone, Copy, Default)]
pub struct Protected {
    pub reason: u64,
    pub frame: u64,
    pub size: u64,
    pub ticket: u64,
}

// What a report answers: how many pages are free again.
#[repr(C)]
#[derive(Clone, Copy, Default)]
pub struct Told {
    pub reason: u64,
    pub released: u64,
}

// How many pages a pool has, how many of them are free, set aside, and tables beside the root; and the ticket of the moment.
#[repr(C)]
#[derive(Clone, Copy, Default)]
pub struct Counts {
    pub reason: u64,
    pub pages: u64,
    pub free: u64,
    pub aside: u64,
    pub tables: u64,
    pub ticket: u64,
}

// What an address means. Fields that say nothing are 0.
#[repr(C)]
#[derive(Clone, Copy, Default)]
pub struct LookedUp {
    // 0: nothing; 1: a page; 2: outside, the way leads to a table that does not lie in the window
    pub kind: u64,
    // the page's first address, its size, and where it lies in physical memory
    pub base: u64,
    pub size: u64,
    pub frame: u64,
    // of the whole way: bit 0 writable, bit 1 user, bit 2 not executable
    pub rights: u64,
}

// As C's bits. No From, since neither type is this crate's.
pub fn rights_word(r: Rights) -> u64
    ensures { result ≡ the.rights_word r }
{
    u64::from(r.writable) + 2 * u64::from(r.user) + 4 * u64::from(r.noexec)
}

// The same back, by the three lowest bits; whoever asks with others is refused before.
pub fn rights(w: u64) -> Rights
    ensures { result ≡ the.rights_in w }
{
    Rights {
        writable: w % 2 == 1,
        user: w / 2 % 2 == 1,
        noexec: w / 4 % 2 == 1,
    }
}

impl From<Result<u64, Refusal>> for Created {
    ghost from_gives = { λ a c. inner.LowRoot a → c ≡ inner.created a };

    fn from(a: Result<u64, Refusal>) -> Created {
        match a {
            Err(y) => Created {
                reason: number(y),
                root: 0,
            },
            Ok(p) => {
                if word::PAGE_COUNT <= p {
                    return Created::default();
                }
                Created {
                    reason: 0,
                    root: 4096 * p,
                }
            }
        }
    }
}

impl From<Result<u64, Refusal>> for Mapped {
    ghost from_gives = { λ a c. c ≡ inner.mapped a };

    fn from(a: Result<u64, Refusal>) -> Mapped {
        match a {
            Err(y) => Mapped {
                reason: number(y),
                tables: 0,
            },
            Ok(tables) => Mapped { reason: 0, tables },
        }
    }
}

impl From<Result<Gone, Refusal>> for Unmapped {
    ghost from_gives = { λ a c. c ≡ inner.unmapped a };

    fn from(a: Result<Gone, Refusal>) -> Unmapped {
        match a {
            Err(y) => Unmapped {
                reason: number(y),
                ..Unmapped::default()
            },
            Ok(g) => Unmapped {
                reason: 0,
                frame: g.frame,
                size: g.size,
                aside: g.aside,
                ticket: g.ticket,
            },
        }
    }
}

impl From<Result<Altered, Refusal>> for Protected {
    ghost from_gives = { λ a c. c ≡ inner.protected a };

    fn from(a: Result<Altered, Refusal>) -> Protected {
        match a {
            Err(y) => Protected {
                reason: number(y),
                ..Protected::default()
            },
            Ok(s) => Protected {
                reason: 0,
                frame: s.frame,
                size: s.size,
                ticket: s.ticket,
            },
        }
    }
}

impl From<Result<u64, Refusal>> for Told {
    ghost from_gives = { λ a c. c ≡ inner.told a };

    fn from(a: Result<u64, Refusal>) -> Told {
        match a {
            Err(y) => Told {
                reason: number(y),
                released: 0,
            },
            Ok(released) => Told {
                reason: 0,
                released,
            },
        }
    }
}

impl From<Result<pool::Counts, Refusal>> for Counts {
    ghost from_gives = { λ a c. c ≡ inner.counted a };

    fn from(a: Result<pool::Counts, Refusal>) -> Counts {
        match a {
            Err(y) => Counts {
                reason: number(y),
                ..Counts::default()
            },
            Ok(c) => Counts {
                reason: 0,
                pages: c.pages,
                free: c.free,
                aside: c.aside,
                tables: c.tables,
                ticket: c.ticket,
            },
        }
    }
}

impl From<Found> for LookedUp {
    ghost from_gives = { λ f c. c ≡ looked_up_to_c f };

    fn from(f: Found) -> LookedUp {
        match f {
            Found::Page {
                base,
                size,
                frame,
                rights,
            } => LookedUp {
                kind: 1,
                base,
                size,
                frame,
                rights: rights_word(rights),
            },
            Found::Nothing => LookedUp::default(),
            Found::Outside => LookedUp {
                kind: 2,
                ..LookedUp::default()
            },
            Found::NoAddress => LookedUp {
                kind: 5,
                ..LookedUp::default()
            },
        }
    }
}
