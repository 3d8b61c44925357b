// Runs of pages. That a run lies in the window is tested once, and then one comparison finds a page of it: where the same test was made
// before, the compiler leaves out the second one.
ghost use Rattle.std.specs.Prelude.{◌≡◌, [], ◌∷◌};
ghost use Rattle.word.specs.Memory.{read_of};
ghost use Rattle.word.specs.Runs as the;
ghost use Rattle.word.specs.Writes.{Wrote, write};

use crate::{PAGE_COUNT, load, read, spend, store, write};

// Pages that follow each other, in the window whose first byte lies at the origin: so many from the first one on, and how many of them, at
// the beginning, are kept back. What is said of an entry of the run is said of none of the pages kept back.
#[derive(Clone, Copy)]
pub struct Run {
    pub origin: u64,
    pub first: u64,
    pub kept: u64,
    pub pages: u64,
}

impl Run {
    // Does all of it lie in the window?
    pub fn spans(self, mem: &[u8]) -> bool
        ensures { result ≡ the.spans_of mem.now self.origin self.first self.pages }
    {
        if PAGE_COUNT < self.pages {
            return false;
        }
        if PAGE_COUNT - self.pages < self.first {
            return false;
        }
        if self.first * 4096 < self.origin {
            return false;
        }
        (self.first + self.pages) * 4096 - self.origin <= mem.len() as u64
    }

    // Is entry i of page p an entry of it?
    fn has(self, mem: &[u8], p: u64, i: u64) -> bool
        ensures { result ≡ the.is_among mem.now self.origin self.first self.kept self.pages p i }
    {
        if 512 <= i {
            return false;
        }
        if self.spans(mem) {
            if self.kept < self.pages {
                return std::num::wrapping_sub_u64(p, self.first + self.kept)
                    < self.pages - self.kept;
            }
        }
        false
    }

    // Such an entry; else none.
    pub fn read(self, mem: &[u8], p: u64, i: u64) -> Option<u64>
        ensures { result ≡ the.among_of mem.now self.origin self.first self.kept self.pages p i }
    {
        if self.has(mem, p, i) {
            return Some(load(mem, (p * 4096 - self.origin + i * 8) as usize));
        }
        None
    }

    // Sets such an entry: one write of the budget; where it is none, no write.
    pub fn write(self, mem: &mut [u8], left: &mut u64, p: u64, i: u64, w: u64)
        ensures { Wrote self.origin (the.among_writes mem.old self.origin self.first self.kept self.pages p i w) left.old left.new mem.old mem.new }
    {
        if self.has(mem, p, i) {
            if spend(left) {
                store(mem, (p * 4096 - self.origin + i * 8) as usize, w);
            }
        }
    }

    // Clears such a page, entry by entry; `clear` does it for any page, by another test and so by another law.
    pub fn clear(self, mem: &mut [u8], left: &mut u64, p: u64)
        ensures { Wrote self.origin (the.among_zeros mem.old self.origin self.first self.kept self.pages p) left.old left.new mem.old mem.new }
    {
        for i in 0..512 {
            self.write(mem, left, p, i, 0);
        }
    }

    // Entry i of page p, where that page lies in the window: found by the run's test, where it is of the run.
    pub fn read_any(self, mem: &[u8], p: u64, i: u64) -> Option<u64>
        ensures { result ≡ read_of mem.now self.origin p i }
    {
        match self.read(mem, p, i) {
            Some(w) => Some(w),
            None => read(mem, self.origin, p, i),
        }
    }

    // Sets entry i of page p, where that page lies in the window, and else nothing: one write of the budget; found as above.
    pub fn write_any(self, mem: &mut [u8], left: &mut u64, p: u64, i: u64, w: u64)
        ensures { Wrote self.origin (write p i w ∷ []) left.old left.new mem.old mem.new }
    {
        if self.has(mem, p, i) {
            self.write(mem, left, p, i, w);
            return;
        }
        write(mem, left, self.origin, p, i, w)
    }
}
