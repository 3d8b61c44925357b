// Which entries of a page are odd.
ghost use Rattle.std.specs.Prelude.{◌≡◌, ◌+◌, ◌-◌, ◌*◌, ◌<◌, ◌≤◌, true};
ghost use Rattle.word.specs.Memory.{memory, holds};
ghost use Rattle.word.specs.Scan as the;

use crate::{holds, load};

// Words that are 0 are told apart only so that the compiler reads whole words: it would read a byte of each, and be slower.
fn is_odd(w: u64) -> bool
    ensures { result ≡ the.odd w }
{
    if w == 0 {
        return false;
    }
    w % 2 == 1
}

// Entry i of page p. That the page is held `besides` has just tested; it alone calls this and the two below.
fn word(mem: &[u8], origin: u64, p: u64, i: u64) -> u64
    requires { (holds mem.now origin p ≡ true) × (i < 512) }
    ensures { result ≡ memory mem.now origin (512 * p + i) }
{
    load(mem, (p * 4096 - origin + i * 8) as usize)
}

// N entries of page p from entry k on, by one word that is odd where one of them is.
fn block<const N: u64>(mem: &[u8], origin: u64, p: u64, k: u64) -> u64
    requires { (holds mem.now origin p ≡ true) × (k + N ≤ 512) }
    ensures { the.odd result ≡ the.odd_of (memory mem.now origin) p k N }
{
    let mut all = 0;
    for j in 0..N {
        all |= word(mem, origin, p, k + j);
    }
    all
}

// Is one of the entries of page p odd, from one block of N up to another?
fn blocks<const N: u64>(mem: &[u8], origin: u64, p: u64, from: u64, to: u64) -> bool
    requires { (holds mem.now origin p ≡ true) × (N * to ≤ 512) }
    ensures { result ≡ the.odd_of (memory mem.now origin) p (N * from) (N * (to - from)) }
{
    for k in from..to {
        if is_odd(block::<N>(mem, origin, p, N * k)) {
            return true;
        }
    }
    false
}

// Has page p, where it lies in the window, an odd entry besides entry i? Eights, but for the one that has entry i.
pub fn besides(mem: &[u8], origin: u64, p: u64, i: u64) -> bool
    ensures { result ≡ the.besides_of (holds mem.now origin) (memory mem.now origin) p i 512 }
{
    if holds(mem, origin, p) {
        if 512 <= i {
            return blocks::<8>(mem, origin, p, 0, 64);
        }
        let b = i / 8;
        if blocks::<8>(mem, origin, p, 0, b) {
            return true;
        }
        if blocks::<1>(mem, origin, p, 8 * b, i) {
            return true;
        }
        if blocks::<1>(mem, origin, p, i + 1, 8 * b + 8) {
            return true;
        }
        return blocks::<8>(mem, origin, p, b + 1, 64);
    }
    false
}
