// Words of eight bytes in a window of physical memory: one read and one write, each for any bytes and any numbers.
#![tactic(auto)]

ghost use Rattle.std.specs.Prelude.{◌≡◌, ℕ, ◌+◌, ◌-◌, ◌%◌, ◌^◌, ◌<◌, ◌≤◌, List, [], ◌∷◌, length, if◌then◌else◌, nat_le, nat_lt};
ghost use Rattle.word.specs.Bytes.{word_at, put_word};
ghost use Rattle.word.specs.Memory.{holds, read_of, written};
ghost use Rattle.word.specs.Writes.{Wrote, write, zeros, endless};

mod run;
mod scan;

pub use run::Run;
pub use scan::besides;

// No budget: all writes are done.
pub const ENDLESS: u64 = 18446744073709551615;

// How many pages physical memory has: physical addresses have 52 bits.
pub const PAGE_COUNT: u64 = 1099511627776;

// The word whose first byte is at `at`: std's number of bytes that are found in the window. This form becomes one 8-byte load.
fn load(mem: &[u8], at: usize) -> u64
    requires { at + 8 ≤ length mem.now }
    ensures { result ≡ word_at mem.now at }
{
    u64::from_le_bytes([
        mem[at],
        mem[at + 1],
        mem[at + 2],
        mem[at + 3],
        mem[at + 4],
        mem[at + 5],
        mem[at + 6],
        mem[at + 7],
    ])
}

// Puts std's bytes of the word w at byte `at`. This form becomes one 8-byte store.
fn store(mem: &mut [u8], at: usize, w: u64)
    requires { at + 8 ≤ length mem.old }
    ensures { mem.new ≡ put_word mem.old at w }
{
    let bytes = w.to_le_bytes();
    mem[at] = bytes[0];
    mem[at + 1] = bytes[1];
    mem[at + 2] = bytes[2];
    mem[at + 3] = bytes[3];
    mem[at + 4] = bytes[4];
    mem[at + 5] = bytes[5];
    mem[at + 6] = bytes[6];
    mem[at + 7] = bytes[7];
}

// Does page p begin so far behind the origin, at most? One comparison finds that it begins in the window, too: where it begins before the
// window the difference wraps, and is more than any length.
fn holds_within(origin: u64, room: u64, p: u64) -> bool
    ensures { (s : List ℕ) → origin < 2 ^ 63 → room + 4096 ≡ length s → length s < 2 ^ 63 → result ≡ holds s origin p }
{
    if PAGE_COUNT <= p {
        return false;
    }
    std::num::wrapping_sub_u64(p * 4096, origin) <= room
}

// Does page p lie wholly in the window?
pub fn holds(mem: &[u8], origin: u64, p: u64) -> bool
    ensures { result ≡ holds mem.now origin p }
{
    if 9223372036854775808 <= origin {
        return false;
    }
    let len = mem.len() as u64;
    if len < 4096 {
        return false;
    }
    holds_within(origin, len - 4096, p)
}

// The same for one who only reads: in a window shorter than a page the room wraps, so both tests are of a sign. A look-up is shorter by
// it; a loop over a page that was tested so is longer.
fn holds_to_read(mem: &[u8], origin: u64, p: u64) -> bool
    ensures { result ≡ holds mem.now origin p }
{
    let room = std::num::wrapping_sub_u64(mem.len() as u64, 4096);
    if 9223372036854775808 <= room {
        return false;
    }
    if 9223372036854775808 <= origin {
        return false;
    }
    holds_within(origin, room, p)
}

// Entry i of page p, where that page lies in the window; else none.
pub fn read(mem: &[u8], origin: u64, p: u64, i: u64) -> Option<u64>
    ensures { result ≡ read_of mem.now origin p i }
{
    if 512 <= i {
        return None;
    }
    if holds_to_read(mem, origin, p) {
        return Some(load(mem, (p * 4096 - origin + i * 8) as usize));
    }
    None
}

// Sets entry i of page p, where that page lies in the window, and else nothing.
fn put(mem: &mut [u8], origin: u64, p: u64, i: u64, w: u64)
    ensures { mem.new ≡ written mem.old origin p i w }
{
    if 512 <= i {
        return;
    }
    if holds(mem, origin, p) {
        store(mem, (p * 4096 - origin + i * 8) as usize, w);
    }
}

// May one more write be done? This is the one function that looks at a budget, or changes it.
fn spend(left: &mut u64) -> bool
    ensures value { result ≡ nat_lt 0 left.old }
    ensures left_after { left.new ≡ (if nat_le endless left.old then left.old else left.old - 1) }
{
    let n = *left;
    if ENDLESS <= n {
        return true;
    }
    if n == 0 {
        return false;
    }
    *left = n - 1;
    true
}

// Sets entry i of page p, where that page lies in the window, and else nothing: one write of the budget.
pub fn write(mem: &mut [u8], left: &mut u64, origin: u64, p: u64, i: u64, w: u64)
    ensures { Wrote origin (write p i w ∷ []) left.old left.new mem.old mem.new }
{
    if spend(left) {
        put(mem, origin, p, i, w);
    }
}

// Clears page p, entry by entry.
pub fn clear(mem: &mut [u8], left: &mut u64, origin: u64, p: u64)
    ensures { Wrote origin (zeros p 512) left.old left.new mem.old mem.new }
{
    for i in 0..512 {
        write(mem, left, origin, p, i, 0);
    }
}
