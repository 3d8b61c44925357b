// What C and Rust call: plain numbers in, and a struct of plain numbers out. A space is four numbers in bytes: the physical address
// of the window's first byte, that of the pool's first page, how many pages the pool has, and the physical address of the root table.
// Rights are bits: bit 0 writable, bit 1 user, bit 2 not executable. The header's tp_map and its like call these, with one struct for a space.
#![tactic(auto)]

ghost use Rattle.std.specs.Prelude.{◌≡◌};
ghost use Rattle.abi.specs.Answers as the;
ghost use Rattle.abi.specs.Calls as call;
ghost use Rattle.abi.specs.Entries as one;

mod answers;
mod entries;
mod maps;
mod numbers;
mod refusal;
mod sites;
mod up_to;

pub use answers::{Counts, Created, LookedUp, Mapped, Protected, Told, Unmapped};
pub use entries::Said;
use sites::Numbers;

// Makes a pool of these pages, with its book and an empty root.
#[unsafe(no_mangle)]
pub extern "C" fn tp_raw_create(mem: &mut [u8], origin: u64, pool: u64, pages: u64) -> Created
    ensures answer { result ≡ call.create_answer mem.old origin pool pages }
    ensures bytes { mem.new ≡ call.create_bytes mem.old origin pool pages }
{
    let mut left: u64 = word::ENDLESS;
    up_to::create_up_to(mem, &mut left, origin, pool, pages).into()
}

// Maps the frame at the base, with these rights.
#[unsafe(no_mangle)]
pub extern "C" fn tp_raw_map(
    mem: &mut [u8],
    origin: u64,
    pool: u64,
    pages: u64,
    root: u64,
    base: u64,
    frame: u64,
    size: u64,
    rights: u64,
) -> Mapped
    ensures answer { result ≡ call.map_answer mem.old (call.ask base frame size rights) (call.map_site origin pool pages root base frame size rights) }
    ensures bytes { mem.new ≡ call.map_bytes mem.old (call.ask base frame size rights) (call.map_site origin pool pages root base frame size rights) }
{
    let at = Numbers {
        origin,
        pool,
        pages,
        root,
    };
    let mut left: u64 = word::ENDLESS;
    maps::map_up_to(mem, &mut left, at, base, frame, size, rights).into()
}

// Unmaps the page that starts exactly at the base, and sets aside the tables that become empty.
#[unsafe(no_mangle)]
pub extern "C" fn tp_raw_unmap(
    mem: &mut [u8],
    origin: u64,
    pool: u64,
    pages: u64,
    root: u64,
    base: u64,
) -> Unmapped
    ensures answer { result ≡ call.unmap_answer mem.old base (call.site_of origin pool pages root) }
    ensures bytes { mem.new ≡ call.unmap_bytes mem.old base (call.site_of origin pool pages root) }
{
    let at = Numbers {
        origin,
        pool,
        pages,
        root,
    };
    let mut left: u64 = word::ENDLESS;
    up_to::unmap_up_to(mem, &mut left, at, base).into()
}

// Gives the page that starts exactly at the base other rights; the machine's marks stay.
#[unsafe(no_mangle)]
pub extern "C" fn tp_raw_protect(
    mem: &mut [u8],
    origin: u64,
    pool: u64,
    pages: u64,
    root: u64,
    base: u64,
    rights: u64,
) -> Protected
    ensures answer { result ≡ call.protect_answer mem.old base (the.rights_in rights) (call.protect_site origin pool pages root rights) }
    ensures bytes { mem.new ≡ call.protect_bytes mem.old base (the.rights_in rights) (call.protect_site origin pool pages root rights) }
{
    let at = Numbers {
        origin,
        pool,
        pages,
        root,
    };
    let mut left: u64 = word::ENDLESS;
    up_to::protect_up_to(mem, &mut left, at, base, rights).into()
}

// The caller reports that every cache was told of what had happened when this ticket was handed out.
#[unsafe(no_mangle)]
pub extern "C" fn tp_raw_told(
    mem: &mut [u8],
    origin: u64,
    pool: u64,
    pages: u64,
    root: u64,
    ticket: u64,
) -> Told
    ensures answer { result ≡ call.told_answer mem.old ticket (call.site_of origin pool pages root) }
    ensures bytes { mem.new ≡ call.told_bytes mem.old ticket (call.site_of origin pool pages root) }
{
    let at = Numbers {
        origin,
        pool,
        pages,
        root,
    };
    let mut left: u64 = word::ENDLESS;
    up_to::told_up_to(mem, &mut left, at, ticket).into()
}

// How many pages of the pool are free, set aside and tables, and the ticket of this moment.
#[unsafe(no_mangle)]
pub extern "C" fn tp_raw_state(mem: &[u8], origin: u64, pool: u64, pages: u64, root: u64) -> Counts
    ensures answer { result ≡ call.state_answer mem.now (call.site_of origin pool pages root) }
{
    let at = Numbers {
        origin,
        pool,
        pages,
        root,
    };
    up_to::state(mem, at).into()
}

// What the address means in the tables below this root, for any bytes and any numbers; the root is given as in CR3.
#[unsafe(no_mangle)]
pub extern "C" fn tp_raw_look_up(mem: &[u8], origin: u64, root: u64, va: u64) -> LookedUp
    ensures answer { result ≡ call.look_up_answer mem.now origin root va }
{
    tablepath::look_up(mem, origin, root, va).into()
}

// What one entry of a table says, for any bytes and any numbers; the table's address is given as in CR3, and levels count what lies below.
#[unsafe(no_mangle)]
pub extern "C" fn tp_raw_entry(mem: &[u8], origin: u64, table: u64, level: u64, index: u64) -> Said
    ensures answer { result ≡ one.entry_answer mem.now origin table level index }
{
    if 4 <= level {
        return entries::bare(2);
    }
    match word::read(mem, origin, entry::table(table), index) {
        Some(w) => entries::of_word(level, w),
        None => entries::bare(2),
    }
}
