// Map, up to so many writes. Most maps need no table: that is tried at once, in a piece of its own for each size, before the whole.
// The pieces take plain numbers: as one struct those of a space cost a map up to 13 instructions more, those of a page up to 30.
ghost use Rattle.std.specs.Prelude.{◌≡◌};
ghost use Rattle.abi.specs.Calls as call;
ghost use Rattle.abi.specs.Inner as inner;

use crate::answers::rights as granted;
use crate::refusal::Refusal;
use crate::sites::{Numbers, space};
use plan::{Asked, Reason};

// Map, whatever is asked.
fn whole(
    mem: &mut [u8],
    left: &mut u64,
    origin: u64,
    pool: u64,
    pages: u64,
    root: u64,
    base: u64,
    frame: u64,
    size: u64,
    rights: u64,
) -> Result<u64, Refusal>
    ensures answer { inner.mapped result ≡ call.map_answer mem.old (call.ask base frame size rights) (call.asked_site origin pool pages root (call.ask base frame size rights)) }
    ensures order { call.InOrder (call.asked_site origin pool pages root (call.ask base frame size rights)) (call.map_writes mem.old (call.ask base frame size rights)) left.old left.new mem.old mem.new }
{
    let q = Asked {
        base,
        frame,
        size,
        rights: granted(rights),
    };
    match space(origin, pool, pages, root) {
        Ok(space) => Ok(tablepath::map_up_to(mem, left, space, q)?),
        // what is asked is looked at before the space
        Err(y) => {
            plan::allowed(q)?;
            Err(y)
        }
    }
}

// A page of level n, where no table is missing.
fn at_once(
    mem: &mut [u8],
    left: &mut u64,
    origin: u64,
    pool: u64,
    pages: u64,
    root: u64,
    q: Asked,
    n: u64,
) -> Option<Result<u64, Reason>>
    ensures { call.AtOnce left.old left.new mem.old mem.new q (call.site_of origin pool pages root) result }
{
    plan::at_once(mem, left, space(origin, pool, pages, root).ok()?, q, n)
}

// Map, for pages of level n.
fn sized(
    mem: &mut [u8],
    left: &mut u64,
    origin: u64,
    pool: u64,
    pages: u64,
    root: u64,
    base: u64,
    frame: u64,
    size: u64,
    rights: u64,
    n: u64,
) -> Result<u64, Refusal>
    ensures answer { inner.mapped result ≡ call.map_answer mem.old (call.ask base frame size rights) (call.asked_site origin pool pages root (call.ask base frame size rights)) }
    ensures order { call.InOrder (call.asked_site origin pool pages root (call.ask base frame size rights)) (call.map_writes mem.old (call.ask base frame size rights)) left.old left.new mem.old mem.new }
{
    let q = Asked {
        base,
        frame,
        size,
        rights: granted(rights),
    };
    match at_once(mem, left, origin, pool, pages, root, q, n) {
        Some(a) => Ok(a?),
        None => whole(
            mem, left, origin, pool, pages, root, base, frame, size, rights,
        ),
    }
}

// Map, up to so many writes. Each size has a piece of its own.
pub fn map_up_to(
    mem: &mut [u8],
    left: &mut u64,
    at: Numbers,
    base: u64,
    frame: u64,
    size: u64,
    rights: u64,
) -> Result<u64, Refusal>
    ensures answer { inner.mapped result ≡ call.map_answer mem.old (call.ask base frame size rights) (call.map_site at.origin at.pool at.pages at.root base frame size rights) }
    ensures order { call.InOrder (call.map_site at.origin at.pool at.pages at.root base frame size rights) (call.map_writes mem.old (call.ask base frame size rights)) left.old left.new mem.old mem.new }
{
    if 8 <= rights {
        return Err(Refusal::Rights);
    }
    let Numbers {
        origin,
        pool,
        pages,
        root,
    } = at;
    match size {
        4096 => sized(
            mem, left, origin, pool, pages, root, base, frame, 4096, rights, 0,
        ),
        2097152 => sized(
            mem, left, origin, pool, pages, root, base, frame, 2097152, rights, 1,
        ),
        1073741824 => sized(
            mem, left, origin, pool, pages, root, base, frame, 1073741824, rights, 2,
        ),
        _ => whole(
            mem, left, origin, pool, pages, root, base, frame, size, rights,
        ),
    }
}
