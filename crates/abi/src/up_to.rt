// The other operations; those that write, up to so many writes.
ghost use Rattle.std.specs.Prelude.{◌≡◌};
ghost use Rattle.word.specs.Writes.{Wrote};
ghost use Rattle.abi.specs.Answers as the;
ghost use Rattle.abi.specs.Calls as call;
ghost use Rattle.abi.specs.Inner as inner;

use crate::refusal::Refusal;
use crate::sites::Numbers;
use plan::Reason;
use pool::Counts;
use tablepath::{Altered, Gone};

// Create, up to so many writes.
pub fn create_up_to(
    mem: &mut [u8],
    left: &mut u64,
    origin: u64,
    pool: u64,
    pages: u64,
) -> Result<u64, Refusal>
    ensures answer { inner.created result ≡ call.create_answer mem.old origin pool pages }
    ensures low { inner.LowRoot result }
    ensures order { Wrote origin (call.create_writes mem.old origin pool pages) left.old left.new mem.old mem.new }
{
    if origin % 4096 != 0 {
        return Err(pool::Reason::OriginUnaligned.into());
    }
    if mem.len() % 4096 != 0 {
        return Err(pool::Reason::LengthUnaligned.into());
    }
    if pool % 4096 != 0 {
        return Err(Refusal::PoolUnaligned);
    }
    Ok(tablepath::create_up_to(mem, left, origin, pool / 4096, pages)?)
}

// Unmap, up to so many writes.
pub fn unmap_up_to(mem: &mut [u8], left: &mut u64, at: Numbers, base: u64) -> Result<Gone, Refusal>
    ensures answer { inner.unmapped result ≡ call.unmap_answer mem.old base (inner.site_at at) }
    ensures order { call.InOrder (inner.site_at at) (call.unmap_writes mem.old base) left.old left.new mem.old mem.new }
{
    Ok(tablepath::unmap_up_to(mem, left, at.space()?, base)?)
}

// Protect, up to so many writes.
pub fn protect_up_to(
    mem: &mut [u8],
    left: &mut u64,
    at: Numbers,
    base: u64,
    rights: u64,
) -> Result<Altered, Refusal>
    ensures answer { inner.protected result ≡ call.protect_answer mem.old base (the.rights_in rights) (call.protect_site at.origin at.pool at.pages at.root rights) }
    ensures order { call.InOrder (call.protect_site at.origin at.pool at.pages at.root rights) (call.protect_writes mem.old base (the.rights_in rights)) left.old left.new mem.old mem.new }
{
    if 8 <= rights {
        return Err(Refusal::Rights);
    }
    let granted = crate::answers::rights(rights);
    if plan::write_execute(granted) {
        return Err(Reason::WriteExecute.into());
    }
    Ok(tablepath::protect_up_to(mem, left, at.space()?, base, granted)?)
}

// Told, up to so many writes.
pub fn told_up_to(mem: &mut [u8], left: &mut u64, at: Numbers, ticket: u64) -> Result<u64, Refusal>
    ensures answer { inner.told result ≡ call.told_answer mem.old ticket (inner.site_at at) }
    ensures order { call.InOrder (inner.site_at at) (call.told_writes mem.old ticket) left.old left.new mem.old mem.new }
{
    Ok(tablepath::told_up_to(mem, left, at.space()?, ticket)?)
}

// State, which writes nothing.
pub fn state(mem: &[u8], at: Numbers) -> Result<Counts, Refusal>
    ensures { inner.counted result ≡ call.state_answer mem.now (inner.site_at at) }
{
    Ok(tablepath::state(mem, at.space()?)?)
}
