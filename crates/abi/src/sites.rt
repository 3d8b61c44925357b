// The space that C's numbers name, by page numbers, or why there is none.
ghost use Rattle.std.specs.Prelude.{◌≡◌};
ghost use Rattle.abi.specs.Calls as call;
ghost use Rattle.abi.specs.Inner as inner;

use crate::refusal::Refusal;
use pool::Space;

// The numbers that name a space at every call, in bytes.
#[derive(Clone, Copy)]
pub struct Numbers {
    pub origin: u64,
    pub pool: u64,
    pub pages: u64,
    pub root: u64,
}

impl Numbers {
    // By page numbers.
    pub fn space(self) -> Result<Space, Refusal>
        ensures { inner.site_at self ≡ inner.numbered result }
    {
        space(self.origin, self.pool, self.pages, self.root)
    }
}

// The same, for map, which takes the four numbers one by one.
pub fn space(origin: u64, pool: u64, pages: u64, root: u64) -> Result<Space, Refusal>
    ensures { call.site_of origin pool pages root ≡ inner.numbered result }
{
    if pool % 4096 != 0 {
        return Err(Refusal::PoolUnaligned);
    }
    if root % 4096 != 0 {
        return Err(Refusal::RootUnaligned);
    }
    Ok(Space {
        origin,
        first: pool / 4096,
        pages,
        root: root / 4096,
    })
}
