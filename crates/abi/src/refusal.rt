// Why a call is refused: an operation's own reason, or one of the calls themselves.
ghost use Rattle.std.specs.Prelude.{◌≡◌};
ghost use Rattle.plan.specs.declared.Reason.TheVariants.{Pool};
ghost use Rattle.abi.specs.declared.refusal.Refusal.TheVariants.{Operation};
ghost use Rattle.abi.specs.Inner.{of_report};

use tablepath::NotReleased;

#[derive(Clone, Copy, Debug, PartialEq, Eq)]
pub enum Refusal {
    // the pool's reasons are among these
    Operation(plan::Reason),
    PoolUnaligned,
    RootUnaligned,
    // a bit is set that means nothing
    Rights,
    // a ticket above the present one
    Unknown,
    // no ticket is left
    Spent,
}

impl From<plan::Reason> for Refusal {
    ghost from_gives = { λ r y. y ≡ Operation r };

    fn from(r: plan::Reason) -> Refusal {
        Refusal::Operation(r)
    }
}

impl From<pool::Reason> for Refusal {
    ghost from_gives = { λ r y. y ≡ Operation (Pool r) };

    fn from(r: pool::Reason) -> Refusal {
        Refusal::Operation(r.into())
    }
}

impl From<NotReleased> for Refusal {
    ghost from_gives = { λ r y. y ≡ of_report r };

    fn from(r: NotReleased) -> Refusal {
        match r {
            NotReleased::Pool(y) => y.into(),
            NotReleased::Unknown => Refusal::Unknown,
            NotReleased::Spent => Refusal::Spent,
        }
    }
}
