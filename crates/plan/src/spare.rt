// Pages that a book lists as free may, where it is damaged, be listed twice, or be tables of the way already: such a supply is refused.
ghost use Rattle.std.specs.Prelude.{◌≡◌};
ghost use Rattle.plan.specs.Map as the;

use crate::Reason;
use crate::descent::Way;
use crate::maps::NewTables;

// Is page p one of the tables that the way came through?
fn way_has(w: Way, p: u64) -> bool
    ensures { result ≡ the.way_has w p }
{
    if p == w.a {
        return true;
    }
    if 3 <= w.level {
        return false;
    }
    if p == w.b {
        return true;
    }
    if 2 <= w.level {
        return false;
    }
    if p == w.c {
        return true;
    }
    if 1 <= w.level {
        return false;
    }
    p == w.d
}

// Do the pages that are needed differ, from each other and from the tables of the way?
fn apart(w: Way, f: NewTables) -> bool
    ensures { result ≡ the.apart_of w f }
{
    if f.need <= 0 {
        return true;
    }
    if way_has(w, f.a) {
        return false;
    }
    if f.need <= 1 {
        return true;
    }
    if f.a == f.b {
        return false;
    }
    if way_has(w, f.b) {
        return false;
    }
    if f.need <= 2 {
        return true;
    }
    if f.a == f.c {
        return false;
    }
    if f.b == f.c {
        return false;
    }
    if way_has(w, f.c) {
        return false;
    }
    true
}

// These pages, where that is so.
pub fn spared(w: Way, f: NewTables) -> Result<NewTables, Reason>
    ensures { result ≡ the.spared_of w (Ok f) }
{
    if apart(w, f) {
        return Ok(f);
    }
    Err(Reason::BadList)
}
