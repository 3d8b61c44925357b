// The rights that no page gets.
ghost use Rattle.std.specs.Prelude.{◌≡◌};
ghost use Rattle.plan.specs.Rights as the;

use entry::Rights;

// Could a page with these rights be written and executed?
pub fn write_execute(r: Rights) -> bool
    ensures { result ≡ the.write_execute r }
{
    r.writable & !r.noexec
}
