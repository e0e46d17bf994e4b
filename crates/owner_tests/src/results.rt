// Results of calls whose values a test does not need.
ghost use Rattle.std.specs.Prelude.{◌≡◌, is_ok};

// Tests whether a call succeeded. It is generic, and drops the result, so that no caller's proof has to.
pub(crate) fn succeeded<T: Drop, E: Drop>(returned: Result<T, E>) -> bool
    ensures { result ≡ is_ok returned }
{
    returned.is_ok()
}
