ghost use Rattle.std.specs.Prelude.{◌≡◌};
ghost use Rattle.sw_outside.specs.Failing.{failure_at};

/// A call of a volume or keeper in memory that is to fail: its number, counted from 0 over all calls, and whether it makes its change all
/// the same.
#[derive(Clone, Copy, Debug, PartialEq, Eq)]
pub struct FailingCall {
    pub call: u64,
    pub made: bool,
}

/// Whether the failure of a call leaves its change made, where the call of this number is to fail.
pub fn failure_of(failing: &[FailingCall], call: u64) -> Option<bool>
    ensures { result ≡ failure_at failing.now call }
{
    failing
        .iter()
        .find(|failing| failing.call == call)
        .map(|failing| failing.made)
}
