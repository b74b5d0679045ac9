//! Runs of bytes that are passed over: each byte is dropped as it comes, and only counted.
ghost use Rattle.std.specs.Prelude.{◌≡◌, ℕ, ◌≤◌, None, Ok, Err, IfOk, IfSome, OnErr, OnOk};
ghost use Rattle.std.specs.List.{prefix_len};
ghost use Rattle.std.specs.Io.KnownBytes.{prepend_known};
ghost use Rattle.httparse.specs.Pieces.{Stops};
ghost use Rattle.sw_http.specs.Reads.{ReadsWhile};
ghost use Rattle.sw_http.specs.Input.{HasFailed, HasNoRun, IsRun, TakesFew, TakesRun, test_of, IfSeen, IsAllRun};

use crate::held::Held;
use crate::input::ReadError;
use sw_outside::Source;

/// The bytes that a run is made of.
#[derive(Clone, Copy, Debug, PartialEq, Eq)]
pub(crate) enum Class {
    /// CR and LF.
    LineEnds,
    /// Spaces and tabs.
    Blanks,
    /// What may stand in a chunk extension: all but CR and LF.
    Extension,
}

/// What stands in front of the input behind a run.
pub(crate) enum Run {
    /// A byte that ends it, and it had so many bytes. That byte is held.
    Begun(usize),
    /// Nothing.
    Ended,
    /// It has more bytes than it may.
    TooMany,
}

fn passes(class: Class, byte: u8) -> bool
    ensures { result ≡ test_of class byte }
{
    match class {
        Class::LineEnds => byte == b'\r' || byte == b'\n',
        Class::Blanks => byte == b' ' || byte == b'\t',
        Class::Extension => !(byte == b'\r' || byte == b'\n'),
    }
}

/// How many bytes of the class stand in front.
fn run_len(class: Class, bytes: &[u8]) -> usize
    ensures { result ≡ prefix_len (test_of class) bytes.now }
{
    bytes.iter().take_while(|b| passes(class, **b)).count()
}

/// Takes a run of at most `limit` bytes off the front of the input.
pub(crate) fn skip_run<R: Source>(
    class: Class,
    limit: usize,
    held: &mut Held,
    source: &mut R,
) -> Result<Run, ReadError>
    requires { limit ≤ 1_073_741_824 }
    ensures run { IfOk result (IsRun (test_of class) limit (prepend_known held.old (R.left source.old)) (prepend_known held.new (R.left source.new)) held.new
        (R.left source.new)) }
    ensures kept { OnErr result (TakesFew (test_of class) limit (prepend_known held.old (R.left source.old)) (prepend_known held.new (R.left source.new))) }
    ensures sound { OnOk result (R.faults source.new ≡ R.faults source.old) }
    ensures starved { result ≡ Err ReadError.NoMemory → R.faults source.new ≡ R.faults source.old }
    ensures failed { result ≡ Err ReadError.Failed → HasFailed (R.faults source.old) (R.faults source.new) }
    ensures cut { OnErr result (IfSeen (prepend_known held.old (R.left source.old)) (R.left source.new) (IsAllRun (test_of class) limit)) }
    ensures reads { ReadsWhile R.left R.calls source.old source.new (prepend_known held.old (R.left source.old)) (IsAllRun (test_of class) limit) }
    ensures source_number { R.number source.new ≡ R.number source.old }
{
    let mut skipped = 0;
    loop {
        let run = run_len(class, held.rest());
        if run > limit - skipped {
            return Ok(Run::TooMany);
        }
        skipped += run;
        held.advance(run);
        if !held.rest().is_empty() {
            return Ok(Run::Begun(skipped));
        }
        if held.read_more(source)? == 0 {
            return Ok(Run::Ended);
        }
    }
}

/// Takes such a run and answers how many bytes it had. It answers `None` where it has more than `limit` or the input ends in it.
pub(crate) fn take_run<R: Source>(
    class: Class,
    limit: usize,
    held: &mut Held,
    source: &mut R,
) -> Result<Option<usize>, ReadError>
    requires { limit ≤ 1_073_741_824 }
    ensures taken { IfOk result (λ found. IfSome found (TakesRun (test_of class) (prepend_known held.old (R.left source.old))
        (prepend_known held.new (R.left source.new)))) }
    ensures few { IfOk result (λ found. IfSome found (λ count. count ≤ limit)) }
    ensures stops { IfOk result (λ found. IfSome found (λ _. Stops (test_of class) held.new)) }
    ensures none { result ≡ Ok None → IfSome (prepend_known held.old (R.left source.old)) (HasNoRun (test_of class) limit) }
    ensures sound { OnOk result (R.faults source.new ≡ R.faults source.old) }
    ensures starved { result ≡ Err ReadError.NoMemory → R.faults source.new ≡ R.faults source.old }
    ensures failed { result ≡ Err ReadError.Failed → HasFailed (R.faults source.old) (R.faults source.new) }
    ensures cut { OnErr result (IfSeen (prepend_known held.old (R.left source.old)) (R.left source.new) (IsAllRun (test_of class) limit)) }
    ensures reads { ReadsWhile R.left R.calls source.old source.new (prepend_known held.old (R.left source.old)) (IsAllRun (test_of class) limit) }
    ensures source_number { R.number source.new ≡ R.number source.old }
{
    match skip_run(class, limit, held, source)? {
        Run::Begun(count) => Ok(Some(count)),
        Run::Ended => Ok(None),
        Run::TooMany => Ok(None),
    }
}
