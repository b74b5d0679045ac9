use crate::case::Case;
use crate::case_error::CaseError;
use crate::comparison::compare;
use crate::difference::Difference;
use crate::folder::{names_in, read_case, read_rings};
use crate::run::run;
use crate::way::{Change, ways};
use std::alloc::Global;
use std::rt::Files;
use sw_outside::NoMemory;
use sw_stores::RingText;

/// How many cases were run, and how many of them were as wanted in every way.
#[derive(Clone, Copy, Debug, PartialEq, Eq)]
pub struct Tally {
    pub cases: u64,
    pub same: u64,
}

/// Runs all cases of the folder `cases` that stands in this folder, in byte order of their names, with the rings of the folder `rings`. Prints a
/// line for each that differs, with its first difference, and last how many were as wanted.
///
/// The error is the first case that can't be read; none after it is run then.
pub fn run_all<R: Files + Print + AllocGlobal + Clone + Drop>(
    rt: &R,
    folder: &str,
) -> Result<Tally, CaseError> {
    let alloc = rt.alloc();
    let rings = read_rings(rt, &format!(in alloc; "{folder}/rings")?)?;
    let cases = format!(in alloc; "{folder}/cases")?;
    let mut tally = Tally { cases: 0, same: 0 };
    for name in names_in(rt, &cases)? {
        let case = read_case(rt, &cases, &name)?;
        tally.cases = tally.cases.saturating_add(1);
        if is_as_wanted(rt, &case, &rings)? {
            tally.same = tally.same.saturating_add(1);
        }
    }
    let Tally { cases, same } = tally;
    println!(rt; "{same} of {cases} cases are as wanted")?;
    Ok(tally)
}

/// Whether a case is as wanted in every way. Prints the first difference where it isn't.
fn is_as_wanted<R: Print + AllocGlobal>(
    rt: &R,
    case: &Case,
    rings: &[RingText],
) -> Result<bool, CaseError> {
    let Some((change, difference)) = first_difference(rt.alloc(), case, rings)? else {
        return Ok(true);
    };
    let name = &case.name;
    println!(rt; "{name}{change}: {difference}")?;
    Ok(false)
}

/// The first way in which a case isn't as wanted, with the first difference.
fn first_difference(
    alloc: Global,
    case: &Case,
    rings: &[RingText],
) -> Result<Option<(Change, Difference)>, NoMemory> {
    for way in ways(alloc, case)? {
        let ended = run(alloc, case, rings, way.change)?;
        if let Some(found) = compare(alloc, case, rings, way.ending, &ended)? {
            return Ok(Some((way.change, found)));
        }
    }
    Ok(None)
}
