use crate::case::Case;
use crate::connections::compare_connections;
use crate::difference::{Difference, Part};
use crate::run::{Ended, text_of};
use crate::way::Ending;
use std::alloc::Global;
use sw_core::Trail;
use sw_outside::NoMemory;
use sw_stores::RingText;

/// The refusal of a rest that is no request.
const REFUSAL: &[u8] = b"HTTP/1.1 400 Bad Request\r\nContent-Length: 0\r\n\r\n";

/// The first difference between what a run left and what is wanted of it: of the output, then of the error line, the status, the
/// port and the connections, the trail and the files.
pub fn compare(
    alloc: Global,
    case: &Case,
    rings: &[RingText],
    ending: Ending,
    ended: &Ended,
) -> Result<Option<Difference>, NoMemory> {
    let output = wanted_output(alloc, case, ending)?;
    if let Some(found) = Difference::between(alloc, Part::Output, &output, ended.output.bytes())? {
        return Ok(Some(found));
    }
    let line = wanted_line(alloc, case, ending)?;
    if let Some(found) = Difference::between(alloc, Part::ErrorLine, &line, ended.errors.bytes())? {
        return Ok(Some(found));
    }
    let wanted = wanted_status(case, ending);
    if wanted != ended.status {
        return Ok(Some(Difference::Status {
            wanted,
            came: ended.status,
        }));
    }
    if ending == Ending::AsWanted {
        compare_rest(alloc, case, rings, ended)
    } else {
        Ok(None)
    }
}

/// Compares what a run that is to end as the case wants leaves besides: the port, the connections, the trail, and then the files.
fn compare_rest(
    alloc: Global,
    case: &Case,
    rings: &[RingText],
    ended: &Ended,
) -> Result<Option<Difference>, NoMemory> {
    let found = compare_ports(alloc, case, ended.doors.port())?;
    if found.is_some() {
        return Ok(found);
    }
    let found = compare_connections(alloc, case, ended.doors.finished())?;
    if found.is_some() {
        return Ok(found);
    }
    let found = compare_trails(alloc, case, rings, &ended.trail)?;
    if found.is_some() {
        return Ok(found);
    }
    for (wanted, came) in case.script.files.iter().zip(&ended.files) {
        let part = Part::Files(wanted.device);
        let found = Difference::between(alloc, part, wanted.text.as_slice(), came.as_slice())?;
        if found.is_some() {
            return Ok(found);
        }
    }
    Ok(None)
}

/// Compares what the case says of the trail: its text, then the moments of requests and the number of steps.
fn compare_trails(
    alloc: Global,
    case: &Case,
    rings: &[RingText],
    trail: &Trail,
) -> Result<Option<Difference>, NoMemory> {
    if let Some(wanted) = &case.trail {
        let text = text_of(alloc, case, rings, trail)?;
        let found = Difference::between(alloc, Part::Trail, wanted, text.as_slice())?;
        if found.is_some() {
            return Ok(found);
        }
    }
    if let Some(wanted) = &case.script.moments {
        let found = Difference::between_numbers(
            alloc,
            Part::Moments,
            wanted,
            trail.moments.as_slice(),
        )?;
        if found.is_some() {
            return Ok(found);
        }
    }
    match case.script.steps {
        Some(wanted) => {
            let steps = trail.steps.as_slice().len() as u64;
            Difference::between_numbers(alloc, Part::Steps, &[wanted], &[steps])
        }
        None => Ok(None),
    }
}

/// Compares the port at which it was listened, where the case says it.
fn compare_ports(
    alloc: Global,
    case: &Case,
    came: Option<u16>,
) -> Result<Option<Difference>, NoMemory> {
    let Some(wanted) = &case.script.port else {
        return Ok(None);
    };
    match came {
        Some(port) => Difference::between_numbers(alloc, Part::Port, wanted, &[u64::from(port)]),
        None => Difference::between_numbers(alloc, Part::Port, wanted, &[]),
    }
}

fn wanted_output(alloc: Global, case: &Case, ending: Ending) -> Result<Vec<u8>, NoMemory> {
    let whole = case.output.as_slice();
    let length = match ending {
        Ending::AsWanted => whole.len(),
        Ending::Complete(length)
        | Ending::BadInput(length)
        | Ending::ReadFault(length)
        | Ending::WriteFault(length) => length,
    };
    let mut output = Vec::from_slice(alloc, &whole[..length.min(whole.len())])?;
    if let Ending::BadInput(_) = ending {
        output.extend_from_slice(REFUSAL)?;
    }
    Ok(output)
}

/// The line that is wanted on the error sink, with its line feed where there is one.
fn wanted_line(alloc: Global, case: &Case, ending: Ending) -> Result<Vec<u8>, NoMemory> {
    let text = match ending {
        Ending::AsWanted => case.script.error.as_str(),
        Ending::Complete(_) => "",
        Ending::BadInput(_) => "sw: bad input",
        Ending::ReadFault(_) => "sw: read fault",
        Ending::WriteFault(_) => "sw: write fault",
    };
    let mut line = Vec::from_slice(alloc, text.as_bytes())?;
    if !text.is_empty() {
        line.push(b'\n')?;
    }
    Ok(line)
}

fn wanted_status(case: &Case, ending: Ending) -> u8 {
    match ending {
        Ending::AsWanted => case.script.status,
        Ending::Complete(_) => 0,
        Ending::BadInput(_) => 8,
        Ending::ReadFault(_) => 1,
        Ending::WriteFault(_) => 4,
    }
}
