use crate::case::{Again, Case, Mark};
use std::alloc::Global;
use std::fmt;
use sw_outside::{FailingPut, NoMemory};

/// What is changed in a run of a case.
#[derive(Clone, Copy, Debug, PartialEq, Eq)]
pub enum Change {
    Nothing,
    /// Each read of the input gives at most so many bytes.
    Pieces(usize),
    /// The input ends after so many bytes.
    Cut(usize),
    /// The read of this number fails as well.
    FailingRead(u64),
    /// This put fails as well.
    FailingPut(FailingPut),
}

/// What is wanted of a run that is changed.
#[derive(Clone, Copy, Debug, PartialEq, Eq)]
pub enum Ending {
    /// What the case wants.
    AsWanted,
    /// So many bytes of the output that the case wants, and the end of the input between requests.
    Complete(usize),
    /// So many bytes of it, and then the refusal of a rest that is no request.
    BadInput(usize),
    /// So many bytes of it, and then a read that failed.
    ReadFault(usize),
    /// So many bytes of it, and then a write that failed.
    WriteFault(usize),
}

/// One way in which a case is run, and what is wanted then.
#[derive(Clone, Copy, Debug, PartialEq, Eq)]
pub struct Way {
    pub change: Change,
    pub ending: Ending,
}

impl fmt::Display for Change {
    fn fmt<W: fmt::Write>(&self, f: &mut fmt::Formatter<W>) -> fmt::Result {
        match self {
            Change::Nothing => Ok(()),
            Change::Pieces(size) => write!(f, " in pieces of {size}"),
            Change::Cut(length) => write!(f, " cut after {length} bytes"),
            Change::FailingRead(call) => write!(f, " with read {call} failing"),
            Change::FailingPut(put) => {
                let call = put.call;
                write!(f, " with put {call} failing")
            }
        }
    }
}

/// All ways in which a case is run: as it stands, and then as its lines say.
pub fn ways(alloc: Global, case: &Case) -> Result<Vec<Way>, NoMemory> {
    let mut ways = Vec::new(alloc);
    add(&mut ways, Change::Nothing, Ending::AsWanted)?;
    for again in &case.script.again {
        match again {
            Again::Pieces { from, to } => add_pieces(&mut ways, *from, *to)?,
            Again::Cuts(marks) => add_cuts(&mut ways, marks, case.input.len())?,
            Again::FailingReads(lengths) => add_failing_reads(&mut ways, lengths)?,
            Again::FailingPuts { taken, starts } => add_failing_puts(&mut ways, *taken, starts)?,
        }
    }
    Ok(ways)
}

fn add(ways: &mut Vec<Way>, change: Change, ending: Ending) -> Result<(), NoMemory> {
    Ok(ways.push(Way { change, ending })?)
}

fn add_pieces(ways: &mut Vec<Way>, from: usize, to: usize) -> Result<(), NoMemory> {
    for size in from..to {
        add(ways, Change::Pieces(size), Ending::AsWanted)?;
    }
    add(ways, Change::Pieces(to), Ending::AsWanted)
}

fn add_cuts(ways: &mut Vec<Way>, marks: &[Mark], length: usize) -> Result<(), NoMemory> {
    for cut in 0..length {
        add(ways, Change::Cut(cut), ending_at(marks, cut))?;
    }
    Ok(())
}

/// What is wanted of an input that ends after so many bytes: the last place that isn't behind them says it.
fn ending_at(marks: &[Mark], cut: usize) -> Ending {
    let mut last = Mark {
        input: 0,
        output: 0,
        is_between: true,
    };
    for mark in marks {
        if mark.input <= cut {
            last = *mark;
        }
    }
    if last.is_between && last.input == cut {
        Ending::Complete(last.output)
    } else {
        Ending::BadInput(last.output)
    }
}

/// Each read fails in turn. One more than there are isn't made, so it changes nothing.
fn add_failing_reads(ways: &mut Vec<Way>, lengths: &[usize]) -> Result<(), NoMemory> {
    let mut call: u64 = 0;
    for length in lengths {
        add(ways, Change::FailingRead(call), Ending::ReadFault(*length))?;
        call = call.saturating_add(1);
    }
    add(ways, Change::FailingRead(call), Ending::AsWanted)
}

/// Each put fails in turn. One more than there are isn't made, so it changes nothing.
fn add_failing_puts(ways: &mut Vec<Way>, taken: usize, starts: &[usize]) -> Result<(), NoMemory> {
    let mut call: u64 = 0;
    for start in starts {
        let length = start.saturating_add(taken);
        let change = Change::FailingPut(FailingPut { call, taken });
        add(ways, change, Ending::WriteFault(length))?;
        call = call.saturating_add(1);
    }
    let change = Change::FailingPut(FailingPut { call, taken });
    add(ways, change, Ending::AsWanted)
}
