//! `sw_cases`: worked runs of the program that are files, each compared with what is wanted of it.
//!
//! A case is a folder: what the top call of `sw_cluster` is handed (words, rings, volumes with their files, input, the sizes in which it
//! comes, connections that come, calls that fail, readings of the clock), and what is wanted of it (output, error line, status, what is written
//! to connections, trail, files). Beside the cases, `data/README.md` says how each is written. A new case is a new folder, and costs no proof.
//!
//! [`case`] has what a case is, and `connection` what one of its connections is; `script` reads its file `case`, `folder` its folder, [`way`] lists the
//! ways in which it is run, `run` makes one run over memory, whose volumes `volumes` makes and looks through and whose doors [`connections`] makes,
//! and [`comparison`] finds the first difference. What is proved is safety and that every run ends; what the program prints is shown by its
//! stored run.
#![tactic(auto)]

mod case;
mod case_error;
mod comparison;
mod connection;
mod connection_line;
mod connections;
mod difference;
mod folder;
mod line;
mod run;
mod script;
mod tally;
mod volume_line;
mod volumes;
mod way;

use case_error::CaseError;
use std::env;
use std::process::ExitCode;
use tally::{Tally, run_all};

/// Runs all cases of the folder that the first word names, else of the present one. The status is 0 where all are as wanted, 1 where one
/// isn't, and 2 where one couldn't be read or the report not written.
fn main(rt: HostRuntime) -> ExitCode {
    match run_cases(&rt) {
        Ok(tally) if tally.same == tally.cases => ExitCode::from(0),
        Ok(_) => ExitCode::from(1),
        Err(error) => {
            let _ = rt.eprintln(error);
            ExitCode::from(2)
        }
    }
}

fn run_cases(rt: &HostRuntime) -> Result<Tally, CaseError> {
    match env::args(rt)?.nth(1) {
        Some(folder) => run_all(rt, &folder),
        None => run_all(rt, "."),
    }
}
