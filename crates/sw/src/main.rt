//! `sw`: the storage nodes of all devices of a ring, in one process.
//!
//! `main` makes the host's ends and ends with the status of `sw_cluster`'s `cluster`, which carries the theorem of the whole program. What
//! `main` itself does is under no contract: the stored runs show it.
#![tactic(auto)]

ghost use Rattle.std.specs.Prelude.{◌≡◌, ◌≤◌, ℕ, false, length};

use std::io::ErrorKind;
use std::process::ExitCode;
use std::{env, io, process};
use sw_cluster::{DOOR_FAULT, NO_MEMORY, STORE_FAULT, cluster, report};
use sw_core::Trail;
use sw_outside::{Doors, HostClock, ReaderSource, WriterSink};
use sw_store::{HostStores, LineNotes, NoNotes, Notes, TcpDoors};
use sw_stores::{RingStores, Stores};

fn main(rt: HostRuntime) -> ExitCode {
    let words = match words_given(&rt) {
        Ok(words) => words,
        Err(error) if error.kind() == ErrorKind::OutOfMemory => {
            report(&mut WriterSink::new(rt.stderr()), NO_MEMORY);
            return ExitCode::from(NO_MEMORY);
        }
        // A word that isn't UTF-8 is a word of no command.
        Err(_) => Vec::new(rt.alloc()),
    };
    let status = if is_serve(&words) {
        serve(&rt, &words)
    } else {
        let mut doors = TcpDoors::new(&rt, &NoNotes);
        run(&rt, &words, &mut RingStores::new(&rt), &mut doors)
    };
    ExitCode::from(status)
}

/// Runs the command over the host's folders and sockets. Which call on the host failed, and why, is told on the error sink besides: where that ended the
/// command, behind the line of its status.
fn serve(rt: &HostRuntime, words: &[String]) -> u8 {
    let notes = LineNotes::new(rt.stderr(), rt);
    let mut stores = HostStores::new(rt, &notes, process::id(rt.process()));
    let mut doors = TcpDoors::new(rt, &notes);
    let status = run(rt, words, &mut stores, &mut doors);
    if status == STORE_FAULT || status == DOOR_FAULT {
        notes.tell_now();
    }
    notes.tell_left_out();
    status
}

/// Whether the command is one that keeps its volumes on the host.
fn is_serve(words: &[String]) -> bool {
    words.first().is_some_and(|word| word.as_str() == "serve")
}

/// Runs the command over these stores and doors, and the host's other ends. It listens only for `serve`.
fn run<S: Stores, N: Doors>(rt: &HostRuntime, words: &[String], stores: &mut S, doors: &mut N) -> u8
    requires home { (d s : ℕ) → S.out stores.old d s ≡ false }
    requires doors { length (N.finished doors.old) ≤ length (N.accepts doors.old) }
{
    let mut source = ReaderSource::new(rt.stdin());
    let mut out = WriterSink::new(rt.stdout());
    let mut errors = WriterSink::new(rt.stderr());
    let mut clock = HostClock::new(rt);
    let mut trail = Trail::new(rt.alloc());
    cluster(
        rt.alloc(),
        words,
        &mut source,
        &mut out,
        &mut errors,
        stores,
        doors,
        &mut clock,
        &mut trail,
    )
}

/// The words of the command line, without the program's own name.
fn words_given(rt: &HostRuntime) -> io::Result<Vec<String>> {
    Ok(env::args(rt)?.skip(1).collect(rt.alloc())?)
}
