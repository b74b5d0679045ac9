ghost use Rattle.sw_core.specs.Worlds.{keeper_seen};
ghost use Rattle.std.specs.Prelude.{◌≡◌, ◌≢◌, ◌≤◌, ◌⊎◌, ℕ, true, false, [], length, map};
ghost use Rattle.std.specs.String.{string_bytes};
ghost use Rattle.sw_ring.specs.declared.bad_ring.BadRing.{BadRing};
ghost use Rattle.sw_ring.specs.declared.ring.Ring.{Ring};
ghost use Rattle.sw_outside.specs.Counts.{raised};
ghost use Rattle.sw_cluster.specs.Ending.{RunsRing};
ghost use Rattle.sw_cluster.specs.Locating.{Locates};
ghost use Rattle.sw_cluster.specs.Opening.{EndsWith, IsRingRefused};
ghost use Rattle.sw_cluster.specs.Report.{PutsLine, Reports, line_of as line_of_status, ring_line as line_of_ring};
ghost use Rattle.sw_cluster.specs.Rounds.{ServesRing};
ghost use Rattle.sw_cluster.specs.Statuses as statuses;
ghost use Rattle.sw_cluster.specs.Told.{counts, doors_told, input, output};
ghost use Rattle.sw_cluster.specs.Words.{account_word, are_run_words, are_where_words, container_word, object_word, ring_word};
ghost use Rattle.sw_words.specs.Serve.{IsServe};
ghost use Rattle.sw_words.specs.declared.serve.ServeOptions.{ServeOptions as ServeOptionsSeen};

use crate::locate::locate;
use crate::opening::{OpenFault, open_ring};
use crate::rounds::serve_connections;
use crate::running::run_session;
use crate::status::{BAD_RING, NO_MEMORY, STORE_FAULT, USAGE, line_of, ring_line};
use crate::words::{is_run, is_where, ring_of};
use std::alloc::Global;
use sw_clap_words::read_serve;
use sw_core::Trail;
use sw_outside::{Clock, Doors, NoMemory, Sink, Source};
use sw_stores::Stores;
use sw_words::ServeOptions;

/// Runs the command that the words of the command line name, without the program's own name, and answers its status.
///
/// `run RING` answers the requests that come from `source` and writes the replies to `out`. `where RING ACCOUNT [CONTAINER [OBJECT]]` writes
/// where a name is. `serve RING --port P --workers W --connections K --passes M` answers the requests of the connections that come to `doors`, and
/// writes to `out` once the port is open and once all were served. The ring is read from `stores`, from which `run` and `serve` also have their volumes
/// and to which they give them back, and the moments of requests from `clock`. `trail` is empty at the call; `run` leaves in it what came to the
/// devices and the moments of the requests. The line that tells a status other than 0 goes to `errors`; a fault there changes nothing.
pub fn cluster<R: Source, W: Sink, E: Sink, S: Stores, N: Doors, C: Clock>(
    alloc: Global,
    words: &[String],
    source: &mut R,
    out: &mut W,
    errors: &mut E,
    stores: &mut S,
    doors: &mut N,
    clock: &mut C,
    trail: &mut Trail,
) -> u8
    requires no_steps { trail.old.steps ≡ [] }
    requires no_moments { trail.old.moments ≡ [] }
    requires home { (d s : ℕ) → S.out stores.old d s ≡ false }
    requires doors { length (N.finished doors.old) ≤ length (N.accepts doors.old) }

    // The words are those of no command, and then nothing is read or written.
    ensures usage { are_run_words (map string_bytes words.now) ≡ false → are_where_words (map string_bytes words.now) ≡ false
        → ((options : ServeOptionsSeen) → ¬ IsServe (map string_bytes words.now) options) →
        (result ≡ statuses.usage) × (source.new ≡ source.old) × (out.new ≡ out.old) × (stores.new ≡ stores.old) × (clock.new ≡ clock.old) ×
        (trail.new ≡ trail.old) }

    // The replies to the requests of the input, for the ring that the stores have under the name, by the status. The stores are
    // asked for the ring once, then once for each volume, and once more for each whenever its device is restarted.
    ensures run { are_run_words (map string_bytes words.now) ≡ true → EndsWith (S.text stores.old (ring_word (map string_bytes words.now)))
        (S.faults stores.old) (S.faults stores.new)
        ((source.new ≡ source.old) × (out.new ≡ out.old) × (clock.new ≡ clock.old) × (trail.new ≡ trail.old)
        × (S.calls stores.new ≡ raised (S.calls stores.old)))
        (λ bad. PutsLine (output E.taken E.faults E.calls errors.old errors.new) (line_of_ring bad))
        (λ ring. RunsRing S.V.tells S.V.holds S.V.faults (keeper_seen S.K.tells S.K.holds S.K.faults) S.first ring (S.rests stores.old) (S.rests stores.new)
        (counts S.calls S.faults stores.old) (counts S.calls S.faults stores.new) (input R.left R.faults R.calls source.old source.new)
        (output W.taken W.faults W.calls out.old out.new)
        (C.readings clock.old) (C.readings clock.new) trail.new result)
        result }

    // Where the name is in that ring.
    ensures located { are_where_words (map string_bytes words.now) ≡ true →
        (source.new ≡ source.old) × (clock.new ≡ clock.old) × (trail.new ≡ trail.old) × EndsWith (S.text stores.old (ring_word (map string_bytes words.now)))
        (S.faults stores.old) (S.faults stores.new)
        (out.new ≡ out.old)
        (λ bad. PutsLine (output E.taken E.faults E.calls errors.old errors.new) (line_of_ring bad))
        (λ ring. (S.faults stores.new ≡ S.faults stores.old) × Locates ring (account_word (map string_bytes words.now))
        (container_word (map string_bytes words.now)) (object_word (map string_bytes words.now)) (output W.taken W.faults W.calls out.old out.new) result)
        result }

    // The connections that come, for that ring: each is answered, finished with its own status, and then all devices are restarted. Where there was no
    // memory to read the words, nothing was done. The input isn't read, and no trail kept.
    ensures served { (options : ServeOptionsSeen) → IsServe (map string_bytes words.now) options → (source.new ≡ source.old) × (trail.new ≡ trail.old)
        × (((result ≡ statuses.no_memory) × (out.new ≡ out.old) × (stores.new ≡ stores.old) × (doors.new ≡ doors.old) × (clock.new ≡ clock.old))
        ⊎ EndsWith (S.text stores.old (ring_word (map string_bytes words.now))) (S.faults stores.old) (S.faults stores.new)
        ((out.new ≡ out.old) × (doors.new ≡ doors.old) × (clock.new ≡ clock.old) × (S.calls stores.new ≡ raised (S.calls stores.old)))
        (λ bad. PutsLine (output E.taken E.faults E.calls errors.old errors.new) (line_of_ring bad))
        (λ ring. ServesRing S.V.tells S.V.holds S.V.faults (keeper_seen S.K.tells S.K.holds S.K.faults) S.first ring options.port options.connections
        (S.rests stores.old) (S.rests stores.new)
        (doors_told N.accepts N.finished N.calls N.faults doors.old) (doors_told N.accepts N.finished N.calls N.faults doors.new)
        (output W.taken W.faults W.calls out.old out.new) (C.readings clock.old) (C.readings clock.new)
        (counts S.calls S.faults stores.old) (counts S.calls S.faults stores.new) result)
        result) }
    ensures line { result ≢ statuses.bad_ring → Reports (output E.taken E.faults E.calls errors.old errors.new) (line_of_status result) }

    // Only `serve` has to do with doors.
    ensures doors { ((options : ServeOptionsSeen) → ¬ IsServe (map string_bytes words.now) options) → doors.new ≡ doors.old }

    // `where` asks the stores for the ring once, and for nothing else. At the end of every command they have all volumes.
    ensures asked { are_where_words (map string_bytes words.now) ≡ true → S.calls stores.new ≡ raised (S.calls stores.old) }
    ensures home { (d s : ℕ) → S.out stores.new d s ≡ false }
{
    if is_run(words) {
        return run(
            alloc,
            ring_of(words),
            source,
            out,
            errors,
            stores,
            clock,
            trail,
        );
    }
    if is_where(words) {
        return locate(alloc, words, out, errors, stores);
    }
    match read_serve(alloc, words) {
        Ok(Some(options)) => serve(
            alloc,
            ring_of(words),
            options,
            out,
            errors,
            stores,
            doors,
            clock,
        ),
        Ok(None) => {
            report(errors, USAGE);
            USAGE
        }
        Err(NoMemory) => {
            report(errors, NO_MEMORY);
            NO_MEMORY
        }
    }
}

/// `serve` with the ring of this name.
fn serve<W: Sink, E: Sink, S: Stores, N: Doors, C: Clock>(
    alloc: Global,
    name: &str,
    options: ServeOptions,
    out: &mut W,
    errors: &mut E,
    stores: &mut S,
    doors: &mut N,
    clock: &mut C,
) -> u8
    requires home { (d s : ℕ) → S.out stores.old d s ≡ false }
    requires doors { length (N.finished doors.old) ≤ length (N.accepts doors.old) }
    ensures home { (d s : ℕ) → S.out stores.new d s ≡ false }
    ensures ends { EndsWith (S.text stores.old name.now) (S.faults stores.old) (S.faults stores.new)
        ((out.new ≡ out.old) × (doors.new ≡ doors.old) × (clock.new ≡ clock.old) × (S.calls stores.new ≡ raised (S.calls stores.old)))
        (λ bad. PutsLine (output E.taken E.faults E.calls errors.old errors.new) (line_of_ring bad))
        (λ ring. ServesRing S.V.tells S.V.holds S.V.faults (keeper_seen S.K.tells S.K.holds S.K.faults) S.first ring options.port options.connections
        (S.rests stores.old) (S.rests stores.new)
        (doors_told N.accepts N.finished N.calls N.faults doors.old) (doors_told N.accepts N.finished N.calls N.faults doors.new)
        (output W.taken W.faults W.calls out.old out.new) (C.readings clock.old) (C.readings clock.new)
        (counts S.calls S.faults stores.old) (counts S.calls S.faults stores.new) result)
        result }
    ensures line { result ≢ statuses.bad_ring → Reports (output E.taken E.faults E.calls errors.old errors.new) (line_of_status result) }
{
    match open_ring(alloc, stores, name) {
        Ok(ring) => {
            let status = serve_connections(
                alloc,
                &ring,
                options.port,
                options.connections,
                out,
                stores,
                doors,
                clock,
            );
            report(errors, status);
            status
        }
        Err(fault) => refuse_ring(errors, fault),
    }
}

/// `run` with the ring of this name.
fn run<R: Source, W: Sink, E: Sink, S: Stores, C: Clock>(
    alloc: Global,
    name: &str,
    source: &mut R,
    out: &mut W,
    errors: &mut E,
    stores: &mut S,
    clock: &mut C,
    trail: &mut Trail,
) -> u8
    requires no_steps { trail.old.steps ≡ [] }
    requires no_moments { trail.old.moments ≡ [] }
    requires home { (d s : ℕ) → S.out stores.old d s ≡ false }
    ensures home { (d s : ℕ) → S.out stores.new d s ≡ false }
    ensures ends { EndsWith (S.text stores.old name.now) (S.faults stores.old) (S.faults stores.new)
        ((source.new ≡ source.old) × (out.new ≡ out.old) × (clock.new ≡ clock.old) × (trail.new ≡ trail.old)
        × (S.calls stores.new ≡ raised (S.calls stores.old)))
        (λ bad. PutsLine (output E.taken E.faults E.calls errors.old errors.new) (line_of_ring bad))
        (λ ring. RunsRing S.V.tells S.V.holds S.V.faults (keeper_seen S.K.tells S.K.holds S.K.faults) S.first ring (S.rests stores.old) (S.rests stores.new)
        (counts S.calls S.faults stores.old) (counts S.calls S.faults stores.new) (input R.left R.faults R.calls source.old source.new)
        (output W.taken W.faults W.calls out.old out.new)
        (C.readings clock.old) (C.readings clock.new) trail.new result)
        result }
    ensures line { result ≢ statuses.bad_ring → Reports (output E.taken E.faults E.calls errors.old errors.new) (line_of_status result) }
{
    match open_ring(alloc, stores, name) {
        Ok(ring) => {
            let status = run_session(alloc, &ring, source, out, stores, clock, trail);
            report(errors, status);
            status
        }
        Err(fault) => refuse_ring(errors, fault),
    }
}

/// Says why a ring wasn't opened, and answers the status.
pub fn refuse_ring<E: Sink>(errors: &mut E, fault: OpenFault) -> u8
    ensures refused { IsRingRefused fault result (λ bad. PutsLine (output E.taken E.faults E.calls errors.old errors.new) (line_of_ring bad)) }
    ensures line { result ≢ statuses.bad_ring → Reports (output E.taken E.faults E.calls errors.old errors.new) (line_of_status result) }
{
    match fault {
        OpenFault::Failed => {
            report(errors, STORE_FAULT);
            STORE_FAULT
        }
        OpenFault::NoMemory => {
            report(errors, NO_MEMORY);
            NO_MEMORY
        }
        OpenFault::Bad(bad) => {
            put_line(errors, &ring_line(bad));
            BAD_RING
        }
    }
}

/// Puts the line of a status on the error sink.
pub fn report<E: Sink>(errors: &mut E, status: u8)
    ensures { Reports (output E.taken E.faults E.calls errors.old errors.new) (line_of_status status) }
{
    let line = line_of(status);
    if !line.is_empty() {
        put_line(errors, line);
    }
}

/// Puts a line on the error sink.
fn put_line<E: Sink>(errors: &mut E, line: &[u8])
    ensures { PutsLine (output E.taken E.faults E.calls errors.old errors.new) line.now }
{
    let _ = errors.put(line);
}
