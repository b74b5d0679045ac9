ghost use Rattle.std.specs.Prelude.{◌≡◌, ◌≢◌, map};
ghost use Rattle.std.specs.String.{string_bytes};
ghost use Rattle.sw_cluster.specs.Locating.{IsWritten, Locates};
ghost use Rattle.sw_cluster.specs.Opening.{EndsWith};
ghost use Rattle.sw_cluster.specs.Report.{PutsLine, Reports, line_of as line_of_status, ring_line as line_of_ring};
ghost use Rattle.sw_cluster.specs.Statuses as statuses;
ghost use Rattle.sw_cluster.specs.Told.{output};
ghost use Rattle.sw_outside.specs.Counts.{raised};
ghost use Rattle.sw_stores.specs.Places.{IsAsItWas};
ghost use Rattle.sw_cluster.specs.Words.{account_word, container_word, object_word, ring_word};

use crate::command::{refuse_ring, report};
use crate::opening::open_ring;
use crate::status::{COMPLETE, NO_MEMORY, USAGE, WRITE_FAULT};
use crate::whereabouts::where_text;
use crate::words::{names_of, ring_of};
use std::alloc::Global;
use sw_hashpath::NameError;
use sw_outside::{Failed, Sink};
use sw_ring::Ring;
use sw_stores::Stores;

/// `where`: writes where the name of the words is in the ring of the words. Answers the status.
pub fn locate<W: Sink, E: Sink, S: Stores>(
    alloc: Global,
    words: &[String],
    out: &mut W,
    errors: &mut E,
    stores: &mut S,
) -> u8
    ensures ends { EndsWith (S.text stores.old (ring_word (map string_bytes words.now))) (S.faults stores.old) (S.faults stores.new)
        (out.new ≡ out.old)
        (λ bad. PutsLine (output E.taken E.faults E.calls errors.old errors.new) (line_of_ring bad))
        (λ ring. (S.faults stores.new ≡ S.faults stores.old) × Locates ring (account_word (map string_bytes words.now))
        (container_word (map string_bytes words.now)) (object_word (map string_bytes words.now)) (output W.taken W.faults W.calls out.old out.new) result)
        result }
    ensures line { result ≢ statuses.bad_ring → Reports (output E.taken E.faults E.calls errors.old errors.new) (line_of_status result) }
    ensures asked { S.calls stores.new ≡ raised (S.calls stores.old) }
    ensures out { IsAsItWas (S.out stores.old) (S.out stores.new) }
    ensures rests { IsAsItWas (S.rests stores.old) (S.rests stores.new) }
{
    match open_ring(alloc, stores, ring_of(words)) {
        Ok(ring) => {
            let status = write_where(alloc, &ring, words, out);
            report(errors, status);
            status
        }
        Err(fault) => refuse_ring(errors, fault),
    }
}

/// Writes where the name of the words is in a ring.
fn write_where<W: Sink>(alloc: Global, ring: &Ring, words: &[String], out: &mut W) -> u8
    ensures { Locates ring.now (account_word (map string_bytes words.now)) (container_word (map string_bytes words.now))
        (object_word (map string_bytes words.now)) (output W.taken W.faults W.calls out.old out.new) result }
{
    let (account, container, object) = names_of(words);
    match where_text(alloc, ring, account, container, object) {
        Ok(text) => write_text(out, text.as_slice()),
        Err(NameError::Bad(_)) => USAGE,
        Err(NameError::NoMemory) => NO_MEMORY,
    }
}

/// Writes a text, in one call of the sink.
fn write_text<W: Sink>(out: &mut W, text: &[u8]) -> u8
    ensures { IsWritten (output W.taken W.faults W.calls out.old out.new) text.now result }
{
    match out.put(text) {
        Ok(()) => COMPLETE,
        Err(Failed) => WRITE_FAULT,
    }
}
