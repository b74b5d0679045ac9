use crate::asked::{Asked, Told};
use crate::obj_dirs::{AMPLE, Limits, O, P, Row, S, goes_so};
use Asked::{
    Delete, DeleteExpired, Get, Post, Put, PutIfNone, Restart, SentDelete, SentMeta, SentPut,
};
use Told::{
    Buried, Conflict, Done, Exists, Failed, Full, Mismatch, NotFound, NotFoundSince, Nothing,
    Object, Updated,
};
use std::alloc::Global;
use std::test::Fail;

/// One object, at one device and then at another.
const STEPS: &[Row] = &[
    (O, Get, NotFound),
    (O, Put(20), Done(1)),
    (O, Put(10), Conflict(20)),
    (O, PutIfNone(30), Exists),
    (O, Delete(20), Conflict(20)),
    (O, Post(20), Conflict(20)),
    (O, SentPut(20), Conflict(20)),
    (O, SentDelete(20), Done(2)),
    (O, Post(30), NotFoundSince(20)),
    (O, Delete(20), NotFoundSince(20)),
    (O, Delete(25), Buried(3)),
    (O, Get, NotFoundSince(25)),
    (O, Put(25), Conflict(25)),
    (O, PutIfNone(40), Done(4)),
    (O, DeleteExpired(50), Mismatch(None)),
    (O, DeleteExpired(40), Conflict(40)),
];

const MORE_STEPS: &[Row] = &[
    (O, Post(20), NotFound),
    (O, DeleteExpired(50), NotFound),
    (O, SentMeta(60), Done(1)),
    (O, SentMeta(60), Conflict(60)),
    (O, Put(50), Done(2)),
    (O, Post(60), Conflict(60)),
    (O, Post(65), Done(3)),
    (O, DeleteExpired(70), Done(4)),
    (O, Delete(80), Buried(5)),
];

/// Writes that come from other devices may come in any order.
const TRANSFERS: &[Row] = &[
    (O, SentPut(20), Done(1)),
    (O, SentMeta(30), Done(2)),
    (O, SentPut(25), Done(3)),
    (O, Get, Updated(30, 3)),
];

const OTHER_ORDER: &[Row] = &[
    (O, SentPut(25), Done(1)),
    (O, SentPut(20), Conflict(25)),
    (O, SentMeta(30), Done(2)),
    (O, Get, Updated(30, 2)),
];

/// All objects of a lock share a journal, which begins anew with a restart.
const RESTARTED: &[Row] = &[
    (O, Put(20), Done(1)),
    (S, Put(20), Done(2)),
    (O, Post(30), Done(3)),
    (O, Restart, Nothing),
    (O, Get, Updated(30, 0)),
    (P, Put(30), Done(1)),
    (S, Get, Object(20, 1)),
    (O, Delete(30), Done(2)),
];

/// A journal of one entry is full, until it begins anew.
const ONE_ENTRY: &[Row] = &[
    (O, Put(20), Done(1)),
    (O, Put(30), Full),
    (O, Put(20), Conflict(20)),
    (O, Get, Object(20, 1)),
    (O, Restart, Nothing),
    (O, Put(30), Done(1)),
];

/// So is one whose bodies have together three bytes; a deletion has none.
const THREE_BYTES: &[Row] = &[
    (O, Put(20), Done(1)),
    (O, Put(30), Full),
    (O, Delete(30), Done(2)),
    (O, Put(40), Full),
];

/// Limits of the journal, calls of the volume that fail with or without their change, and steps.
type Run = (Limits, &'static [(u64, bool)], &'static [Row]);

const RUNS: &[Run] = &[
    (AMPLE, &[], STEPS),
    (AMPLE, &[], MORE_STEPS),
    (AMPLE, &[], TRANSFERS),
    (AMPLE, &[], OTHER_ORDER),
    (AMPLE, &[], RESTARTED),
    ((1, 100), &[], ONE_ENTRY),
    ((10, 3), &[], THREE_BYTES),
    // The third call puts the write's file. Where it fails, the next step finds out whether the write was made.
    (
        AMPLE,
        &[(2, true)],
        &[
            (O, Put(20), Failed),
            (O, Get, Object(20, 2)),
            (O, Put(30), Done(3)),
        ],
    ),
    (
        AMPLE,
        &[(2, false)],
        &[
            (O, Put(20), Failed),
            (O, Get, NotFound),
            (O, Put(30), Done(2)),
        ],
    ),
    // The second one files its record. Where that fails, nothing came of the write.
    (
        AMPLE,
        &[(1, true)],
        &[
            (O, Put(20), Failed),
            (O, Get, NotFound),
            (O, Put(20), Done(2)),
        ],
    ),
    // A restart begins with what was made.
    (
        AMPLE,
        &[(2, true)],
        &[
            (O, Put(20), Failed),
            (O, Restart, Nothing),
            (O, Get, Object(20, 0)),
        ],
    ),
    // The settling itself fails, and is tried again.
    (
        AMPLE,
        &[(2, true), (3, true)],
        &[
            (O, Put(20), Failed),
            (O, Get, Failed),
            (O, Get, Object(20, 2)),
        ],
    ),
    // What stands couldn't be listed.
    (
        AMPLE,
        &[(0, true)],
        &[
            (O, Put(20), Failed),
            (O, Get, NotFound),
            (O, Put(20), Done(1)),
        ],
    ),
    // A doubt counts for the limits once it is settled, and the record that was filed for it does in any case.
    (
        (2, 100),
        &[(2, true)],
        &[(O, Put(20), Failed), (O, Put(30), Full)],
    ),
    (
        (2, 100),
        &[(2, false)],
        &[(O, Put(20), Failed), (O, Put(30), Done(2))],
    ),
];

/// Whether the steps of the run are answered so.
fn runs_so(alloc: Global, run: &Run) -> Result<bool, Fail> {
    let (limits, failing, rows) = run;
    goes_so(alloc, *limits, failing, &[], rows, None)
}

#[test]
fn steps_have_the_answers_of_the_tables(rt: HostRuntime) -> Result<(), Fail> {
    let alloc = rt.alloc();
    for run in RUNS {
        assert!(rt; runs_so(alloc, run)?);
    }
    Ok(())
}
