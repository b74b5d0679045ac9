ghost use Rattle.std.specs.Prelude.{◌≡◌, true, IfOk};
ghost use Rattle.std.specs.Str.{is_utf8 as is_utf8_text};
ghost use Rattle.sw_container_server.specs.Targets.{names_row};
ghost use Rattle.sw_container_server.specs.Verdicts.{IsCreationRead, IsInfoRead, IsListRead, IsRemovalRead, IsVerdict, bad_query_status};

use crate::fields::replica_of;
use crate::rows::{read_deleted_row, read_row};
use crate::verb::Verb;
use crate::verdict::Verdict;
use std::alloc::Global;
use sw_container_steps::ContChange;
use sw_fields::time_of;
use sw_listing::{BadQuery, Query};
use sw_message::Request;
use sw_outside::{Bytes, NoMemory};
use sw_ring::Ring;

/// What the verb asks for at its container. `object` is the name of the row, where the verb is one of a row's.
pub(crate) fn read_verb(
    alloc: Global,
    ring: &Ring,
    verb: Verb,
    object: Bytes,
    request: &Request,
) -> Result<Verdict, NoMemory>
    requires { names_row verb ≡ true → is_utf8_text object ≡ true }
    ensures { IfOk result (IsVerdict ring.now object request.now verb) }
{
    match verb {
        Verb::Put => Ok(read_creation(request)),
        Verb::Delete => Ok(read_removal(request)),
        Verb::Get => read_list(alloc, ring, request),
        Verb::Head => Ok(read_info(ring, request)),
        Verb::PutRow => read_row(alloc, object, request),
        Verb::DeleteRow => read_deleted_row(alloc, object, request),
    }
}

fn read_creation(request: &Request) -> Verdict
    ensures { IsCreationRead request.now result }
{
    match time_of(&request.fields) {
        Some(time) => Verdict::Change(ContChange::Create { time }),
        None => Verdict::Refused(400),
    }
}

fn read_removal(request: &Request) -> Verdict
    ensures { IsRemovalRead request.now result }
{
    match time_of(&request.fields) {
        Some(time) => Verdict::Change(ContChange::Remove { time }),
        None => Verdict::Refused(400),
    }
}

fn read_list(alloc: Global, ring: &Ring, request: &Request) -> Result<Verdict, NoMemory>
    ensures { IfOk result (IsListRead ring.now request.now) }
{
    match Query::read(alloc, request.query.as_slice()) {
        Ok(query) => match replica_of(ring, &request.fields) {
            Some(replica) => Ok(Verdict::List { query, replica }),
            None => Ok(Verdict::Refused(400)),
        },
        Err(BadQuery::NoMemory) => Err(NoMemory),
        Err(bad) => Ok(Verdict::Refused(query_status(bad))),
    }
}

/// The status that refuses a query with this fault.
fn query_status(bad: BadQuery) -> u16
    ensures { result ≡ bad_query_status bad }
{
    match bad {
        BadQuery::NotText | BadQuery::Format => 400,
        BadQuery::Limit | BadQuery::Delimiter => 412,
        BadQuery::NoMemory => 500,
    }
}

fn read_info(ring: &Ring, request: &Request) -> Verdict
    ensures { IsInfoRead ring.now request.now result }
{
    match replica_of(ring, &request.fields) {
        Some(replica) => Verdict::Info { replica },
        None => Verdict::Refused(400),
    }
}
