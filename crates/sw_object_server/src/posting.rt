ghost use Rattle.std.specs.Prelude.{◌≡◌, IfOk, OnErr};
ghost use Rattle.sw_fields.specs.Metadata.{TakesItems};
ghost use Rattle.sw_object_server.specs.Reading.{Deletes, Posts};
ghost use Rattle.sw_object_server.specs.Steps.{post_change as post_change_of};

use crate::verdict::Verdict;
use std::alloc::Global;
use sw_fields::{heads_of, is_replicated, second_of};
use sw_hashpath::Name;
use sw_message::{FieldList, Request};
use sw_object_steps::Change;
use sw_outside::NoMemory;
use sw_state::{Heads, Kind, Write};
use sw_timestamp::Timestamp;

/// A POST of this name at this time.
pub(crate) fn read_post(
    alloc: Global,
    time: Timestamp,
    name: &Name,
    request: &Request,
) -> Result<Verdict, NoMemory>
    ensures posts { IfOk result (Posts name.now request.now time) }
    ensures for_items { OnErr result (TakesItems time name.now request.now.fields) }
{
    match heads_of(alloc, time, name, &request.fields)? {
        Some(heads) => Ok(Verdict::Change(post_change(time, heads, &request.fields))),
        None => Ok(Verdict::Refused(400)),
    }
}

fn post_change(time: Timestamp, heads: Heads, fields: &FieldList) -> Change
    ensures { result ≡ post_change_of time fields.now heads }
{
    if is_replicated(fields) {
        Change::Receive {
            write: Write {
                time,
                kind: Kind::Meta(heads),
            },
        }
    } else {
        Change::Post { time, heads }
    }
}

/// A deletion at this time. Where it names a second of expiry, it deletes only an object that expires then; a text that is no such second is refused. One that
/// another node sends looks at neither.
pub(crate) fn read_delete(time: Timestamp, request: &Request) -> Verdict
    ensures { Deletes request.now time result }
{
    if is_replicated(&request.fields) {
        return Verdict::Change(Change::Receive {
            write: Write {
                time,
                kind: Kind::Del,
            },
        });
    }
    let Some(text) = request.fields.value_of(b"x-if-delete-at") else {
        return Verdict::Change(Change::Delete {
            time,
            if_delete_at: None,
        });
    };
    match second_of(text) {
        Some(second) => Verdict::Change(Change::Delete {
            time,
            if_delete_at: Some(second),
        }),
        None => Verdict::Refused(400),
    }
}
