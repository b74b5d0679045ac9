ghost use Rattle.std.specs.Prelude.{◌≡◌, ◌≢◌, true, None, Some, Result, Err, IfOk, IfSome};
ghost use Rattle.std.specs.Option.{option_copied, option_map};
ghost use Rattle.sw_hashpath.specs.BadNames.{bad_name};
ghost use Rattle.sw_hashpath.specs.declared.decode_error.DecodeError.{DecodeError};
ghost use Rattle.sw_metafile.specs.Reading.{Finds, Gives};
ghost use Rattle.sw_pending.specs.Decoding.{IsRead, decoded};
ghost use Rattle.sw_pending.specs.Outcomes.{IsOutcome};
ghost use Rattle.sw_pending.specs.Reading.{after_first_line, done_at, flag_of, lines_at, name_of, plain, queue_at, record_at};
ghost use Rattle.sw_pending.specs.Rules.{are_in_order, is_queue_right};
ghost use Rattle.sw_pending.specs.declared.filed.Filed.{Filed};

use crate::devices::read_devices;
use crate::filed::{DeviceList, Filed};
use std::alloc::Global;
use sw_hashpath::{BadFile, DecodeError, Name, Secrets, hash_path};
use sw_metafile::{Names, read_path, read_time, take_end, take_value};

/// What the file of a record begins with.
pub(crate) const FIRST_LINE: &[u8] = b"SWC1 pending\n";

/// The record whose file these bytes are, with the hash of its name under these secrets.
///
/// The error is the first of these that holds. [`BadFile::Header`]: the bytes don't begin with a record's first line.
/// [`BadFile::Field`]: what follows, up to the empty line, isn't the lines of a record, or is one of a bad name.
/// [`BadFile::Length`]: bytes stand after the empty line. Besides these there is only [`DecodeError::NoMemory`].
pub fn decode(alloc: Global, secrets: &Secrets, bytes: &[u8]) -> Result<Filed, DecodeError>
    ensures is { IsOutcome secrets.now bytes.now result }
    ensures read { IsRead result (decoded secrets.now bytes.now) }
    ensures only { (outcome : Result Filed DecodeError) → outcome ≢ Err DecodeError.NoMemory → IsOutcome secrets.now bytes.now outcome
        → result ≢ Err DecodeError.NoMemory → result ≡ outcome }
{
    read_record(alloc, secrets, bytes)
}

/// The record, read line by line.
#[tactic(auto, unfolding(crate::specs::Reading::record_at))]
fn read_record(alloc: Global, secrets: &Secrets, bytes: &[u8]) -> Result<Filed, DecodeError>
    ensures { Gives plain result (record_at secrets.now bytes.now) }
{
    let rest = after_first_line(bytes).ok_or(BadFile::Header)?;
    let (filed, rest) = read_lines(alloc, secrets, rest)?;
    if !rest.is_empty() {
        return Err(DecodeError::Bad(BadFile::Length));
    }
    Ok(filed)
}

#[tactic(auto, unfolding(crate::specs::Reading::after_first_line))]
fn after_first_line(bytes: &[u8]) -> Option<&[u8]>
    ensures { option_copied result ≡ after_first_line bytes.now }
{
    if bytes.starts_with(FIRST_LINE) {
        Some(&bytes[FIRST_LINE.len()..])
    } else {
        None
    }
}

/// The record in the lines that the bytes begin with, and what stands after the empty line.
#[tactic(auto, unfolding(crate::specs::Reading::lines_at))]
fn read_lines<'a>(
    alloc: Global,
    secrets: &Secrets,
    bytes: &'a [u8],
) -> Result<(Filed, &'a [u8]), DecodeError>
    ensures { Finds (λ x. (plain x.0, x.1.now)) result (lines_at secrets.now bytes.now) }
{
    let (names, rest) = read_path(alloc, bytes)?;
    let Some((time, rest)) = read_time(rest) else {
        return Err(DecodeError::Bad(BadFile::Field));
    };
    let (queue, rest) = read_queue(names.account.as_slice(), rest).ok_or(BadFile::Field)?;
    let (done, rest) = read_done(alloc, rest)?;
    let rest = take_end(rest).ok_or(BadFile::Field)?;
    let name = name_of(secrets, names);
    Ok((
        Filed {
            name,
            time,
            queue,
            done,
        },
        rest,
    ))
}

/// Whether the record is for an entry of the queue, as the line says that the bytes begin with, and what stands after it.
#[tactic(auto, unfolding(crate::specs::Reading::queue_at))]
fn read_queue<'a>(account: &[u8], bytes: &'a [u8]) -> Option<(bool, &'a [u8])>
    ensures found { option_map (λ x. (x.0, x.1.now)) result ≡ queue_at account.now bytes.now }
    ensures right { IfSome result (λ x. is_queue_right x.0 account.now ≡ true) }
{
    let (text, rest) = take_value(bytes, b"queue ")?;
    let queue = flag_of(text)?;
    if queue && !Filed::is_queue_account(account) {
        return None;
    }
    Some((queue, rest))
}

#[tactic(auto, unfolding(crate::specs::Reading::flag_of))]
fn flag_of(text: &[u8]) -> Option<bool>
    ensures { result ≡ flag_of text.now }
{
    match text {
        b"0" => Some(false),
        b"1" => Some(true),
        _ => None,
    }
}

/// The devices in the line that the bytes begin with, and what stands after it.
#[tactic(auto, unfolding(crate::specs::Reading::done_at))]
fn read_done(alloc: Global, bytes: &[u8]) -> Result<(DeviceList, &[u8]), DecodeError>
    ensures found { Finds (λ x. (x.0, x.1.now)) result (done_at bytes.now) }
    ensures order { IfOk result (λ x. are_in_order x.0 ≡ true) }
{
    let (text, rest) = take_value(bytes, b"done ").ok_or(BadFile::Field)?;
    let done = read_devices(alloc, text)?;
    Ok((done, rest))
}

/// The name of these, with the hash of its path.
fn name_of(secrets: &Secrets, names: Names) -> Name
    requires { bad_name names.account (Some names.container) (Some names.object) ≡ None }
    ensures { result ≡ name_of secrets.now names }
{
    let account = names.account.as_slice();
    let container = Some(names.container.as_slice());
    let object = Some(names.object.as_slice());
    let Ok(hash) = hash_path(secrets, account, container, object) else {
        unreachable!()
    };
    Name {
        account: names.account,
        container: names.container,
        object: names.object,
        hash,
    }
}
