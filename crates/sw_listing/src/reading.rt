ghost use Rattle.std.specs.Prelude.{◌≡◌, ◌≢◌, ◌<◌, true, None, Some, Err, [], IfOk, IfErr, OnErr, map, min};
ghost use Rattle.std.specs.Char.{is_ascii_digit};
ghost use Rattle.std.specs.List.{list_all};
ghost use Rattle.std.specs.Option.{ForSome};
ghost use Rattle.std.specs.Str.Parse.{digits_value};
ghost use Rattle.form_urlencoded.specs.Form.{decode, plus_to_space, raw_pairs};
ghost use Rattle.sw_listing.specs.Queries.{delimiter_of, fault_of, is_bad_delimiter, is_numeral, is_on, is_word, limit_of, ReadsAs, value_of};
ghost use Rattle.sw_listing.specs.declared.bad_query.BadQuery.{BadQuery};

use crate::bad_query::BadQuery;
use crate::query::Query;
use form_urlencoded::raw_pairs;
use percent_encoding::percent_decode;
use std::alloc::Global;
use sw_outside::{Bytes, NoMemory, is_utf8};

/// The greatest limit, and the limit of a query that names none.
const GREATEST_LIMIT: u32 = 10_000;

impl Query {
    /// Reads the text of a query, as it stands in a request's target behind the question mark. The names are `limit`,
    /// `marker`, `end_marker`, `prefix`, `delimiter`, `reverse` and `format`; others are passed over, and of a name that
    /// stands several times the last counts. A limit that isn't a number counts as absent.
    ///
    /// [`BadQuery`] says what is wrong with the first value that can't be meant. A text without any name takes no memory.
    pub fn read(alloc: Global, query: &[u8]) -> Result<Query, BadQuery>
        ensures reads { IfOk result (λ read. ReadsAs query.now read) }
        ensures good { IfOk result (λ _. fault_of query.now ≡ None) }
        ensures bad { IfErr result (λ bad. bad ≢ BadQuery.NoMemory → fault_of query.now ≡ Some bad) }
        ensures starved { result ≡ Err BadQuery.NoMemory → raw_pairs query.now ≢ [] }
    {
        let marker = value_of(alloc, query, b"marker")?;
        let end_marker = value_of(alloc, query, b"end_marker")?;
        let prefix = value_of(alloc, query, b"prefix")?;
        let limit = limit_of(value_of(alloc, query, b"limit")?.as_slice());
        let delimiter = value_of(alloc, query, b"delimiter")?;
        let reverse = is_on(value_of(alloc, query, b"reverse")?.as_slice());
        let format = value_of(alloc, query, b"format")?;
        if !is_utf8(marker.as_slice())
            || !is_utf8(end_marker.as_slice())
            || !is_utf8(prefix.as_slice())
        {
            return Err(BadQuery::NotText);
        }
        if limit > GREATEST_LIMIT {
            return Err(BadQuery::Limit);
        }
        if is_bad_delimiter(delimiter.as_slice()) {
            return Err(BadQuery::Delimiter);
        }
        if is_word(format.as_slice(), b"xml") {
            return Err(BadQuery::Format);
        }
        Ok(Query {
            limit,
            marker,
            end_marker,
            prefix,
            delimiter: delimiter_of(delimiter.as_slice()),
            reverse,
            json: is_word(format.as_slice(), b"json"),
        })
    }
}

/// The last value of this name; an empty text where there is none.
fn value_of(alloc: Global, query: &[u8], name: &[u8]) -> Result<Bytes, NoMemory>
    ensures value { IfOk result (λ value. value ≡ value_of name.now query.now) }
    ensures starved { OnErr result (raw_pairs query.now ≢ []) }
{
    let mut value = Bytes::from(Vec::new(alloc));
    for (pair_name, pair_value) in raw_pairs(query) {
        if decoded(alloc, pair_name)?.as_slice() == name {
            value = decoded(alloc, pair_value)?;
        }
    }
    Ok(value)
}

/// The bytes that a name or a value of a query stands for.
fn decoded(alloc: Global, bytes: &[u8]) -> Result<Bytes, NoMemory>
    ensures { IfOk result (λ decoded. decoded ≡ decode bytes.now) }
{
    let spaced = spaced(alloc, bytes)?;
    let mut decoded = Vec::new(alloc);
    percent_decode(&spaced).append_to(&mut decoded)?;
    Ok(decoded.into())
}

/// The bytes, with a space for each plus sign.
fn spaced(alloc: Global, bytes: &[u8]) -> Result<Vec<u8>, NoMemory>
    ensures { IfOk result (λ spaced. spaced.items ≡ map plus_to_space bytes.now) }
{
    Ok(
        bytes
            .iter()
            .map(|byte| plus_to_space(*byte))
            .collect(alloc)?,
    )
}

/// A plus sign stands for a space.
fn plus_to_space(byte: u8) -> u8
    ensures { result ≡ plus_to_space byte }
{
    if byte == b'+' { b' ' } else { byte }
}

/// The number that a limit writes, where it is a number, one over the greatest limit standing for all that are over it.
fn limit_of(text: &[u8]) -> u32
    ensures { result ≡ min (limit_of text.now) 10001 }
{
    if is_numeral(text) {
        number_of(text)
    } else {
        GREATEST_LIMIT
    }
}

/// Whether the text is digits, one at least.
fn is_numeral(text: &[u8]) -> bool
    ensures { result ≡ is_numeral text.now }
{
    !text.is_empty() && all_digits(text)
}

fn all_digits(text: &[u8]) -> bool
    ensures { result ≡ list_all is_ascii_digit text.now }
{
    text.iter().all(|byte| is_digit(*byte))
}

fn is_digit(byte: u8) -> bool
    ensures { result ≡ is_ascii_digit byte }
{
    byte.is_ascii_digit()
}

/// The number that these digits write, one over the greatest limit standing for all that are over it.
fn number_of(digits: &[u8]) -> u32
    requires { is_numeral digits.now ≡ true }
    ensures { result ≡ min (digits_value 10 digits.now) 10001 }
{
    let mut number = 0;
    for digit in digits {
        number = (number * 10 + u32::from(*digit - b'0')).min(GREATEST_LIMIT + 1);
    }
    number
}

/// Whether a delimiter is neither empty nor one ASCII byte.
fn is_bad_delimiter(text: &[u8]) -> bool
    ensures { result ≡ is_bad_delimiter text.now }
{
    match text {
        [] => false,
        [byte] => !byte.is_ascii(),
        _ => true,
    }
}

/// The delimiter of a text that is one, or none of an empty text.
fn delimiter_of(text: &[u8]) -> Option<u8>
    ensures value { result ≡ delimiter_of text.now }
    ensures ascii { ForSome result (λ byte. byte < 128) }
{
    match text {
        [byte] if byte.is_ascii() => Some(*byte),
        _ => None,
    }
}

/// Whether the text says yes.
fn is_on(text: &[u8]) -> bool
    ensures { result ≡ is_on text.now }
{
    is_word(text, b"true")
        || is_word(text, b"yes")
        || is_word(text, b"on")
        || is_word(text, b"t")
        || is_word(text, b"y")
        || is_word(text, b"1")
}

/// Whether the text is this word in any case of its letters.
fn is_word(text: &[u8], word: &[u8]) -> bool
    ensures { result ≡ is_word word.now text.now }
{
    text.eq_ignore_ascii_case(word)
}
