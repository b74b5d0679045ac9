ghost use Rattle.std.specs.Prelude.{◌≡◌, ℕ, ◌<◌, ◌≤◌, IfOk, OnErr, length, map, take};
ghost use Rattle.std.specs.List.{before_first, after_first, position_or_len};
ghost use Rattle.httparse.specs.Grammar.{IsToken};
ghost use Rattle.httparse.specs.Spans.{IsRequestWithin, span_bytes};
ghost use Rattle.sw_message.specs.Head.{field_at};
ghost use Rattle.sw_message.specs.Head.{is_question_mark};

use crate::fields::{Field, FieldList};
use http::Method;
use http::method::MethodError;
use httparse::spans::{HeaderSpan, RequestSpans};
use std::alloc::Global;
use sw_outside::{Bytes, NoMemory};

/// A request whose body was not taken yet.
#[derive(Drop)]
pub struct OpenRequest {
    pub method: Method,
    pub path: Bytes,
    pub query: Bytes,
    pub fields: FieldList,
}

/// How many bytes of a target its path has.
fn path_len(target: &[u8]) -> usize
    ensures len { result ≡ position_or_len is_question_mark target.now }
    ensures within { result ≤ length target.now }
{
    target.iter().take_while(|b| **b != b'?').count()
}

/// The path and the query of a target.
fn split_target(target: &[u8]) -> (&[u8], &[u8])
    ensures path { result.0.now ≡ before_first is_question_mark target.now }
    ensures query { result.1.now ≡ after_first is_question_mark target.now }
{
    let len = path_len(target);
    if len == target.len() {
        (target, &[])
    } else {
        (&target[..len], &target[len + 1..])
    }
}

/// The method that a token names. One of at most 15 bytes takes no memory.
fn method_of(alloc: Global, token: &[u8]) -> Result<Method, NoMemory>
    requires { IsToken token.now }
    ensures method { IfOk result (λ method. method ≡ token.now) }
    ensures for_long { OnErr result (15 < length token.now) }
{
    match Method::from_bytes(alloc, token) {
        Ok(method) => Ok(method),
        Err(MethodError::Invalid) => unreachable!(),
        Err(MethodError::OutOfMemory) => Err(NoMemory),
    }
}

/// Copies the fields that the spans cover. Without fields no memory is taken.
fn fields_at(
    alloc: Global,
    bytes: &[u8],
    headers: &[HeaderSpan],
    spans: RequestSpans,
) -> Result<FieldList, NoMemory>
    requires { IsRequestWithin bytes.now headers.now spans }
    ensures copied { IfOk result (λ fields. fields ≡ map (field_at bytes.now) (take spans.headers headers.now)) }
    ensures for_some { OnErr result (0 < spans.headers) }
{
    let covered = &headers[..spans.headers];
    let mut fields = Vec::with_capacity(alloc, covered.len())?;
    for header in covered {
        fields.push(Field {
            name: Bytes::copy(alloc, header.name.of(bytes))?,
            value: Bytes::copy(alloc, header.value.of(bytes))?,
        })?;
    }
    Ok(FieldList::from(fields))
}

/// Copies the parts of a head that the spans cover.
pub fn open_request(
    alloc: Global,
    bytes: &[u8],
    headers: &[HeaderSpan],
    spans: RequestSpans,
) -> Result<OpenRequest, NoMemory>
    requires within { IsRequestWithin bytes.now headers.now spans }
    requires token { IsToken (span_bytes bytes.now spans.method) }
    ensures method { IfOk result (λ request. request.method ≡ span_bytes bytes.now spans.method) }
    ensures path { IfOk result (λ request. request.path ≡ before_first is_question_mark (span_bytes bytes.now spans.path)) }
    ensures query { IfOk result (λ request. request.query ≡ after_first is_question_mark (span_bytes bytes.now spans.path)) }
    ensures fields { IfOk result (λ request. request.fields ≡ map (field_at bytes.now) (take spans.headers headers.now)) }
{
    let (path, query) = split_target(spans.path.of(bytes));
    Ok(OpenRequest {
        method: method_of(alloc, spans.method.of(bytes))?,
        path: Bytes::copy(alloc, path)?,
        query: Bytes::copy(alloc, query)?,
        fields: fields_at(alloc, bytes, headers, spans)?,
    })
}
