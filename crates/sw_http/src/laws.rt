//! What the grammar of requests itself promises, as contracts of functions that do nothing.
ghost use Rattle.sw_http.specs.Reading.{OneReading, OneRequest};

/// Whatever requests bytes begin with are the first of those that make them up to the end: bytes have one reading only.
pub fn one_reading()
    ensures { OneReading }
{}

/// No request's text begins another's: what stands in front of bytes is the same request, whatever follows it.
pub fn one_request()
    ensures { OneRequest }
{}
