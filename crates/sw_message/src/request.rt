use crate::fields::FieldList;
use http::Method;
use sw_outside::Bytes;

/// The body of a request.
#[derive(Debug, Drop)]
pub enum Body {
    /// All its bytes.
    Whole(Bytes),
    /// It was over the greatest size of an object, and wasn't kept.
    TooLarge,
}

/// One whole request.
#[derive(Debug, Drop)]
pub struct Request {
    pub method: Method,
    /// The target up to its first `?`, still encoded.
    pub path: Bytes,
    /// What follows the first `?` of the target, still encoded.
    pub query: Bytes,
    pub fields: FieldList,
    /// Whether the head says how long the body is.
    pub framed: bool,
    pub body: Body,
}
