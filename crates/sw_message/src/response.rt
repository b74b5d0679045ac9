use crate::fields::FieldList;
use sw_outside::Bytes;

/// What a reply carries. Its `Content-Length` is told by it alone, so no reply says a length that isn't that of its body.
#[derive(Debug, Drop)]
pub enum ReplyBody {
    /// These bytes.
    Whole(Bytes),
    /// Nothing, as in the reply to a HEAD: a GET would carry so many bytes.
    LeftOut(u64),
}

/// A reply, before it is written.
#[derive(Debug, Drop)]
pub struct Response {
    /// The number of the status. Its reason is written with it.
    pub status: u16,
    /// The fields before `Content-Length`, in order.
    pub fields: FieldList,
    /// A reply with status 100 or 204 carries nothing, whatever stands here.
    pub body: ReplyBody,
}
