//! A ring, and requests in a table.

use http::Method;
use std::alloc::Global;
use std::test::Fail;
use sw_message::{Body, Field, FieldList, Request};
use sw_outside::Bytes;
use sw_ring::{Ring, read};

/// A ring of three devices and four partitions. The first device keeps objects alone, and the last one containers alone.
const RING: &[u8] =
    br#"{"devices":["sda","sdb","sdc"],"part_power":2,"lock_bits":2,"replicas":2,"hash_prefix":"","hash_suffix":"endcap","object":[[0,1],[1,0],[0,1],[1,0]],
        "container":[[1,2],[2,1],[1,2],[2,1]]}"#;

pub(crate) fn ring(alloc: Global) -> Result<Ring, Fail> {
    Ok(read(alloc, RING)?)
}

/// A request as it stands in a table: its method, its path, its query and its fields.
pub(crate) type Asking = (
    &'static [u8],
    &'static [u8],
    &'static [u8],
    &'static [(&'static [u8], &'static [u8])],
);

pub(crate) fn request(alloc: Global, asking: &Asking) -> Result<Request, Fail> {
    let (method, path, query, given) = asking;
    let mut fields = Vec::new(alloc);
    for (name, value) in *given {
        fields.push(Field {
            name: Bytes::copy(alloc, name)?,
            value: Bytes::copy(alloc, value)?,
        })?;
    }
    Ok(Request {
        method: Method::from_bytes(alloc, method)?,
        path: Bytes::copy(alloc, path)?,
        query: Bytes::copy(alloc, query)?,
        fields: FieldList::from(fields),
        framed: false,
        body: Body::Whole(Bytes::copy(alloc, b"")?),
    })
}
