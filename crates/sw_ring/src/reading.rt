ghost use Rattle.std.specs.Prelude.{◌≡◌, None, Ok, Err, Some, IfOk};
ghost use Rattle.serde_json.specs.View.{view};
ghost use Rattle.sw_ring.specs.Tables.{data_of};
ghost use Rattle.sw_ring.specs.Texts.{json_in, ring_text};
ghost use Rattle.sw_ring.specs.declared.bad_ring.BadRing.{BadRing};

use crate::bad_ring::{BadRing, RingError};
use crate::draft::Draft;
use crate::ring::Ring;
use serde_json::Value;
use std::alloc::Global;

/// Reads the text of a ring.
///
/// The error is [`RingError::Bad`] with the first thing that is wrong with the text, or [`RingError::NoMemory`]. Where
/// the text names very many devices or replicas, which makes it no ring, the time to find the first cause is quadratic in
/// their number: a ring comes from the operator and not from a client.
pub fn read(alloc: Global, bytes: &[u8]) -> Result<Ring, RingError>
    ensures ring { IfOk result (λ ring. ring_text bytes.now ≡ Ok (data_of ring)) }
    ensures bad { (bad : BadRing) → result ≡ Err (RingError.Bad bad) → ring_text bytes.now ≡ Err bad }
{
    let value = json_of(alloc, bytes)?;
    let Some(draft) = Draft::read(alloc, &value)? else {
        return Err(RingError::Bad(BadRing::BadShape));
    };
    if let Some(bad) = draft.first_fault() {
        return Err(RingError::Bad(bad));
    }
    Ok(draft.into_ring(alloc)?)
}

/// The JSON value that these bytes are.
fn json_of(alloc: Global, bytes: &[u8]) -> Result<Value, RingError>
    ensures json { IfOk result (λ value. json_in bytes.now ≡ Some (view value)) }
    ensures bad { (bad : BadRing) → result ≡ Err (RingError.Bad bad) → (bad ≡ BadRing.NotJson) × (json_in bytes.now ≡ None) }
{
    match Value::from_slice(alloc, bytes) {
        Ok(value) => Ok(value),
        Err(error) => {
            if error.is_memory() {
                Err(RingError::NoMemory)
            } else {
                Err(RingError::Bad(BadRing::NotJson))
            }
        }
    }
}
