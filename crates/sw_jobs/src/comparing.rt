ghost use Rattle.std.specs.Prelude.{◌≡◌, ◌↔◌, IsTrue};

use sw_state::{Content, Head, Heads};

/// Whether two contents are equal. It takes no memory.
pub(crate) fn are_equal(one: &Content, other: &Content) -> bool
    ensures { IsTrue result ↔ (one.now ≡ other.now) }
{
    are_equal_texts(one, other) && are_equal_heads(&one.heads, &other.heads)
}

fn are_equal_texts(one: &Content, other: &Content) -> bool
    ensures { let a = one.now in let b = other.now in
        IsTrue result ↔ ((a.etag ≡ b.etag) × (a.body ≡ b.body) × (a.content_type ≡ b.content_type)) }
{
    one.etag == other.etag
        && one.body.as_slice() == other.body.as_slice()
        && one.content_type.as_slice() == other.content_type.as_slice()
}

fn are_equal_heads(one: &Heads, other: &Heads) -> bool
    ensures { IsTrue result ↔ (one.now ≡ other.now) }
{
    one.delete_at == other.delete_at
        && are_equal_items(one.items.as_slice(), other.items.as_slice())
}

fn are_equal_items(one: &[Head], other: &[Head]) -> bool
    ensures { IsTrue result ↔ (one.now ≡ other.now) }
{
    if one.len() != other.len() {
        return false;
    }
    for (a, b) in one.iter().zip(other) {
        if !is_equal_item(a, b) {
            return false;
        }
    }
    true
}

fn is_equal_item(one: &Head, other: &Head) -> bool
    ensures { IsTrue result ↔ (one.now ≡ other.now) }
{
    one.name.as_slice() == other.name.as_slice() && one.value.as_slice() == other.value.as_slice()
}
