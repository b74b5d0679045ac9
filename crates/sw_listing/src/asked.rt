ghost use Rattle.std.specs.Prelude.{◌≡◌};
ghost use Rattle.sw_listing.specs.Asking.{is_above, is_asked, is_before, is_below, is_within};

use crate::query::Query;

impl Query {
    /// Whether a name is asked for: it lies between the markers, and begins with the prefix.
    pub(crate) fn is_asked(&self, name: &[u8]) -> bool
        ensures { result ≡ is_asked self.now name.now }
    {
        self.is_within(name) && name.starts_with(self.prefix.as_slice())
    }

    /// Whether a name comes after the marker and before the end marker, in the direction of the listing.
    fn is_within(&self, name: &[u8]) -> bool
        ensures { result ≡ is_within self.now name.now }
    {
        let marker = self.marker.as_slice();
        let end_marker = self.end_marker.as_slice();
        if self.reverse {
            is_below(marker, name) && is_above(end_marker, name)
        } else {
            is_above(marker, name) && is_below(end_marker, name)
        }
    }
}

/// Whether a name comes after this bound, where there is one.
fn is_above(bound: &[u8], name: &[u8]) -> bool
    ensures { result ≡ is_above bound.now name.now }
{
    bound.is_empty() || is_before(bound, name)
}

/// Whether a name comes before this bound, where there is one.
fn is_below(bound: &[u8], name: &[u8]) -> bool
    ensures { result ≡ is_below bound.now name.now }
{
    bound.is_empty() || is_before(name, bound)
}

/// Whether one name comes before another.
fn is_before(one: &[u8], other: &[u8]) -> bool
    ensures { result ≡ is_before one.now other.now }
{
    one.cmp(other).is_lt()
}
