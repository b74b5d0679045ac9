ghost use Rattle.std.specs.Prelude.{◌≡◌, ◌++◌, ◌∷◌, [], MatchOption};

use crate::held::Held;
use crate::row::Row;
use std::collections::btree_map::Range;
use std::marker::Model;

/// Rows in byte order of their names, from both ends: what [`crate::Rows::between`] gives. Contracts see the rows that are
/// left.
#[derive(Drop)]
pub struct NamedRows<'a> {
    pub(crate) names: Range<'a, Vec<u8>, Held>,
}

impl<'a> Model for NamedRows<'a> {
    ghost use Rattle.std.specs.Prelude.{List};
    ghost use Rattle.sw_rows.specs.Names.{rows_named, AreNamed};
    ghost use Rattle.sw_rows.specs.declared.row.Row.{Row};

    ghost Value = { List Row };

    ghost view = { λ r. rows_named r.names };

    ghost invariant = { λ r. AreNamed r.names };
}

impl<'a> NamedRows<'a> {
    /// Takes the row of the first name that is left.
    pub fn first(&mut self) -> Option<&'a Row>
        ensures { MatchOption result ((self.old ≡ []) × (self.new ≡ [])) (λ row. self.old ≡ row.now ∷ self.new) }
    {
        match self.names.next() {
            Some((_, held)) => Some(&*held.row),
            None => None,
        }
    }

    /// Takes the row of the last name that is left.
    pub fn last(&mut self) -> Option<&'a Row>
        ensures { MatchOption result ((self.old ≡ []) × (self.new ≡ [])) (λ row. self.old ≡ self.new ++ row.now ∷ []) }
    {
        match self.names.next_back() {
            Some((_, held)) => Some(&*held.row),
            None => None,
        }
    }
}
