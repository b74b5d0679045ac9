//! A law of the items that a request gives its object. The function does nothing: its clause is the law.

ghost use Rattle.sw_fields.specs.Laws.{KeepsTheLast};

/// Of the fields that are items of one name the last is kept.
pub fn keeps_the_last()
    ensures { KeepsTheLast }
{}
