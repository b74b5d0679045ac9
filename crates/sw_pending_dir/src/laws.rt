//! Laws of the definitions on records' files. Each function does nothing: its clause is the law.

ghost use Rattle.sw_pending_dir.specs.Laws.{ElsewhereKeeps, ObjectsStay, OneReading, OrderIsTold, PlaceIsOfKey, WhatStandsIsOfKey};

/// A folder and a name are the place of exactly the key that has them.
pub fn place_is_of_key()
    ensures { PlaceIsOfKey }
{}

/// What stands for a key is a record of that key.
pub fn what_stands_is_of_key()
    ensures { WhatStandsIsOfKey }
{}

/// Bytes are one record of a key, or have one fault, and not both.
pub fn one_reading()
    ensures { OneReading }
{}

/// The test of order says the same as what is said of each key.
pub fn order_is_told()
    ensures { OrderIsTold }
{}

/// Where no file below `async_pending` changed, all records stay.
pub fn elsewhere_keeps()
    ensures { ElsewhereKeeps }
{}

/// A change at the place of a key leaves all files of objects.
pub fn objects_stay()
    ensures { ObjectsStay }
{}
