//! Laws of the texts of listings. Each function does nothing: its clause is the law.

ghost use Rattle.sw_listing_json.specs.Laws.{HasOneDate, HasOneJson};

/// A time is listed as one text.
pub fn has_one_date()
    ensures { HasOneDate }
{}

/// Entries are written as one text.
pub fn has_one_json()
    ensures { HasOneJson }
{}
