/// The greatest head or trailer, in bytes, with the empty line that ends it.
pub const MAX_HEAD: usize = 65_536;

/// The greatest number of fields in a head or a trailer.
pub const MAX_FIELDS: usize = 128;

/// The greatest number of digits in a Content-Length.
pub const MAX_LENGTH_DIGITS: usize = 18;
