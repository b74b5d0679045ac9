/// How many CR and LF bytes are skipped before a head.
pub const MAX_SKIPPED: usize = 65_536;

/// The greatest body of an object, in bytes.
pub const MAX_BODY: usize = 5_242_880;

/// The greatest request, in bytes, with the line ends before its head, its chunk lines and its trailer.
pub const MAX_REQUEST: usize = 1_073_741_824;
