/// An object has at most so many items of user metadata.
pub const MAX_ITEMS: usize = 90;

/// The name of an item of user metadata has at most so many bytes behind its prefix.
pub const MAX_ITEM_NAME: usize = 128;

/// The value of an item of user metadata has at most so many bytes.
pub const MAX_ITEM_VALUE: usize = 256;

/// The names, behind their prefix, and the values of an object's user metadata have together at most so many bytes.
pub const MAX_METADATA: usize = 4_096;

/// The names of an object that expires have together at most so many bytes, so that an entry of the expirer's queue can name it: 2,048
/// bytes without ten digits and three separators.
pub const MAX_EXPIRING_NAME: usize = 2_035;
