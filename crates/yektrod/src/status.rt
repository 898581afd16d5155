//! What the functions return.

/// Done.
pub const DONE: i32 = 0;
/// Out of memory.
pub const NO_MEMORY: i32 = 1;
/// There is no engine; of `yektrod_open`, there is one already.
pub const SHUT: i32 = 2;
/// No such answer, line or text.
pub const MISSING: i32 = 3;
/// A text is no UTF-8, or a number is out of range.
pub const UNREADABLE: i32 = 4;
/// There is no list to remove.
pub const NO_LIST: i32 = 5;
/// The room is too little.
pub const NO_ROOM: i32 = 6;
/// A record of a script is malformed.
pub const MALFORMED: i32 = 7;
