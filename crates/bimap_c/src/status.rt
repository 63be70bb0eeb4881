//! The statuses that a call for C returns. On `DONE` it has written its out-parameters. On another status it has not,
//! unless that status says so.

/// The call did what its description says.
pub const DONE: u32 = 0;

/// Out of memory. Nothing has changed. A call with many items keeps the items before the one that ran out of memory.
pub const NO_MEMORY: u32 = 1;

/// A handle is null or has no table of these sides. `free` returns this if the handle has no table. `new` and `clone`
/// return it if the handle for the new table has a table already. Nothing has changed.
pub const NO_TABLE: u32 = 2;

/// The call was refused, and nothing has changed. A value is contained and must not be overwritten, a flag is above 1,
/// there is no such kind, or a pointer to a value is null. Rows name more bytes than there are. For JSON: the table
/// cannot be written as JSON, or the text is no table.
pub const REFUSED: u32 = 3;

/// The buffer is too short. The call has written the length that it needs. Nothing else has changed.
pub const BUFFER_TOO_SHORT: u32 = 4;

/// No such pair is contained. Nothing has changed.
pub const NOT_FOUND: u32 = 5;

/// A table of this kind has no order that the call could use. Nothing has changed.
pub const NO_ORDER: u32 = 6;
