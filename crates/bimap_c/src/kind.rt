//! The kinds of table, by the numbers that `new` takes.

/// Both sides are ordered. A search takes logarithmic time.
pub const ORDERED: u32 = 0;

/// Both sides are hashed. A search takes expected constant time.
pub const HASHED: u32 = 1;

/// Both sides are hashed, and the table keeps the insertion order. A search takes expected constant time.
pub const INSERTION_ORDER: u32 = 2;
