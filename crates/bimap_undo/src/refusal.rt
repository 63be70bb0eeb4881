//! Why nothing was replaced and recorded.
use bimap::NotReplaced;
use thiserror::Error;

/// Why a value was not replaced under a record. It hands the new value back, and nothing has changed.
#[derive(Debug, Drop, Eq, Error, PartialEq)]
pub enum NotRecorded<V> {
    /// No pair has the old value, or another pair has the new value.
    #[error("{0}")]
    Refused(NotReplaced<V>),
    /// Out of memory. The map might have refused the new value too.
    #[error("out of memory")]
    Memory(V),
}
