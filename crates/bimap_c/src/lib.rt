//! The functions for C. There is a module for each pair of types of the sides, and one for its calls that use an order.
//! They call the facade `bimap`, and `extend` over any map.
//!
//! An exported function takes references, so it must not get a null pointer. A test of a raw pointer would need a proof
//! by hand in each of these functions. The header makes the tests: its function `jetukoma_..` tests its pointers, and
//! calls `jetukoma_.._unchecked`.
#![tactic(auto)]

// Makes a call on the table of a handle, and returns the status. A table of each kind has a call of its own, or all
// kinds have the same. If only kinds with an order have a call, the status is `NO_ORDER` for the others. It is
// `NO_TABLE` if the handle has no table of these sides. Each way out of the function is proved separately.
macro_rules! on_table {
    ($handle:ident, $alloc:ident, $sides:ident, $table:ident => $call:expr) => {
        on_table!($handle, $alloc, $sides, Ordered($table) => $call, Hashed($table) => $call, InsertionOrder($table) => $call)
    };
    ($handle:ident, $alloc:ident, $sides:ident, Ordered($table:pat) => $call:expr) => {
        on_table!($handle, $alloc, $sides, Ordered($table) => $call, Hashed(_) => crate::status::NO_ORDER, InsertionOrder(_) => crate::status::NO_ORDER)
    };
    ($handle:ident, $alloc:ident, $sides:ident, InsertionOrder($table:pat) => $call:expr) => {
        on_table!($handle, $alloc, $sides, Ordered(_) => crate::status::NO_ORDER, Hashed(_) => crate::status::NO_ORDER, InsertionOrder($table) => $call)
    };
    ($handle:ident, $alloc:ident, $sides:ident, Ordered($table:pat) => $call:expr, InsertionOrder($other:pat) => $last:expr) => {
        on_table!($handle, $alloc, $sides, Ordered($table) => $call, Hashed(_) => crate::status::NO_ORDER, InsertionOrder($other) => $last)
    };
    ($handle:ident, $alloc:ident, $sides:ident, $($kind:ident($table:pat) => $call:expr),+) => {{
        let Some(mut held) = $handle.take($alloc) else {
            return crate::status::NO_TABLE;
        };
        match &mut *held {
            $(crate::c_table::CTable::$sides(bimap_dynamic::AnyOf::$kind($table)) => {
                let status = $call;
                $handle.put(held);
                status
            })+
            _ => {
                $handle.put(held);
                crate::status::NO_TABLE
            }
        }
    }};
}

// Makes a call that reads the tables of two handles, and returns the status. The status is `NO_TABLE` if a handle has
// no table of these sides.
macro_rules! on_both {
    ($handle:ident, $other:ident, $alloc:ident, $sides:ident, $table:ident, $others:ident => $call:expr) => {{
        let Some(held) = $handle.take($alloc) else {
            return crate::status::NO_TABLE;
        };
        let Some(other_held) = $other.take($alloc) else {
            $handle.put(held);
            return crate::status::NO_TABLE;
        };
        let status = match (&*held, &*other_held) {
            (crate::c_table::CTable::$sides($table), crate::c_table::CTable::$sides($others)) => {
                $call
            }
            _ => crate::status::NO_TABLE,
        };
        $handle.put(held);
        $other.put(other_held);
        status
    }};
}

// Puts a clone of the table of a handle into another handle, and returns the status. The status is `NO_TABLE` if the
// first handle has no table of these sides, or if the second one has a table.
macro_rules! clone_into {
    ($handle:ident, $copy:ident, $alloc:ident, $sides:ident, $table:ident => $clone:expr) => {{
        if let Some(held) = $copy.take($alloc) {
            $copy.put(held);
            return crate::status::NO_TABLE;
        }
        let Some(held) = $handle.take($alloc) else {
            return crate::status::NO_TABLE;
        };
        let status = match &*held {
            crate::c_table::CTable::$sides($table) => match $clone {
                Some(made) => $copy.make($alloc, crate::c_table::CTable::$sides(made)),
                None => crate::status::NO_MEMORY,
            },
            _ => crate::status::NO_TABLE,
        };
        $handle.put(held);
        status
    }};
}

mod by_right;
pub mod byte_string;
pub mod bytes;
pub mod bytes_bytes;
mod bytes_calls;
pub mod bytes_u64;
pub mod c_table;
mod calls;
mod compare;
mod copy;
pub mod exports_bytes_bytes;
pub mod exports_bytes_bytes_both;
pub mod exports_bytes_bytes_order;
pub mod exports_bytes_u64;
pub mod exports_bytes_u64_both;
pub mod exports_bytes_u64_order;
pub mod exports_u64_u64;
pub mod exports_u64_u64_both;
pub mod exports_u64_u64_order;
mod fill;
pub mod handle;
mod json;
pub mod kind;
mod raw_box;
pub mod status;
pub mod table_pointer;
pub mod u64_u64;
mod u64_u64_calls;
mod unpack;
