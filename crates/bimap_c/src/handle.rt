//! The handle, which belongs to the C program.
ghost use Rattle.std.specs.Prelude.{◌≡◌, ◌⊎◌, None, Some, is_some, MatchOption};
ghost use Rattle.std.specs.Option.{option_map};
ghost use Rattle.bimap_c.specs.Calls.{Frees};

use crate::c_table::CTable;
use crate::raw_box::RawBox;
use crate::status::{DONE, NO_MEMORY, NO_TABLE};
use crate::table_pointer::TablePointer;
use std::alloc::Global;
use std::marker::Send;
use std::mem::replace;

/// A handle with a table or without one. It has 16 bytes. If all are 0, there is no table.
#[repr(C)]
#[derive(Drop)]
pub struct Handle {
    table: TablePointer,
    live: bool,
    /// Whether there is a table.
    pub ghost tie: { is_some table.value ≡ live },
}

impl Handle {
    /// Returns a handle with no table.
    pub fn none(alloc: Global) -> Handle
        ensures { result.table.value ≡ None }
    {
        Handle {
            table: TablePointer::empty(alloc),
            live: false,
        }
    }

    /// Takes the table out of the handle, and returns it.
    pub fn take(&mut self, alloc: Global) -> Option<Box<CTable>>
        ensures table { option_map (λ b. b.value) result ≡ self.old.table.value }
        ensures left { self.new.table.value ≡ None }
    {
        let Handle { table, live } = replace(self, Handle::none(alloc));
        if live {
            Some(table.into_parts().into_box())
        } else {
            None
        }
    }

    /// Puts a table into a handle that has none.
    pub fn put(&mut self, boxed: Box<CTable>)
        requires { self.old.table.value ≡ None }
        ensures { self.new.table.value ≡ Some boxed.value }
    {
        let full = Handle {
            table: TablePointer::of_parts(RawBox::of(boxed)),
            live: true,
        };
        drop(replace(self, full));
    }

    /// Puts a new table into a handle that has none, and returns the status.
    pub fn make(&mut self, alloc: Global, table: CTable) -> u32
        ensures { MatchOption self.old.table.value
            (((result ≡ 0) × (self.new.table.value ≡ Some table))
            ⊎ ((result ≡ 1) × (self.new.table.value ≡ None)))
            (λ _. (result ≡ 2) × (self.new.table.value ≡ self.old.table.value)) }
    {
        if let Some(held) = self.take(alloc) {
            self.put(held);
            return NO_TABLE;
        }
        match Box::new(alloc, table) {
            Ok(made) => {
                self.put(made);
                DONE
            }
            Err(_) => NO_MEMORY,
        }
    }

    /// Frees the table if there is one, and returns the status.
    pub fn free(&mut self, alloc: Global) -> u32
        ensures { Frees self.old.table.value result self.new.table.value }
    {
        match self.take(alloc) {
            Some(table) => {
                drop(table);
                DONE
            }
            None => NO_TABLE,
        }
    }
}

// A handle can be sent to another thread.
fn may_go<T: Send>(_value: &T) {}

fn handle_may_go(handle: &Handle) {
    may_go(handle);
}
