//! The box of a table as a bare pointer, so that a C program can keep it.
ghost use Rattle.std.specs.Prelude.{◌≡◌, Option, None, Some, IsSome};
ghost use Rattle.std.specs.Box.Ownership.{box_owns};
ghost use Rattle.std_heap.specs.contracts.GlobalAllocator.TheImpl.{ghosts};
ghost use Rattle.bimap_c.specs.Pointers.{pointer_owns};
ghost use Rattle.bimap_c.specs.declared.c_table.CTable.{CTable};
ghost use Rattle.bimap_c.specs.contracts.c_table.CTable.{the_row as table_row};

use crate::c_table::CTable;
use crate::raw_box::RawBox;
use std::alloc::Global;
use std::marker::{Model, Send};
use std::ptr::null_mut;

/// The allocation of a table, or none.
#[repr(C)]
#[derive(Drop)]
pub struct TablePointer {
    at: *mut u8,
    alloc: Global,
    /// The table, if there is one.
    pub ghost value: { Option CTable },
}

impl Model for TablePointer {
    ghost also_owns = { λ p. pointer_owns (box_owns (ghosts.dealloc_token p.alloc) table_row) p.at
        p.value };
}

unsafe impl Send for TablePointer {}

impl TablePointer {
    /// Returns a pointer to no table.
    pub fn empty(alloc: Global) -> TablePointer
        ensures { result.value ≡ None }
    {
        TablePointer {
            at: null_mut(),
            alloc,
        }
    }

    /// Returns the pointer to the table in a box.
    pub(crate) fn of_parts(raw: RawBox<CTable, Global>) -> TablePointer
        ensures { result.value ≡ Some raw.value }
    {
        let RawBox { at, alloc } = raw;
        TablePointer {
            at: at as *mut u8,
            alloc,
        }
    }

    /// Returns the box of the table.
    pub(crate) fn into_parts(self) -> RawBox<CTable, Global>
        requires { IsSome self.value }
        ensures { self.value ≡ Some result.value }
    {
        let TablePointer { at, alloc } = self;
        RawBox {
            at: at as *mut CTable,
            alloc,
        }
    }
}
