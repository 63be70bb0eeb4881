//! The ordered index allocates no more memory than the cells of which it consists.
use bimap_base::Cells;
use bimap_tree::Ordered;
use std::alloc::{AllocError, Global};
use std::test::Fail;
use test_support::MemoryLimit;

// The number of steps. With 16 bytes a step, they are more memory than a thousand cells take.
const STEPS: usize = 2400;

// Returns the number of steps after which a thousand cells can be allocated, or `None` if they never can.
fn steps_of_cells(alloc: Global) -> Result<Option<usize>, AllocError> {
    let mut limit = MemoryLimit::begin(alloc, STEPS)?;
    for step in 0..STEPS {
        let mut cells = Cells::new(alloc);
        if cells.grow(1000).is_ok() {
            return Ok(Some(step));
        }
        limit.raise()?;
    }
    Ok(None)
}

// Returns the number of steps after which an index for a thousand places can be allocated, or `None` if it never can.
fn steps_of_index(alloc: Global) -> Result<Option<usize>, AllocError> {
    let mut limit = MemoryLimit::begin(alloc, STEPS)?;
    for step in 0..STEPS {
        let mut index = Ordered::new(alloc);
        if index.grow(1000).is_ok() {
            return Ok(Some(step));
        }
        limit.raise()?;
    }
    Ok(None)
}

#[test]
fn an_index_grows_by_its_cells_alone(rt: HostRuntime) -> Result<(), Fail> {
    let cells = steps_of_cells(rt.alloc())?;
    let index = steps_of_index(rt.alloc())?;
    assert!(rt; cells.is_some_and(|steps| steps > 0), "{cells:?}");
    assert!(rt; index.is_some() && index <= cells, "{index:?} {cells:?}");
    Ok(())
}
