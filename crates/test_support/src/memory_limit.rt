//! A limit on the memory that the process can still allocate. It knows nothing of what is tested.
use std::alloc::{AllocError, Global};

/// The memory that is withheld from the process. Dropping it gives all of it back.
#[derive(Drop)]
pub struct MemoryLimit {
    alloc: Global,
    held: Vec<Vec<u8>>,
    rooms: Vec<Vec<u8>>,
}

impl MemoryLimit {
    /// Allocates all the memory that the process can get. Sets `steps` blocks of it aside, each of another size, for
    /// `raise` to give back.
    pub fn begin(alloc: Global, steps: usize) -> Result<MemoryLimit, AllocError> {
        let held = Vec::with_capacity(alloc, 1 << 17)?;
        let mut rooms = Vec::with_capacity(alloc, steps)?;
        let mut bytes = steps.saturating_mul(16).saturating_add(4064);
        for _ in 0..steps {
            rooms.push(Vec::with_capacity(alloc, bytes)?)?;
            bytes = bytes.saturating_sub(16);
        }
        let mut memory_limit = MemoryLimit { alloc, held, rooms };
        memory_limit.gather(1 << 46)?;
        Ok(memory_limit)
    }

    /// Allocates all free blocks of up to `size` bytes.
    pub fn gather(&mut self, size: usize) -> Result<(), AllocError> {
        let mut size = size;
        for _ in 0..120000u32 {
            match Vec::with_capacity(self.alloc, size) {
                Ok(block) => self.held.push(block)?,
                Err(_) if size > 1024 => size /= 2,
                Err(_) if size > 16 => size -= 16,
                Err(_) => break,
            }
        }
        Ok(())
    }

    /// Lets the process allocate one block, 16 bytes larger than after the last call. Returns `false` if no block is
    /// left to give back.
    pub fn raise(&mut self) -> Result<bool, AllocError> {
        self.gather(1 << 17)?;
        let Some(room) = self.rooms.pop() else {
            return Ok(false);
        };
        drop(room);
        self.held.push(Vec::with_capacity(self.alloc, 4000)?)?;
        Ok(true)
    }
}
