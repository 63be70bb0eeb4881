//! Copies of lefts. The record of an insertion has one.
ghost use Rattle.std.specs.Prelude.{◌≡◌, true, Ok, IfOk};

use bimap::NoMemory;
use std::alloc::Global;

/// A left that can be copied into the record.
pub trait CopyLeft: Eq + Sized {
    /// Returns a value equal to this one.
    ///
    /// A `char`, a `bool` or a number never returns an `Err`.
    ///
    /// Time: O(length of the text) for a `String`, and O(1) for the other types here.
    ///
    /// Memory: Of the types here, only `String` allocates.
    ///
    /// `Err`: Out of memory. There is no copy.
    fn copy_left(&self, alloc: Global) -> Result<Self, NoMemory>
        ensures { IfOk result (λ copy. Self.eq copy self.now ≡ true) };
}

impl CopyLeft for char {
    fn copy_left(&self, _alloc: Global) -> Result<char, NoMemory>
        ensures { result ≡ Ok self.now }
    {
        let copy: char = *self;
        Ok(copy)
    }
}

impl CopyLeft for bool {
    fn copy_left(&self, _alloc: Global) -> Result<bool, NoMemory>
        ensures { result ≡ Ok self.now }
    {
        let copy: bool = *self;
        Ok(copy)
    }
}

impl CopyLeft for String {
    fn copy_left(&self, _alloc: Global) -> Result<String, NoMemory> {
        Ok(self.clone()?)
    }
}

impl CopyLeft for u8 {
    fn copy_left(&self, _alloc: Global) -> Result<u8, NoMemory>
        ensures { result ≡ Ok self.now }
    {
        let copy: u8 = *self;
        Ok(copy)
    }
}

impl CopyLeft for u16 {
    fn copy_left(&self, _alloc: Global) -> Result<u16, NoMemory>
        ensures { result ≡ Ok self.now }
    {
        let copy: u16 = *self;
        Ok(copy)
    }
}

impl CopyLeft for u32 {
    fn copy_left(&self, _alloc: Global) -> Result<u32, NoMemory>
        ensures { result ≡ Ok self.now }
    {
        let copy: u32 = *self;
        Ok(copy)
    }
}

impl CopyLeft for u64 {
    fn copy_left(&self, _alloc: Global) -> Result<u64, NoMemory>
        ensures { result ≡ Ok self.now }
    {
        let copy: u64 = *self;
        Ok(copy)
    }
}

impl CopyLeft for usize {
    fn copy_left(&self, _alloc: Global) -> Result<usize, NoMemory>
        ensures { result ≡ Ok self.now }
    {
        let copy: usize = *self;
        Ok(copy)
    }
}

impl CopyLeft for i8 {
    fn copy_left(&self, _alloc: Global) -> Result<i8, NoMemory>
        ensures { result ≡ Ok self.now }
    {
        let copy: i8 = *self;
        Ok(copy)
    }
}

impl CopyLeft for i16 {
    fn copy_left(&self, _alloc: Global) -> Result<i16, NoMemory>
        ensures { result ≡ Ok self.now }
    {
        let copy: i16 = *self;
        Ok(copy)
    }
}

impl CopyLeft for i32 {
    fn copy_left(&self, _alloc: Global) -> Result<i32, NoMemory>
        ensures { result ≡ Ok self.now }
    {
        let copy: i32 = *self;
        Ok(copy)
    }
}

impl CopyLeft for i64 {
    fn copy_left(&self, _alloc: Global) -> Result<i64, NoMemory>
        ensures { result ≡ Ok self.now }
    {
        let copy: i64 = *self;
        Ok(copy)
    }
}
