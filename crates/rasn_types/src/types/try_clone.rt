//! Copies of values that own memory.
ghost use Rattle.std.specs.Prelude.{◌≡◌, IfOk};

use crate::types::{AsnType, Date, GeneralizedTime, UtcTime};
use std::alloc::{AllocError, Global};

/// A type whose values are copied with an allocator, which may fail.
pub trait TryClone: AsnType {
    /// Returns a copy of the value.
    ///
    /// # Errors
    /// If an allocation fails.
    fn try_clone(&self, alloc: Global) -> Result<Self, AllocError>
        ensures { IfOk result (λ v. Self.tree v ≡ Self.tree self.now) };
}

impl TryClone for bool {
    fn try_clone(&self, _alloc: Global) -> Result<bool, AllocError>
        ensures { IfOk result (λ v. v ≡ self.now) }
    {
        Ok(*self)
    }
}

impl TryClone for i8 {
    fn try_clone(&self, _alloc: Global) -> Result<i8, AllocError>
        ensures { IfOk result (λ v. v ≡ self.now) }
    {
        Ok(*self)
    }
}

impl TryClone for i16 {
    fn try_clone(&self, _alloc: Global) -> Result<i16, AllocError>
        ensures { IfOk result (λ v. v ≡ self.now) }
    {
        Ok(*self)
    }
}

impl TryClone for i32 {
    fn try_clone(&self, _alloc: Global) -> Result<i32, AllocError>
        ensures { IfOk result (λ v. v ≡ self.now) }
    {
        Ok(*self)
    }
}

impl TryClone for i64 {
    fn try_clone(&self, _alloc: Global) -> Result<i64, AllocError>
        ensures { IfOk result (λ v. v ≡ self.now) }
    {
        Ok(*self)
    }
}

impl TryClone for i128 {
    fn try_clone(&self, _alloc: Global) -> Result<i128, AllocError>
        ensures { IfOk result (λ v. v ≡ self.now) }
    {
        Ok(*self)
    }
}

impl TryClone for isize {
    fn try_clone(&self, _alloc: Global) -> Result<isize, AllocError>
        ensures { IfOk result (λ v. v ≡ self.now) }
    {
        Ok(*self)
    }
}

impl TryClone for u8 {
    fn try_clone(&self, _alloc: Global) -> Result<u8, AllocError>
        ensures { IfOk result (λ v. v ≡ self.now) }
    {
        Ok(*self)
    }
}

impl TryClone for u16 {
    fn try_clone(&self, _alloc: Global) -> Result<u16, AllocError>
        ensures { IfOk result (λ v. v ≡ self.now) }
    {
        Ok(*self)
    }
}

impl TryClone for u32 {
    fn try_clone(&self, _alloc: Global) -> Result<u32, AllocError>
        ensures { IfOk result (λ v. v ≡ self.now) }
    {
        Ok(*self)
    }
}

impl TryClone for u64 {
    fn try_clone(&self, _alloc: Global) -> Result<u64, AllocError>
        ensures { IfOk result (λ v. v ≡ self.now) }
    {
        Ok(*self)
    }
}

impl TryClone for u128 {
    fn try_clone(&self, _alloc: Global) -> Result<u128, AllocError>
        ensures { IfOk result (λ v. v ≡ self.now) }
    {
        Ok(*self)
    }
}

impl TryClone for usize {
    fn try_clone(&self, _alloc: Global) -> Result<usize, AllocError>
        ensures { IfOk result (λ v. v ≡ self.now) }
    {
        Ok(*self)
    }
}

impl TryClone for () {
    fn try_clone(&self, _alloc: Global) -> Result<(), AllocError>
        ensures { IfOk result (λ v. v ≡ self.now) }
    {
        Ok(*self)
    }
}

impl TryClone for Date {
    fn try_clone(&self, _alloc: Global) -> Result<Date, AllocError>
        ensures { IfOk result (λ v. v ≡ self.now) }
    {
        Ok(*self)
    }
}

impl TryClone for UtcTime {
    fn try_clone(&self, _alloc: Global) -> Result<UtcTime, AllocError>
        ensures { IfOk result (λ v. v ≡ self.now) }
    {
        Ok(*self)
    }
}

impl TryClone for GeneralizedTime {
    fn try_clone(&self, _alloc: Global) -> Result<GeneralizedTime, AllocError>
        ensures { IfOk result (λ v. v ≡ self.now) }
    {
        Ok(*self)
    }
}
