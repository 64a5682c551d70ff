//! The trait of values that give a size of pointers.

ghost use Rattle.std.specs.Prelude.{◌≡◌};

use vm_structs::PtrSize;

/// A value that gives a size of pointers.
pub trait GetPtrSize {
    /// The type of the size of pointers.
    type Ptr: PtrSize;

    /// The size of pointers.
    ghost ptr_size: { Self → Self.Ptr };

    /// The size of pointers.
    fn get_ptr_size(&self) -> &Self::Ptr
        ensures { result.now ≡ ptr_size self.now };
}

impl<P: PtrSize> GetPtrSize for P {
    type Ptr = Self;

    ghost ptr_size = { λ ptr. ptr };

    fn get_ptr_size(&self) -> &P {
        self
    }
}
