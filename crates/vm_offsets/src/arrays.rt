//! Arrays of a context.

ghost use Rattle.std.specs.Prelude.{◌≡◌, ◌<◌, ◌≤◌, ◌+◌, ◌*◌, ℕ};
ghost use Rattle.wasm_index.specs.Index.{number_of};
ghost use Rattle.vm_offsets.specs.Arrays.{array_of, begin_of, stride_of, count_of};

use entity_map::EntityRef;
use std::marker::PhantomData;
use wasm_index::Index;

/// An index of an array of a context.
pub trait VmctxArrayIndex: Copy {
    /// The position in the array.
    ghost array_place: { Self → ℕ };

    /// The position in the array, from 0.
    fn vmctx_array_index(self) -> u32
        ensures { result ≡ array_place self };
}

impl<Space> VmctxArrayIndex for Index<Space> {
    ghost array_place = { number_of };

    fn vmctx_array_index(self) -> u32 {
        self.as_u32()
    }
}

/// Where an array of a context begins, the bytes from one element to the next, and how many there are.
#[derive_where(Clone, Copy, Debug)]
pub struct ArrayOffsets<I> {
    begin: u32,
    stride: u32,
    count: u32,
    index: PhantomData<I>,
}

impl<I> ArrayOffsets<I> {
    /// The array of `count` elements that begins at `begin`, and whose elements are `stride` bytes apart.
    pub fn new(begin: u32, stride: u32, count: u32) -> Self
        ensures { result ≡ array_of begin stride count }
    {
        ArrayOffsets {
            begin,
            stride,
            count,
            index: PhantomData,
        }
    }

    /// The first byte, from the start of the context.
    pub fn begin(&self) -> u32
        ensures { result ≡ begin_of self.now }
    {
        self.begin
    }

    /// The bytes from one element to the next.
    pub fn stride(&self) -> u32
        ensures { result ≡ stride_of self.now }
    {
        self.stride
    }

    /// The number of elements.
    pub fn count(&self) -> u32
        ensures { result ≡ count_of self.now }
    {
        self.count
    }
}

impl<I: VmctxArrayIndex> ArrayOffsets<I> {
    /// The first byte of an element, from the start of the context.
    pub fn at(&self, index: I) -> u32
        requires below { I.array_place index < count_of self.now }
        requires fits { begin_of self.now + I.array_place index * stride_of self.now ≤ u32.MAX }
        ensures { result ≡ begin_of self.now + I.array_place index * stride_of self.now }
    {
        self.begin + index.vmctx_array_index() * self.stride
    }
}
