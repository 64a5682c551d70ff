//! The kinds of objects, as bit masks.

ghost use Rattle.std.specs.Prelude.{◌≡◌, ◌≤◌, ◌↔◌, IsTrue, bit_and};
ghost use Rattle.gc_layout.specs.Kinds.{kind_number, MatchesKind};

/// The kind of an object, in the highest six bits of a 32-bit number. A kind has the bits of each
/// kind above it in the tree of subtypes (core specification, 3.3, heap types), so that one `and`
/// tests whether an object is of a type.
#[derive(Clone, Copy, Debug, PartialEq, Eq)]
pub enum VMGcKind {
    /// A value of the host.
    ExternRef = 0x4000_0000,
    /// Any value of the internal hierarchy.
    AnyRef = 0x8000_0000,
    /// A value that can be compared.
    EqRef = 0xA000_0000,
    /// An array.
    ArrayRef = 0xA800_0000,
    /// A struct.
    StructRef = 0xB000_0000,
    /// An exception.
    ExnRef = 0x0400_0000,
}

/// The size of a kind in the heap, in bytes.
pub const VM_GC_KIND_SIZE: u8 = 4;

const KINDS: [VMGcKind; 6] = [
    VMGcKind::ExternRef,
    VMGcKind::AnyRef,
    VMGcKind::EqRef,
    VMGcKind::ArrayRef,
    VMGcKind::StructRef,
    VMGcKind::ExnRef,
];

const _: () = prove!(VM_GC_KIND_SIZE == 4);

const _: () = prove!(VMGcKind::MASK == 0xFC00_0000);

const _: () = prove!(VMGcKind::UNUSED_MASK == 0x03FF_FFFF);

impl VMGcKind {
    /// The bits that the kinds use.
    pub const MASK: u32 = 0xFC00_0000;

    /// The bits that no kind uses.
    pub const UNUSED_MASK: u32 = 0x03FF_FFFF;

    /// Whether a value has none of the bits that the kinds use: whether it is at most 67108863.
    pub fn value_fits_in_unused_bits(value: u32) -> bool
        ensures { IsTrue result ↔ (value ≤ 67108863) }
    {
        value <= Self::UNUSED_MASK
    }

    /// The kind in the high six bits of a number; `None` exactly where no kind has these bits.
    pub fn from_high_bits_of_u32(val: u32) -> Option<VMGcKind>
        ensures { (kind : VMGcKind) → (result ≡ Some kind) ↔ (kind_number kind ≡ bit_and val 0xFC000000) }
    {
        Self::try_from_u32(val & Self::MASK)
    }

    /// Whether an object of this kind is one of the other: whether the number of this kind has
    /// every bit of that of the other.
    pub fn matches(self, other: Self) -> bool
        ensures { IsTrue result ↔ MatchesKind self other }
    {
        self.as_u32() & other.as_u32() == other.as_u32()
    }

    /// The number of the kind.
    pub fn as_u32(self) -> u32
        ensures { result ≡ kind_number self }
    {
        self as u32
    }

    /// The kind of a number; `None` exactly where no kind has it.
    pub fn try_from_u32(x: u32) -> Option<VMGcKind>
        ensures { (kind : VMGcKind) → (result ≡ Some kind) ↔ (kind_number kind ≡ x) }
    {
        KINDS.iter().copied().find(|kind| kind.as_u32() == x)
    }
}
