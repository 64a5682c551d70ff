//! What is wrong with an entry that breaks a rule.

/// An index space of a module (core specification, 2.5, indices).
#[derive(Clone, Copy, Debug, PartialEq, Eq)]
pub enum IndexSpace {
    Types,
    Functions,
    Tables,
    Memories,
    Globals,
    Tags,
}

/// Where in an entry a constant expression stands.
#[derive(Clone, Copy, Debug, PartialEq, Eq)]
pub enum ExpressionPlace {
    /// The initialiser of a table or a global.
    Initialiser,
    /// The offset of a segment.
    Offset,
    /// An item of an element segment, from 0 on.
    Item(u32),
}

/// What is wrong with an entry that breaks a rule, with the numbers that were found.
#[derive(Clone, Copy, Debug, PartialEq, Eq)]
pub enum RuleFault {
    /// The entry names an index of a space that has only `count` entries.
    NoSuchEntry {
        space: IndexSpace,
        index: u32,
        count: u64,
    },
    /// A type names a type index that is not below `bound`: the end of its own group, or for the
    /// supertype its own index.
    NoEarlierType {
        index: u32,
        bound: u64,
    },
    /// The type that has this index is no function type.
    NotAFunctionType(u32),
    /// So many functions are defined, and there are so many bodies.
    BodyCount {
        functions: u64,
        bodies: u64,
    },
    /// The data count section states another number of data segments than there are.
    DataCount {
        stated: u32,
        segments: u64,
    },
    /// A body has so many locals, more than 4294967295.
    ManyLocals(u64),
    /// The maximum of a table or a memory is below the minimum.
    MaximumBelowMinimum {
        minimum: u64,
        maximum: u64,
    },
    /// The page size of a memory, as an exponent of 2, is neither 0 nor 16.
    PageSize(u32),
    /// So many pages of 2^`log2` bytes are more than addresses of so many bits reach.
    ManyPages {
        pages: u64,
        log2: u32,
        address_bits: u32,
    },
    /// A memory is shared and has no maximum.
    SharedWithoutMaximum,
    /// The cells of a table cannot be null, and the table has no initialiser.
    NotInitialised,
    /// The expression at this place has another type than its place requires.
    Mistyped(ExpressionPlace),
    /// The export with this number, an earlier one, has the same name.
    RepeatedName {
        earlier: u32,
    },
    /// The type of the start function, which has this index, has parameters or results.
    StartType {
        function: u32,
    },
    /// A type is named by an index that is not the module's. Modules that are read have no such
    /// index.
    ForeignIndex,
}
