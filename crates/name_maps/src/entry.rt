//! An entry of a name map, and the numbers of the subsections (core specification, appendix, name
//! section).

ghost use Rattle.std.specs.Prelude.{◌≡◌};
ghost use Rattle.name_maps.specs.Entries.{entry_of, entry_in};

/// The subsection with the name of the module.
pub const MODULE: u8 = 0;

/// The subsection with names of functions.
pub const FUNCTIONS: u8 = 1;

/// The subsection with names of the locals of functions.
pub const LOCALS: u8 = 2;

/// The subsection with names of the labels of functions, of the extended name section.
pub const LABELS: u8 = 3;

/// The subsection with names of types.
pub const TYPES: u8 = 4;

/// The subsection with names of tables, of the extended name section.
pub const TABLES: u8 = 5;

/// The subsection with names of memories, of the extended name section.
pub const MEMORIES: u8 = 6;

/// The subsection with names of globals, of the extended name section.
pub const GLOBALS: u8 = 7;

/// The subsection with names of element segments, of the extended name section.
pub const ELEMENT_SEGMENTS: u8 = 8;

/// The subsection with names of data segments, of the extended name section.
pub const DATA_SEGMENTS: u8 = 9;

/// The subsection with names of the fields of types.
pub const FIELDS: u8 = 10;

/// The subsection with names of tags.
pub const TAGS: u8 = 11;

/// A name, and what it names.
#[derive(Clone, Copy, Debug, PartialEq, Eq)]
pub struct NameEntry<'d> {
    /// The id of the subsection, at most `TAGS`.
    pub subsection: u8,
    /// The index that has the name; 0 for the name of the module. Where `inner` is there, the
    /// function or the type to which the local, the label or the field belongs.
    pub index: u32,
    /// The local, the label or the field that has the name; `None` in other subsections.
    pub inner: Option<u32>,
    pub name: &'d str,
}

/// The entry of an index and its name, in the name map of a subsection, or in that of an outer
/// index.
pub(crate) fn entry<'d>(
    subsection: u8,
    outer: Option<u32>,
    index: u32,
    name: &'d str,
) -> NameEntry<'d>
    ensures { entry_of result ≡ entry_in subsection outer (index, name.now) }
{
    match outer {
        None => NameEntry {
            subsection,
            index,
            inner: None,
            name,
        },
        Some(outer) => NameEntry {
            subsection,
            index: outer,
            inner: Some(index),
            name,
        },
    }
}
