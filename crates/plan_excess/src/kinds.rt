//! What may be too large, and how it prints.

ghost use Rattle.std.specs.Prelude.{◌≡◌, Some};
ghost use Rattle.plan_excess.specs.Excess.{entry_of};
ghost use Rattle.plan_excess.specs.ExcessTexts.{kind_text, excess_text};

use rule_breaks::{Break, EntryPlace, ModuleList};
use std::fmt;

/// What makes a module too large to be planned.
#[derive(Clone, Copy, Debug, PartialEq, Eq)]
pub enum ExcessKind {
    /// The input has 2^30 bytes or more.
    Input,
    /// With the image of this memory the runtime data pass 4294967295 bytes; with the images
    /// before it they do not.
    Image { memory: u32 },
    /// An object of the type with this index has more than 4294967295 bytes; of each type before
    /// it, it has not. Of an array, the part before its elements counts.
    Object { type_index: u32 },
    /// An exception of this tag has more than 4294967295 bytes; no object of any type has, and no
    /// exception of a tag before this one.
    Exception { tag: u32 },
    /// The context of an instance has more than 4294967295 bytes; no object and no exception has.
    Context,
}

/// What makes a module too large, and where it is.
#[derive(Clone, Copy, Debug, PartialEq, Eq)]
pub struct Excess {
    pub kind: ExcessKind,
    /// The entry of a section that has the memory, the type or the tag; none of the input and the
    /// context.
    pub place: Option<EntryPlace>,
}

impl ExcessKind {
    /// The entry of a list of the module; none of the input and the context.
    pub fn entry(self) -> Option<Break>
        ensures { result ≡ entry_of self }
    {
        let (list, entry) = match self {
            ExcessKind::Image { memory } => (ModuleList::Memories, memory),
            ExcessKind::Object { type_index } => (ModuleList::Types, type_index),
            ExcessKind::Exception { tag } => (ModuleList::Tags, tag),
            ExcessKind::Input | ExcessKind::Context => return None,
        };
        Some(Break { list, entry })
    }
}

/// As in `an object of type 5 has more than 4294967295 bytes`.
impl fmt::Display for ExcessKind {
    ghost output = { λ k. Some (kind_text k) };

    fn fmt<W: fmt::Write>(&self, f: &mut fmt::Formatter<W>) -> fmt::Result {
        match *self {
            ExcessKind::Input => f.write_str("the input has more than 1073741823 bytes"),
            ExcessKind::Image { memory } => write!(
                f,
                "with the image of memory {memory}, the runtime data have more than 4294967295 bytes"
            ),
            ExcessKind::Object { type_index } => write!(
                f,
                "an object of type {type_index} has more than 4294967295 bytes"
            ),
            ExcessKind::Exception { tag } => write!(
                f,
                "an exception of tag {tag} has more than 4294967295 bytes"
            ),
            ExcessKind::Context => {
                f.write_str("the context of an instance has more than 4294967295 bytes")
            }
        }
    }
}

/// As in `type section, entry 2: an object of type 5 has more than 4294967295 bytes`.
impl fmt::Display for Excess {
    ghost output = { λ e. Some (excess_text e) };

    fn fmt<W: fmt::Write>(&self, f: &mut fmt::Formatter<W>) -> fmt::Result {
        match self.place {
            Some(place) => write!(
                f,
                "{}, entry {}: {}",
                place.section, place.section_entry, self.kind
            ),
            None => self.kind.fmt(f),
        }
    }
}
