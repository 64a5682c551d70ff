//! Where and why bytes are refused.

ghost use Rattle.std.specs.Prelude.{◌≡◌, Some};
ghost use Rattle.refusal_place.specs.Texts.{what_text, fault_text, fault_at_text, fault_in_text, place_text};

use crate::kind::SectionKind;
use std::fmt;
use wasm_spec::What;

/// What is wrong at a place.
#[derive(Clone, Copy, Debug, PartialEq, Eq)]
pub enum Fault {
    /// The input does not begin with the header of a module.
    Header,
    /// No section has this id.
    UnknownSection(u8),
    /// A section of this kind may not follow the sections before it.
    SectionOrder,
    /// The size of the section is no unsigned number of 32 bits.
    SectionSize,
    /// The input ends before the section does, which should reach to this offset.
    SectionEnd(u64),
    /// The contents should be one number, and are not.
    Number,
    /// A custom section does not begin with a name.
    Name,
    /// The number of entries is no unsigned number of 32 bits.
    Count,
    /// The bytes spell no entry of the section.
    Entry,
    /// The section has bytes after its last entry.
    Remainder,
    /// A spelling that is well formed and not supported.
    Unsupported(What),
}

/// Where and why bytes are refused. Offsets count the bytes of the input, from 0 on.
#[derive(Clone, Copy, Debug, PartialEq, Eq)]
pub struct Place {
    /// The kind of the section; `None` in the header, and where the id is unknown.
    pub section: Option<SectionKind>,
    /// The offset of the section, which begins with its id; 0 in the header.
    pub section_start: u32,
    /// The entry of the section, from 0 on, where an entry is wrong.
    pub entry: Option<u32>,
    /// The offset at which the wrong entry or part begins; the length of the input where that ends
    /// inside the header or a section.
    pub byte: u32,
    /// What is wrong.
    pub fault: Fault,
    /// No input that begins with so many of these bytes is a module. `None` where the input ends
    /// inside the header, a size or a section.
    pub decided: Option<u32>,
}

/// A fault, and how many bytes decide it.
#[derive(Clone, Copy)]
struct FaultAt {
    fault: Fault,
    decided: Option<u32>,
}

/// A fault in a section of this kind.
#[derive(Clone, Copy)]
struct FaultIn {
    section: SectionKind,
    at: FaultAt,
}

/// What is not supported, as a sentence.
fn unsupported(what: What) -> &'static str
    ensures { result.now ≡ what_text what }
{
    match what {
        What::Component => "components are not supported",
        What::Shared => "shared types are not supported",
        What::Supertypes => "types with two or more supertypes are not supported",
        What::Operator => "an instruction in a constant expression is not supported",
        What::ExactImport => "imports of exact function types are not supported",
        What::InterfaceTypes => "custom sections of interface types are not supported",
    }
}

impl fmt::Display for Fault {
    ghost output = { λ x. Some (fault_text x) };

    fn fmt<W: fmt::Write>(&self, f: &mut fmt::Formatter<W>) -> fmt::Result {
        match self {
            Fault::Header => f.write_str("the input does not begin with the header of a module"),
            Fault::UnknownSection(id) => write!(f, "no section has the id {id}"),
            Fault::SectionOrder => f.write_str(
                "a section of this kind may not follow the sections before it",
            ),
            Fault::SectionSize => f.write_str(
                "the size of the section is no unsigned number of 32 bits",
            ),
            Fault::SectionEnd(end) => write!(
                f,
                "the input ends inside the section, which should reach to byte {end}"
            ),
            Fault::Number => f.write_str(
                "the contents of the section are not one unsigned number of 32 bits",
            ),
            Fault::Name => f.write_str("the contents of the section do not begin with a name"),
            Fault::Count => f.write_str("the number of entries is no unsigned number of 32 bits"),
            Fault::Entry => f.write_str("this is no entry of the section"),
            Fault::Remainder => f.write_str("bytes follow the last entry of the section"),
            Fault::Unsupported(what) => f.write_str(unsupported(*what)),
        }
    }
}

impl fmt::Display for FaultAt {
    ghost output = { λ x. Some (fault_at_text x.decided x.fault) };

    fn fmt<W: fmt::Write>(&self, f: &mut fmt::Formatter<W>) -> fmt::Result {
        match (self.decided, self.fault) {
            (None, Fault::Header) => {
                f.write_str("the input ends before the header of a module does")
            }
            (None, Fault::SectionSize) => {
                f.write_str("the input ends before the size of the section does")
            }
            (_, fault) => fault.fmt(f),
        }
    }
}

impl fmt::Display for FaultIn {
    ghost output = { λ x. Some (fault_in_text x.section x.at.decided x.at.fault) };

    fn fmt<W: fmt::Write>(&self, f: &mut fmt::Formatter<W>) -> fmt::Result {
        match self.at.fault {
            Fault::Entry => write!(f, "this is no {}", self.section.entry_name()),
            _ => self.at.fmt(f),
        }
    }
}

/// As in `element section, entry 3: this is no element segment`.
impl fmt::Display for Place {
    ghost output = { λ p. Some (place_text p) };

    fn fmt<W: fmt::Write>(&self, f: &mut fmt::Formatter<W>) -> fmt::Result {
        let at = FaultAt {
            fault: self.fault,
            decided: self.decided,
        };
        let Some(section) = self.section else {
            return at.fmt(f);
        };
        let fault = FaultIn { section, at };
        match self.entry {
            Some(entry) => write!(f, "{section}, entry {entry}: {fault}"),
            None => write!(f, "{section}: {fault}"),
        }
    }
}
