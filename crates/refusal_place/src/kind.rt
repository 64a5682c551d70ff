//! Kinds of sections (core specification, 5.5, sections).

ghost use Rattle.std.specs.Prelude.{◌≡◌, Some};
ghost use Rattle.refusal_place.specs.Kinds.{id_of, kind_of};
ghost use Rattle.refusal_place.specs.Texts.{section_text, entry_text};

use std::fmt;

/// A kind of section (core specification, 5.5, sections; tags are of the exceptions proposal).
#[derive(Clone, Copy, Debug, PartialEq, Eq)]
pub enum SectionKind {
    Custom,
    Type,
    Import,
    Function,
    Table,
    Memory,
    Global,
    Export,
    Start,
    Element,
    Code,
    Data,
    DataCount,
    Tag,
}

impl SectionKind {
    /// The kind that has this id, where there is one.
    pub fn of_id(id: u8) -> Option<SectionKind>
        ensures { result ≡ kind_of id }
    {
        match id {
            0 => Some(SectionKind::Custom),
            1 => Some(SectionKind::Type),
            2 => Some(SectionKind::Import),
            3 => Some(SectionKind::Function),
            4 => Some(SectionKind::Table),
            5 => Some(SectionKind::Memory),
            6 => Some(SectionKind::Global),
            7 => Some(SectionKind::Export),
            8 => Some(SectionKind::Start),
            9 => Some(SectionKind::Element),
            10 => Some(SectionKind::Code),
            11 => Some(SectionKind::Data),
            12 => Some(SectionKind::DataCount),
            13 => Some(SectionKind::Tag),
            _ => None,
        }
    }

    /// The id of the kind.
    pub fn id(self) -> u8
        ensures { result ≡ id_of self }
    {
        match self {
            SectionKind::Custom => 0,
            SectionKind::Type => 1,
            SectionKind::Import => 2,
            SectionKind::Function => 3,
            SectionKind::Table => 4,
            SectionKind::Memory => 5,
            SectionKind::Global => 6,
            SectionKind::Export => 7,
            SectionKind::Start => 8,
            SectionKind::Element => 9,
            SectionKind::Code => 10,
            SectionKind::Data => 11,
            SectionKind::DataCount => 12,
            SectionKind::Tag => 13,
        }
    }

    /// What a section of this kind lists, as the standard calls it.
    pub fn entry_name(self) -> &'static str
        ensures { result.now ≡ entry_text self }
    {
        match self {
            SectionKind::Type => "type",
            SectionKind::Import => "import",
            SectionKind::Function => "function",
            SectionKind::Table => "table",
            SectionKind::Memory => "memory",
            SectionKind::Tag => "tag",
            SectionKind::Global => "global",
            SectionKind::Export => "export",
            SectionKind::Element => "element segment",
            SectionKind::Code => "function body",
            SectionKind::Data => "data segment",
            SectionKind::Custom | SectionKind::Start | SectionKind::DataCount => "entry",
        }
    }
}

impl fmt::Display for SectionKind {
    ghost output = { λ k. Some (section_text k) };

    fn fmt<W: fmt::Write>(&self, f: &mut fmt::Formatter<W>) -> fmt::Result {
        f.write_str(match self {
            SectionKind::Custom => "custom section",
            SectionKind::Type => "type section",
            SectionKind::Import => "import section",
            SectionKind::Function => "function section",
            SectionKind::Table => "table section",
            SectionKind::Memory => "memory section",
            SectionKind::Global => "global section",
            SectionKind::Export => "export section",
            SectionKind::Start => "start section",
            SectionKind::Element => "element section",
            SectionKind::Code => "code section",
            SectionKind::Data => "data section",
            SectionKind::DataCount => "data count section",
            SectionKind::Tag => "tag section",
        })
    }
}
