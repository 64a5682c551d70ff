//! The entry of a section that has an entry of a list.

ghost use Rattle.std.specs.Prelude.{◌≡◌, ◌≢◌, ◌≤◌, None, length, IfOk, IfSome};
ghost use Rattle.wasm_spec.specs.Module.{groups, imports, types};
ghost use Rattle.form_rules.specs.Source.{source_module};
ghost use Rattle.rule_breaks.specs.ImportKinds.{is_import_of, IsIndexed};
ghost use Rattle.rule_breaks.specs.Listed.{IsListed};
ghost use Rattle.rule_breaks.specs.SectionEntries.{IsEntryOf, IsGroupOf};

use crate::lists::{Break, ModuleList};
use crate::numbers::next_number;
use form_reader::{Import, RecGroup};
use form_rules::{ModuleSource, entries_of, walk_of};
use refusal_place::SectionKind;
use std::alloc::{AllocError, Global};
use wasm_spec::{ExternalKind, TypeRef};

/// An entry of a section.
#[derive(Clone, Copy)]
pub(crate) struct SectionEntry {
    pub section: SectionKind,
    /// Its index in the section, from 0 on; 0 in start and data count sections, which have one
    /// number.
    pub entry: u32,
}

/// The entry of a section that has the entry of the list; none only where the list has no such
/// entry.
pub(crate) fn section_entry(
    alloc: Global,
    source: ModuleSource<'_, '_>,
    place: Break,
) -> Result<Option<SectionEntry>, AllocError>
    ensures found { IfOk result (λ e. IfSome e (λ e. IsEntryOf (source_module source.entry) place.list place.entry e.section e.entry)) }
    ensures none { IfOk result (λ e. e ≡ None → ¬ IsListed (source_module source.entry) place.list place.entry) }
{
    match place.list {
        ModuleList::Types => match group_of_type(alloc, source, place.entry)? {
            Some(group) => Ok(Some(entry_in(SectionKind::Type, group))),
            None => Ok(None),
        },
        _ => Ok(Some(other_entry(source, place)?)),
    }
}

/// The entry of a section that has the entry of a list other than that of types.
fn other_entry(source: ModuleSource<'_, '_>, place: Break) -> Result<SectionEntry, AllocError>
    requires { place.list ≢ ModuleList.Types }
    ensures { IfOk result (λ e. IsEntryOf (source_module source.entry) place.list place.entry e.section e.entry) }
{
    let entry = place.entry;
    match place.list {
        ModuleList::Types => unreachable!(),
        ModuleList::Functions => {
            indexed_entry(source, ExternalKind::Func, SectionKind::Function, entry)
        }
        ModuleList::TableTypes => {
            indexed_entry(source, ExternalKind::Table, SectionKind::Table, entry)
        }
        ModuleList::Memories => {
            indexed_entry(source, ExternalKind::Memory, SectionKind::Memory, entry)
        }
        ModuleList::Tags => indexed_entry(source, ExternalKind::Tag, SectionKind::Tag, entry),
        ModuleList::Imports => Ok(entry_in(SectionKind::Import, entry)),
        ModuleList::Tables => Ok(entry_in(SectionKind::Table, entry)),
        ModuleList::Globals => Ok(entry_in(SectionKind::Global, entry)),
        ModuleList::Exports => Ok(entry_in(SectionKind::Export, entry)),
        ModuleList::Starts => Ok(entry_in(SectionKind::Start, 0)),
        ModuleList::Elements => Ok(entry_in(SectionKind::Element, entry)),
        ModuleList::DataCounts => Ok(entry_in(SectionKind::DataCount, 0)),
        ModuleList::Bodies => Ok(entry_in(SectionKind::Code, entry)),
        ModuleList::Segments => Ok(entry_in(SectionKind::Data, entry)),
    }
}

/// An entry of a section of this kind.
fn entry_in(section: SectionKind, entry: u32) -> SectionEntry
    ensures { result ≡ record { section = section; entry = entry } }
{
    SectionEntry { section, entry }
}

/// The recursion group that has the type with this index; none where there is no such type.
fn group_of_type(
    alloc: Global,
    source: ModuleSource<'_, '_>,
    index: u32,
) -> Result<Option<u32>, AllocError>
    ensures found { IfOk result (λ group. IfSome group (IsGroupOf (groups (source_module source.entry)) index)) }
    ensures none { IfOk result (λ group. group ≡ None → length (types (source_module source.entry)) ≤ index) }
{
    let mut left = index as usize;
    let mut number = 0;
    let mut groups = walk_of::<RecGroup>(alloc, source);
    while groups.advance()? {
        let count = groups.entry().types.as_slice().len();
        if left < count {
            return Ok(Some(number));
        }
        left -= count;
        number = next_number(number)?;
    }
    Ok(None)
}

/// The import that has this index of an index space, or the entry that does of the section that
/// defines what is not imported.
fn indexed_entry(
    source: ModuleSource<'_, '_>,
    kind: ExternalKind,
    defining: SectionKind,
    index: u32,
) -> Result<SectionEntry, AllocError>
    ensures { IfOk result (λ e. IsIndexed kind defining (imports (source_module source.entry)) index e.section e.entry) }
{
    let mut left = index;
    let mut number = 0;
    'imports: for import in entries_of::<Import<'_>>(source) {
        if is_of_kind(kind, &import.ty) {
            if left == 0 {
                return Ok(entry_in(SectionKind::Import, number));
            }
            left -= 1;
        }
        number = next_number(number)?;
    }
    Ok(entry_in(defining, left))
}

/// Whether what is imported is of this kind.
fn is_of_kind(kind: ExternalKind, ty: &TypeRef) -> bool
    ensures { result ≡ is_import_of kind ty.now }
{
    match ty {
        TypeRef::Func(_) => kind == ExternalKind::Func,
        TypeRef::Table(_) => kind == ExternalKind::Table,
        TypeRef::Memory(_) => kind == ExternalKind::Memory,
        TypeRef::Global(_) => kind == ExternalKind::Global,
        TypeRef::Tag(_) => kind == ExternalKind::Tag,
    }
}
