//! The entries of the sections of a module, in order.

ghost use Rattle.std.specs.Prelude.{◌≡◌, ℕ, List, [], length, map, min, refl};
ghost use Rattle.std.specs.List.{flat_map};
ghost use Rattle.std.specs.Iterator.{YieldsFirstBy, item_count};
ghost use Rattle.wasm_spec.specs.Module as plain;
ghost use Rattle.form_reader.specs.Views.{payload_of, import_of, table_of, export_of, body_of};
ghost use Rattle.form_reader.specs.declared.input.InputEntries.{InputEntries};
ghost use Rattle.form_reader.specs.Input.{input_payload_of};
ghost use Rattle.form_rules.specs.Source.{source_module, sections_in, sections_left};
ghost use Rattle.form_rules.specs.Sections.{entries_left, none_in_input};

use crate::source::{ModuleSource, Section, Sections, sections_of};
use form_reader::{Export, FunctionBody, Import, Payload, TableDef};

/// An entry that sections of one kind list, and that never stays in the input.
pub trait FormEntry<'d>: Sized {
    ghost Data: { Type 0 };

    ghost as_data: { Self → Data };

    ghost of_section: { plain.Payload → List Data };

    /// The entries of a section; sections of other kinds have none.
    fn in_section<'f>(payload: &'f Payload<'d>) -> &'f [Self]
        ensures { map as_data result.now ≡ of_section (payload_of payload.now) };

    ghost no_input: { (entries : InputEntries) → of_section (input_payload_of entries) ≡ [] };

    ghost no_customs: { (name bytes : List ℕ) → of_section (plain.Custom name bytes) ≡ [] };
}

/// The entries of a section. Sections that stay in the input have none, and neither have custom
/// sections.
#[inline]
pub(crate) fn entries_in<'f, 'd, T: FormEntry<'d>>(section: Section<'f, 'd>) -> &'f [T]
    ensures { map T.as_data result.now ≡ flat_map T.of_section (sections_in section.entry) }
{
    match section {
        Section::Read(payload) => T::in_section(payload),
        Section::Input(_) => &[],
        Section::Customs(_) => &[],
    }
}

/// How many entries of one kind the sections list, or `usize::MAX` where there are more.
pub fn count_entries<'d, T: FormEntry<'d>>(source: ModuleSource<'_, 'd>) -> usize
    ensures { result ≡ min (length (flat_map T.of_section (source_module source.entry))) usize.MAX }
{
    let mut count: usize = 0;
    for section in sections_of(source) {
        count = count.saturating_add(entries_in::<T>(section).len());
    }
    count
}

/// The entries of one kind, section after section.
#[derive(Drop)]
pub struct Entries<'f, 'd, T> {
    entries: &'f [T],
    sections: Sections<'f, 'd>,
}

/// The entries of one kind, through all sections of a module.
#[inline]
#[tactic(auto, unfolding(crate::specs::Sections::entries_left))]
pub fn entries_of<'f, 'd, T: FormEntry<'d>>(source: ModuleSource<'f, 'd>) -> Entries<'f, 'd, T>
    ensures { entries_left T.as_data T.of_section result ≡ flat_map T.of_section (source_module source.entry) }
{
    Entries {
        entries: &[],
        sections: sections_of(source),
    }
}

impl<'f, 'd, T: FormEntry<'d>> Iterator for Entries<'f, 'd, T> {
    type Item = &'f T;

    ghost next_gives = { YieldsFirstBy (λ x. T.as_data x.now) (entries_left T.as_data T.of_section) };

    ghost remaining = { item_count (entries_left T.as_data T.of_section) };

    #[inline]
    #[tactic(auto, unfolding(crate::specs::Sections::entries_left))]
    fn next(&mut self) -> Option<&'f T> {
        loop {
            if let Some((first, others)) = self.entries.split_first() {
                self.entries = others;
                return Some(first);
            }
            let section = self.sections.next()?;
            self.entries = entries_in::<T>(section);
        }
    }
}

impl<'d> FormEntry<'d> for Import<'d> {
    ghost Data = { plain.Import };

    ghost as_data = { import_of };

    ghost of_section = { plain.imports_of_section };

    #[inline]
    fn in_section<'f>(payload: &'f Payload<'d>) -> &'f [Self] {
        match payload {
            Payload::Imports(imports) => imports.as_slice(),
            _ => &[],
        }
    }

    ghost no_input = { none_in_input plain.imports_of_section (λ groups. refl) (λ types. refl) (λ types. refl) (λ globals. refl) (λ elements. refl) (λ segments. refl) };

    ghost no_customs = { λ name bytes. refl };
}

impl<'d> FormEntry<'d> for TableDef {
    ghost Data = { plain.TableDef };

    ghost as_data = { table_of };

    ghost of_section = { plain.tables_of_section };

    #[inline]
    fn in_section<'f>(payload: &'f Payload<'d>) -> &'f [Self] {
        match payload {
            Payload::Tables(tables) => tables.as_slice(),
            _ => &[],
        }
    }

    ghost no_input = { none_in_input plain.tables_of_section (λ groups. refl) (λ types. refl) (λ types. refl) (λ globals. refl) (λ elements. refl) (λ segments. refl) };

    ghost no_customs = { λ name bytes. refl };
}

impl<'d> FormEntry<'d> for Export<'d> {
    ghost Data = { plain.Export };

    ghost as_data = { export_of };

    ghost of_section = { plain.exports_of_section };

    #[inline]
    fn in_section<'f>(payload: &'f Payload<'d>) -> &'f [Self] {
        match payload {
            Payload::Exports(exports) => exports.as_slice(),
            _ => &[],
        }
    }

    ghost no_input = { none_in_input plain.exports_of_section (λ groups. refl) (λ types. refl) (λ types. refl) (λ globals. refl) (λ elements. refl) (λ segments. refl) };

    ghost no_customs = { λ name bytes. refl };
}

impl<'d> FormEntry<'d> for FunctionBody<'d> {
    ghost Data = { plain.Body };

    ghost as_data = { body_of };

    ghost of_section = { plain.bodies_of_section };

    #[inline]
    fn in_section<'f>(payload: &'f Payload<'d>) -> &'f [Self] {
        match payload {
            Payload::Code { bodies, .. } => bodies.as_slice(),
            _ => &[],
        }
    }

    ghost no_input = { none_in_input plain.bodies_of_section (λ groups. refl) (λ types. refl) (λ types. refl) (λ globals. refl) (λ elements. refl) (λ segments. refl) };

    ghost no_customs = { λ name bytes. refl };
}
