//! The entries of a module that may stay in the input, in order.

ghost use Rattle.std.specs.Prelude.{◌≡◌, ◌++◌, map, IfOk};
ghost use Rattle.std.specs.List.{flat_map};
ghost use Rattle.form_reader.specs.Input.{vector_in, Takes};
ghost use Rattle.form_rules.specs.Source.{source_module, sections_in};
ghost use Rattle.form_rules.specs.Walk.{walk_left, left_here, standing};

use crate::source::{ModuleSource, Section, Sections, sections_of};
use form_reader::{InputEntry, InputVector};
use std::alloc::{AllocError, Global};

/// A walk through the entries of one kind, section after section. It begins before the first.
#[derive(Drop)]
pub struct Walk<'f, 'd, E> {
    alloc: Global,
    sections: Sections<'f, 'd>,
    /// The remaining entries of the current section: those in a list, or those that stay in the
    /// input.
    listed: &'f [E],
    input: InputVector<'d>,
    /// The current entry, where a form lists it.
    standing: Option<&'f E>,
    /// The current entry, where it stays in the input: a copy, whose lists are reused.
    read: E,
}

/// The entries of one kind, through all sections of a module.
#[tactic(auto, unfolding(crate::specs::Walk::walk_left), using(form_reader::proofs::Listed::none_there))]
pub fn walk_of<'f, 'd, E: InputEntry<'d, Value = E>>(
    alloc: Global,
    source: ModuleSource<'f, 'd>,
) -> Walk<'f, 'd, E>
    ensures { walk_left E.form E.view E.of_section result ≡ flat_map E.of_section (source_module source.entry) }
{
    Walk {
        alloc,
        sections: sections_of(source),
        listed: &[],
        input: InputVector::none(),
        standing: None,
        read: E::none(alloc),
    }
}

/// The entries of a section: those in a list, and those that stay in the input.
fn entries_here<'f, 'd, E: InputEntry<'d, Value = E>>(
    section: Section<'f, 'd>,
) -> (&'f [E], InputVector<'d>)
    ensures { map E.view result.0.now ++ vector_in E.form result.1 ≡ flat_map E.of_section (sections_in section.entry) }
{
    match section {
        Section::Read(payload) => (E::in_payload(payload), InputVector::none()),
        Section::Input(entries) => (&[], E::in_input(entries)),
        Section::Customs(_) => (&[], InputVector::none()),
    }
}

impl<'f, 'd, E: InputEntry<'d, Value = E>> Walk<'f, 'd, E> {
    /// Advances to the next entry; after the last there is none.
    #[tactic(auto, unfolding(crate::specs::Walk::walk_left))]
    pub fn advance(&mut self) -> Result<bool, AllocError>
        ensures { IfOk result
            (Takes (walk_left E.form E.view E.of_section self.old) (standing E.view self.new) (walk_left E.form E.view E.of_section self.new)) }
    {
        while !self.advance_here()? {
            let Some(section) = self.sections.next() else {
                return Ok(false);
            };
            let (listed, input) = entries_here::<E>(section);
            self.listed = listed;
            self.input = input;
        }
        Ok(true)
    }

    /// Advances to the next entry of the section, if there is one.
    fn advance_here(&mut self) -> Result<bool, AllocError>
        ensures takes { IfOk result
            (Takes (left_here E.form E.view self.old) (standing E.view self.new) (left_here E.form E.view self.new)) }
        ensures stays { self.new.sections ≡ self.old.sections }
    {
        if let Some((first, others)) = self.listed.split_first() {
            self.listed = others;
            self.standing = Some(first);
            return Ok(true);
        }
        self.standing = None;
        self.input.next_into::<E>(self.alloc, &mut self.read)
    }

    /// The current entry of the walk.
    pub fn entry(&self) -> &E
        ensures { E.view result.now ≡ standing E.view self.now }
    {
        match self.standing {
            Some(entry) => entry,
            None => &self.read,
        }
    }
}
