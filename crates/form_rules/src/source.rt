//! A module that was read, and its sections.

ghost use Rattle.std.specs.Prelude.{◌≡◌};
ghost use Rattle.std.specs.Iterator.{at_most};
ghost use Rattle.form_reader.specs.Input.{sections_of_part};
ghost use Rattle.form_rules.specs.Source.{source_module, sections_in, sections_left, steps_left, GivesFirst};

use form_reader::{Form, InputCustoms, InputEntries, InputForm, InputPart, InputSection, Payload};

/// A module that was read: as a form, or with sections that stay in the input.
#[derive(Clone, Copy)]
pub enum ModuleSource<'f, 'd> {
    Form(&'f Form<'d>),
    Input(&'f InputForm<'d>),
}

/// A section of a source, or a run of custom sections.
#[derive(Clone, Copy)]
pub enum Section<'f, 'd> {
    /// Its entries were read into lists.
    Read(&'f Payload<'d>),
    /// Its entries stay in the input.
    Input(InputEntries<'d>),
    /// Custom sections with no other section between them, which stay in the input.
    Customs(InputCustoms<'d>),
}

/// The sections of a source, one after another; a run of custom sections that stay in the input is one step.
#[derive(Clone, Copy)]
pub enum Sections<'f, 'd> {
    Form(&'f [Payload<'d>]),
    Input(&'f [InputPart<'d>]),
}

/// All sections of a module.
#[inline]
#[tactic(auto, unfolding(crate::specs::Source::sections_left))]
pub fn sections_of<'f, 'd>(source: ModuleSource<'f, 'd>) -> Sections<'f, 'd>
    ensures { sections_left result ≡ source_module source.entry }
{
    match source {
        ModuleSource::Form(form) => Sections::Form(form.payloads.as_slice()),
        ModuleSource::Input(form) => Sections::Input(form.parts.as_slice()),
    }
}

impl<'f, 'd> Iterator for Sections<'f, 'd> {
    type Item = Section<'f, 'd>;

    ghost next_gives = { GivesFirst };

    ghost remaining = { λ walk. at_most (steps_left walk) };

    #[inline]
    #[tactic(auto, unfolding(crate::specs::Source::sections_left))]
    fn next(&mut self) -> Option<Section<'f, 'd>> {
        match *self {
            Sections::Form(payloads) => {
                let (first, others) = payloads.split_first()?;
                *self = Sections::Form(others);
                Some(Section::Read(first))
            }
            Sections::Input(parts) => {
                let (first, others) = parts.split_first()?;
                *self = Sections::Input(others);
                Some(section_of(first))
            }
        }
    }
}

fn section_of<'f, 'd>(part: &'f InputPart<'d>) -> Section<'f, 'd>
    ensures { sections_in result ≡ sections_of_part part.now }
{
    match part {
        InputPart::Customs(run) => Section::Customs(*run),
        InputPart::Section(InputSection::Input(entries)) => Section::Input(*entries),
        InputPart::Section(InputSection::Read(payload)) => Section::Read(payload),
    }
}
