//! The sections of a module one by one, those of runs of custom sections among them.

ghost use Rattle.std.specs.Prelude.{◌≡◌};
ghost use Rattle.std.specs.Iterator.{YieldsFirstBy, item_count};
ghost use Rattle.form_rules.specs.Source.{source_module};
ghost use Rattle.form_rules.specs.Singles.{single_of, singles_left};

use crate::source::{ModuleSource, Section, Sections, sections_of};
use form_reader::{InputCustoms, InputEntries, Payload};

/// One section.
#[derive(Clone, Copy)]
pub enum Single<'f, 'd> {
    /// Its entries, or its name and contents, were read.
    Read(&'f Payload<'d>),
    /// Its entries stay in the input.
    Input(InputEntries<'d>),
    /// A custom section that stays in the input.
    Custom { name: &'d str, bytes: &'d [u8] },
}

/// The sections of a module, one by one.
#[derive(Drop)]
pub struct Singles<'f, 'd> {
    run: InputCustoms<'d>,
    sections: Sections<'f, 'd>,
}

/// All sections of a module, one by one.
#[tactic(auto, unfolding(crate::specs::Singles::singles_left))]
pub fn singles_of<'f, 'd>(source: ModuleSource<'f, 'd>) -> Singles<'f, 'd>
    ensures { singles_left result ≡ source_module source.entry }
{
    Singles {
        run: InputCustoms::none(),
        sections: sections_of(source),
    }
}

impl<'f, 'd> Iterator for Singles<'f, 'd> {
    type Item = Single<'f, 'd>;

    ghost next_gives = { YieldsFirstBy single_of singles_left };

    ghost remaining = { item_count singles_left };

    #[tactic(auto, unfolding(crate::specs::Singles::singles_left))]
    fn next(&mut self) -> Option<Single<'f, 'd>> {
        loop {
            if let Some(custom) = self.run.next() {
                return Some(Single::Custom {
                    name: custom.name,
                    bytes: custom.bytes,
                });
            }
            match self.sections.next()? {
                Section::Read(payload) => return Some(Single::Read(payload)),
                Section::Input(entries) => return Some(Single::Input(entries)),
                Section::Customs(run) => self.run = run,
            }
        }
    }
}
