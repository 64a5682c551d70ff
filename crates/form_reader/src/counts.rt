//! The sizes of the index spaces of a form.

ghost use Rattle.std.specs.Prelude.{◌≡◌, ◌∷◌, [], map};
ghost use Rattle.wasm_spec.specs.Module.{Types, Imports, HasFewEntries};
ghost use Rattle.form_reader.specs.Counted.{counts_of, SizesFit, CountsMore};
ghost use Rattle.form_reader.specs.Views.{module_of, payload_of, import_of, group_of};

use crate::form::{Counts, Form, Import, Payload};
use crate::types::RecGroup;
use wasm_spec::TypeRef;

const NO_ENTRIES: Counts = Counts {
    types: 0,
    functions: 0,
    tables: 0,
    memories: 0,
    globals: 0,
    tags: 0,
};

impl Form<'_> {
    /// The sizes of the index spaces, imports included.
    pub fn counts(&self) -> Counts
        requires { HasFewEntries (module_of self.now) }
        ensures { result ≡ counts_of (module_of self.now) }
    {
        let mut counts = NO_ENTRIES;
        for payload in &self.payloads {
            add_section(&mut counts, payload);
        }
        counts
    }
}

fn add_section(counts: &mut Counts, payload: &Payload<'_>)
    requires { SizesFit counts.old (payload_of payload.now ∷ []) }
    ensures { CountsMore counts.old counts.new (payload_of payload.now ∷ []) }
{
    match payload {
        Payload::Types(groups) => add_groups(counts, groups),
        Payload::Imports(imports) => add_imports(counts, imports),
        Payload::Functions(types) => counts.functions += types.len() as u32,
        Payload::Tables(tables) => counts.tables += tables.len() as u32,
        Payload::Memories(types) => counts.memories += types.len() as u32,
        Payload::Tags(types) => counts.tags += types.len() as u32,
        Payload::Globals(globals) => counts.globals += globals.len() as u32,
        _ => {}
    }
}

/// Adds the members of groups of types.
fn add_groups(counts: &mut Counts, groups: &[RecGroup])
    requires { SizesFit counts.old (Types (map group_of groups.now) ∷ []) }
    ensures { CountsMore counts.old counts.new (Types (map group_of groups.now) ∷ []) }
{
    for group in groups {
        add_group(counts, group);
    }
}

fn add_group(counts: &mut Counts, group: &RecGroup)
    requires { SizesFit counts.old (Types (group_of group.now ∷ []) ∷ []) }
    ensures { CountsMore counts.old counts.new (Types (group_of group.now ∷ []) ∷ []) }
{
    counts.types += group.types.len() as u32;
}

/// Adds what is imported, each to the space of its kind.
fn add_imports(counts: &mut Counts, imports: &[Import<'_>])
    requires { SizesFit counts.old (Imports (map import_of imports.now) ∷ []) }
    ensures { CountsMore counts.old counts.new (Imports (map import_of imports.now) ∷ []) }
{
    for import in imports {
        add_import(counts, import);
    }
}

fn add_import(counts: &mut Counts, import: &Import<'_>)
    requires { SizesFit counts.old (Imports (import_of import.now ∷ []) ∷ []) }
    ensures { CountsMore counts.old counts.new (Imports (import_of import.now ∷ []) ∷ []) }
{
    match import.ty {
        TypeRef::Func(_) => counts.functions += 1,
        TypeRef::Table(_) => counts.tables += 1,
        TypeRef::Memory(_) => counts.memories += 1,
        TypeRef::Global(_) => counts.globals += 1,
        TypeRef::Tag(_) => counts.tags += 1,
    }
}
