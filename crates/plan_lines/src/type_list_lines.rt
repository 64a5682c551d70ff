//! The lines of a list of interned types.

ghost use Rattle.std.specs.Prelude.{◌≡◌, ◌∷◌, [], ◌++◌, length, codes, OnOk};
ghost use Rattle.wasm_index.specs.Index.{number_of};
ghost use Rattle.module_types.specs.TypeList.{called_from};
ghost use Rattle.plan_lines.specs.Numbers.{numbers_line, keyed_lines};
ghost use Rattle.plan_lines.specs.TypeListLines.{type_lines_from, group_line, type_list_lines, taken_at, left_after};

use crate::numbers::append_numbers;
use crate::text::Text;
use crate::type_lines::append_type;
use entity_map::{EntityRef, OutOfMemory};
use module_types::{ModuleTypes, TrampolineTypes};
use std::marker::Model;
use wasm_index::ModuleInternedTypeIndex;

// The trampolines that remain, in the order of their types.
#[derive(Drop)]
struct Trampolines<'a> {
    next: Option<(ModuleInternedTypeIndex, ModuleInternedTypeIndex)>,
    others: TrampolineTypes<'a>,
}

impl<'a> Model for Trampolines<'a> {
    ghost use Rattle.std.specs.Prelude.{◌≡◌, List, [], None};
    ghost use Rattle.std.specs.List.{cons_option};
    ghost use Rattle.module_types.specs.Views.{TypeIndex};

    ghost Value = { List (TypeIndex × TypeIndex) };

    ghost view = { λ t. cons_option t.next t.others };

    ghost invariant = { λ t. t.next ≡ None → t.others ≡ [] };
}

impl<'a> Trampolines<'a> {
    fn of(types: &'a ModuleTypes) -> Self
        ensures { result ≡ called_from 0 types.now.trampolines }
    {
        let mut others = types.trampoline_types();
        let next = others.next();
        Trampolines { next, others }
    }

    // Takes the trampoline of a type, where the next one belongs to it.
    fn take(&mut self, ty: ModuleInternedTypeIndex) -> Option<ModuleInternedTypeIndex>
        ensures taken { result ≡ taken_at (number_of ty) self.old }
        ensures left { self.new ≡ left_after (number_of ty) self.old }
    {
        let (next, trampoline) = self.next?;
        if next.as_u32() != ty.as_u32() {
            return None;
        }
        self.next = self.others.next();
        Some(trampoline)
    }
}

fn append_each_type(text: &mut Text, types: &ModuleTypes) -> Result<(), OutOfMemory>
    ensures { OnOk result (text.new ≡ text.old ++ type_lines_from 0 types.now.types types.now.trampolines) }
{
    let mut trampolines = Trampolines::of(types);
    for (index, ty) in types.wasm_types() {
        let trampoline = trampolines.take(index);
        append_type(text, index, ty, trampoline)?;
    }
    Ok(())
}

fn append_groups(text: &mut Text, types: &ModuleTypes) -> Result<(), OutOfMemory>
    ensures { OnOk result (text.new ≡ text.old ++ keyed_lines group_line types.now.groups) }
{
    for (index, range) in types.rec_groups() {
        append_numbers(
            text,
            "group",
            &[
                index.as_u32().into(),
                range.start.as_u32().into(),
                range.end.as_u32().into(),
            ],
        )?;
    }
    Ok(())
}

/// Appends the lines of interned types: how many there are, each type, and each group.
///
/// # Errors
/// `OutOfMemory`; the text may then end anywhere.
#[tactic(auto, unfolding(crate::specs::TypeListLines::type_list_lines))]
pub fn append_types(text: &mut Text, types: &ModuleTypes) -> Result<(), OutOfMemory>
    ensures { OnOk result (text.new ≡ text.old ++ type_list_lines types.now) }
{
    append_numbers(text, "types", &[types.len_types() as u64])?;
    append_each_type(text, types)?;
    append_groups(text, types)
}
