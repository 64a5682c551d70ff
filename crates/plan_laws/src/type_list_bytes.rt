//! How many bytes the lines of interned types have.

ghost use Rattle.std.specs.Prelude.{◌<◌, ◌≤◌, ◌+◌, ◌*◌, ◌^◌, All, length, sum_by};
ghost use Rattle.std.specs.declared.ops.Range.{Range};
ghost use Rattle.entity_map.specs.Keyed.{keyed};
ghost use Rattle.wasm_index.specs.declared.index.Index.{Index};
ghost use Rattle.wasm_index.specs.declared.spaces.ModuleInternedRecGroupSpace.{ModuleInternedRecGroupSpace};
ghost use Rattle.wasm_index.specs.Index.{number_of, index_of};
ghost use Rattle.wasm_types.specs.Texts.{sub_text};
ghost use Rattle.module_types.specs.TypeList.{called_from};
ghost use Rattle.module_types.specs.Views.{TypeIndex};
ghost use Rattle.plan_lines.specs.TypeListLines.{type_list_lines, group_line};
ghost use Rattle.plan_lines.specs.Numbers.{keyed_lines};
ghost use Rattle.plan_laws.specs.TextCosts.{type_parts};

use crate::type_bytes::subtype;
use entity_map::EntityRef;
use module_types::ModuleTypes;
use std::ops::Range;
use wasm_index::{ModuleInternedRecGroupIndex, ModuleInternedTypeIndex};

fn subtypes(types: &ModuleTypes)
    ensures { All (λ ty. length (sub_text ty) ≤ 72 + 46 * type_parts ty) types.now.types }
{
    for (_, ty) in types.wasm_types() {
        subtype(ty);
    }
}

fn trampolines(types: &ModuleTypes)
    ensures { All (λ called. number_of called.1 < 2 ^ 32) (called_from 0 types.now.trampolines) }
{
    for (_, trampoline) in types.trampoline_types() {
        let _number = trampoline.as_u32();
    }
}

fn group(index: ModuleInternedRecGroupIndex, range: &Range<ModuleInternedTypeIndex>)
    ensures { length (group_line index range.now) ≤ 128 }
{
    let _number = index.as_u32();
    let _start = range.start.as_u32();
    let _end = range.end.as_u32();
}

fn each_group(types: &ModuleTypes)
    ensures { All (λ (p : Index ModuleInternedRecGroupSpace × Range TypeIndex). length (group_line p.0 p.1) ≤ 128) (keyed index_of types.now.groups) }
{
    for (index, range) in types.rec_groups() {
        group(index, &range);
    }
}

fn groups(types: &ModuleTypes)
    ensures { length (keyed_lines group_line types.now.groups) ≤ 128 * length types.now.groups }
{
    each_group(types);
}

/// The lines of a list of types.
pub(crate) fn type_list(types: &ModuleTypes)
    ensures { length (type_list_lines types.now)
        ≤ 128 * (1 + length types.now.types + length types.now.groups) + 48 * sum_by type_parts types.now.types }
{
    let _count = types.len_types();
    subtypes(types);
    trampolines(types);
    groups(types);
}
