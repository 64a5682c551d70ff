//! The tags of a module, each with its exception type.

ghost use Rattle.std.specs.Prelude.{◌≡◌, ◌<◌, ◌+◌, ◌^◌, ℕ, true, false, length, IsTrue, IsSome, IfOk, OnOk, OnErr, Err};
ghost use Rattle.wasm_spec.specs.Module.{Module};
ghost use Rattle.type_spec.specs.Interned.{composite_at};
ghost use Rattle.module_types.specs.Builder.{builder_view, is_function, excepts};
ghost use Rattle.interned_types.specs.Environment.{interned_in};
ghost use Rattle.interned_types.specs.Tagged.{tags_of, CanTag, GainsExceptions, function_at, tag_at};
ghost use Rattle.interned_types.specs.OnTheWay.{after_tags};
ghost use Rattle.interned_types.specs.Types.{interned_list};

use entity_map::{EntityRef, PrimaryMap};
use module_types::{BuildError, ModuleTypesBuilder};
use std::alloc::Global;
use wasm_index::{TagIndex, TypeIndex};
use wasm_types::{EngineOrModuleTypeIndex, Tag};

/// The tags, each with its exception type. The builder adds one where it has none for that function
/// type.
///
/// # Errors
/// `OutOfMemory`, after which the builder is poisoned or has the exception types of the first tags.
pub fn convert_tags(
    alloc: Global,
    tags: &[u32],
    declared: &PrimaryMap<TypeIndex, EngineOrModuleTypeIndex>,
    types: &mut ModuleTypesBuilder,
) -> Result<PrimaryMap<TagIndex, Tag>, BuildError>
    requires of_module { (m : Module) × CanTag m tags.now declared.now (builder_view types.old) }
    requires few_tags { length tags.now < 2 ^ 30 }
    requires few_types { length types.old.list.types < 2 ^ 31 }
    ensures tags { IfOk result (λ converted. (m : Module) → CanTag m tags.now declared.now (builder_view types.old) → converted ≡ tags_of m) }
    ensures built { OnOk result ((m : Module) → CanTag m tags.now declared.now (builder_view types.old) → (builder_view types.new).built ≡ interned_list m false) }
    ensures gains { OnOk result (GainsExceptions (builder_view types.old) (builder_view types.new)) }
    // There is capacity for one more type.
    ensures few { OnOk result (length types.new.list.types < 2 ^ 31 + 2 ^ 30) }
    ensures whole { OnOk result ((m : Module) → CanTag m tags.now declared.now (builder_view types.old)
        → builder_view types.new ≡ after_tags m tags.now (builder_view types.old) (length tags.now)) }
    ensures memory { OnErr result (result ≡ Err BuildError.OutOfMemory) }
    // Without memory it is poisoned, or it has the exception types of the tags before.
    ensures stops { OnErr result (types.new.is_poisoned ≡ false → (m : Module) → CanTag m tags.now declared.now (builder_view types.old)
        → (count : ℕ) × (builder_view types.new ≡ after_tags m tags.now (builder_view types.old) count)) }
{
    let mut converted = PrimaryMap::with_capacity(alloc, tags.len())?;
    for index in tags {
        let tag = convert_tag(*index, declared, types)?;
        converted.push(tag)?;
    }
    Ok(converted)
}

/// The tag of the function type at an index.
fn convert_tag(
    index: u32,
    declared: &PrimaryMap<TypeIndex, EngineOrModuleTypeIndex>,
    types: &mut ModuleTypesBuilder,
) -> Result<Tag, BuildError>
    requires below { index < length declared.now }
    requires few { length declared.now < 2 ^ 30 }
    requires names { IsSome (interned_in declared.now index) }
    requires held { function_at declared.now index < length types.old.list.types }
    requires called { IsTrue (is_function (composite_at (builder_view types.old).built.types (function_at declared.now index))) }
    requires room { length (excepts (builder_view types.old) (function_at declared.now index)).built.types < u32.MAX }
    requires sound { types.old.is_poisoned ≡ false }
    ensures tag { IfOk result (λ tag. tag ≡ tag_at (builder_view types.old) (function_at declared.now index)) }
    ensures defined { OnOk result (builder_view types.new ≡ excepts (builder_view types.old) (function_at declared.now index)) }
    ensures memory { OnErr result (result ≡ Err BuildError.OutOfMemory) }
    ensures poisons { OnErr result (types.new.is_poisoned ≡ true) }
{
    let signature = declared[TypeIndex::from_u32(index)];
    // Copied here: the borrow checker copies no value that holds an index where it is passed on.
    let function = signature;
    let exception = types.define_exception_type_for_tag(function.unwrap_module_type_index())?;
    Ok(Tag {
        signature,
        exception: EngineOrModuleTypeIndex::Module(exception),
    })
}
