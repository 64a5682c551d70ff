//! Lists of types to register that no module has.

ghost use Rattle.std.specs.Prelude.{◌≡◌, ◌<◌, length, IfOk, OnOk};
ghost use Rattle.module_types.specs.Listed.{Listed};
ghost use Rattle.link_tests.specs.Lists.{function, alone, startup, twice};

use entity_map::OutOfMemory;
use module_types::ModuleTypes;
use std::alloc::Global;
use wasm_types::{WasmCompositeInnerType, WasmCompositeType, WasmFuncType, WasmSubType};

// A function type without parameters and results.
fn function(alloc: Global) -> Result<WasmSubType, OutOfMemory>
    ensures { IfOk result (λ t. t ≡ function) }
{
    let func = WasmFuncType::new(alloc, &[], &[])?;
    Ok(WasmSubType {
        is_final: true,
        supertype: None,
        composite_type: WasmCompositeType {
            inner: WasmCompositeInnerType::Func(func),
            shared: false,
        },
    })
}

// Appends a type, in a group with no other member.
fn push_alone(list: &mut ModuleTypes, ty: WasmSubType) -> Result<(), OutOfMemory>
    requires types { length list.old.types < 10 }
    requires groups { length list.old.groups < 10 }
    ensures { OnOk result (list.new ≡ alone list.old ty) }
{
    let start = list.push(ty)?;
    let end = list.next_ty();
    list.push_rec_group(start..end)?;
    Ok(())
}

/// No types.
#[tactic(auto, using(crate::proofs::ListedLists::may_none))]
pub(crate) fn nothing(alloc: Global) -> ModuleTypes
    ensures { Listed result }
{
    ModuleTypes::new(alloc)
}

/// A type without parameters alone.
#[tactic(auto, using(crate::proofs::ListedLists::may_startup))]
pub(crate) fn startup(alloc: Global) -> Result<ModuleTypes, OutOfMemory>
    ensures list { IfOk result (λ l. l ≡ startup) }
    ensures listed { IfOk result Listed }
{
    let mut list = ModuleTypes::new(alloc);
    push_alone(&mut list, function(alloc)?)?;
    Ok(list)
}

/// The same type twice.
#[tactic(auto, using(crate::proofs::ListedLists::may_twice))]
pub(crate) fn twice(alloc: Global) -> Result<ModuleTypes, OutOfMemory>
    ensures list { IfOk result (λ l. l ≡ twice) }
    ensures listed { IfOk result Listed }
{
    let mut list = startup(alloc)?;
    push_alone(&mut list, function(alloc)?)?;
    Ok(list)
}
