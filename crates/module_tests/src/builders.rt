//! The list of types and its builder.

use entity_map::EntityRef;
use form_types::Validator;
use module_types::{BuildError, ModuleTypes, ModuleTypesBuilder};
use std::test::Fail;
use wasm_types::{WasmCompositeInnerType, WasmCompositeType, WasmFuncType, WasmSubType};

#[test]
fn function_is_called_by_itself(rt: HostRuntime) -> Result<(), Fail> {
    let alloc = rt.alloc();
    let mut types = ModuleTypes::new(alloc);
    types.reserve(1)?;
    let first = types.push(WasmSubType {
        is_final: true,
        supertype: None,
        composite_type: WasmCompositeType {
            inner: WasmCompositeInnerType::Func(WasmFuncType::new(alloc, &[], &[])?),
            shared: false,
        },
    })?;
    assert!(rt; first.as_u32() == 0);
    let group = types.push_rec_group(first..types.next_ty())?;
    assert!(rt; group.as_u32() == 0);
    types.set_trampoline_type(first, first)?;
    assert!(rt; types.trampoline_type(first).as_u32() == 0);
    Ok(())
}

#[test]
fn startup_type_is_made_once(rt: HostRuntime) -> Result<(), Fail> {
    let mut builder = ModuleTypesBuilder::new(rt.alloc(), &Validator::new(7));
    builder.reserve_wasm_signatures(3)?;
    let first = builder.startup_func_type()?;
    assert!(rt; first.as_u32() == 0);
    let again = builder.startup_func_type()?;
    assert!(rt; again.as_u32() == 0);
    assert!(rt; builder.find_resource_drop_signature() == None);
    Ok(())
}

/// For runs in which an allocation fails: the builder takes nothing more.
#[test]
fn builder_without_memory_is_poisoned(rt: HostRuntime) {
    let mut builder = ModuleTypesBuilder::new(rt.alloc(), &Validator::new(7));
    if builder.startup_func_type().is_err() {
        assert!(rt; builder.is_poisoned());
        let more = builder.reserve_wasm_signatures(1);
        assert!(rt; matches!(more, Err(BuildError::Poisoned)));
    }
}
