//! Modules whose imports get definitions of the engine's own, and those of a linked program.

ghost use Rattle.import_match.specs.Rules.{HasEngineTypes};
ghost use Rattle.plan_link.specs.Linkable.{IsLinkable};

use crate::translated::{new_registry, register, translated};
use crate::two_modules::{Resolved, linked};
use import_match::{LinkError, Linker, Mismatch};
use module_types::ModuleTypes;
use std::alloc::Global as Heap;
use std::test::Fail;
use wasm_module::Module;
use wasm_types::{EntityType, Global, IndexType, Limits, Memory, WasmValType};

/// It imports the global `g` of `m`, an i32 that cannot be written, and defines one that is one
/// greater.
const GLOBAL_IMPORTER: [u8; 29] = [
    0x00, 0x61, 0x73, 0x6D, 0x01, 0x00, 0x00, 0x00, 0x02, 0x08, 0x01, 0x01, 0x6D, 0x01, 0x67, 0x03,
    0x7F, 0x00, 0x06, 0x09, 0x01, 0x7F, 0x00, 0x23, 0x00, 0x41, 0x01, 0x6A, 0x0B,
];

/// It imports the memory `m` of `m`, of one to two pages.
const MEMORY_IMPORTER: [u8; 19] = [
    0x00, 0x61, 0x73, 0x6D, 0x01, 0x00, 0x00, 0x00, 0x02, 0x09, 0x01, 0x01, 0x6D, 0x01, 0x6D, 0x02,
    0x01, 0x01, 0x02,
];

/// It imports the function `_start` of `m`, without parameters and results.
const START_IMPORTER: [u8; 28] = [
    0x00, 0x61, 0x73, 0x6D, 0x01, 0x00, 0x00, 0x00, 0x01, 0x04, 0x01, 0x60, 0x00, 0x00, 0x02, 0x0C,
    0x01, 0x01, 0x6D, 0x06, 0x5F, 0x73, 0x74, 0x61, 0x72, 0x74, 0x00, 0x00,
];

/// What a linker of the usual tools writes.
const LINKED: [u8; 216] = [
    0x00, 0x61, 0x73, 0x6D, 0x01, 0x00, 0x00, 0x00, // the header
    0x01, 0x8A, 0x80, 0x80, 0x80, 0x00, 0x02, 0x60, 0x00, 0x00, 0x60, 0x02, 0x7F, 0x7F, 0x01, 0x7F, // types: (func), and (func (param i32 i32) (result i32))
    0x03, 0x83, 0x80, 0x80, 0x80, 0x00, 0x02, 0x00, 0x01, // functions of both
    0x04, 0x85, 0x80, 0x80, 0x80, 0x00, 0x01, 0x70, 0x01, 0x02, 0x02, // a table
    0x05, 0x83, 0x80, 0x80, 0x80, 0x00, 0x01, 0x00, 0x11, // a memory
    0x06, 0x89, 0x80, 0x80, 0x80, 0x00, 0x01, 0x7F, 0x01, 0x41, 0x80, 0x80, 0xC0, 0x00, 0x0B, // a global
    0x07, 0x93, 0x80, 0x80, 0x80, 0x00, 0x02, 0x06, 0x6D, 0x65, 0x6D, 0x6F, 0x72, 0x79, 0x02, 0x00,
    0x06, 0x5F, 0x73, 0x74, 0x61, 0x72, 0x74, 0x00, 0x00, // exports: memory 0 as `memory`, function 0 as `_start`
    0x09, 0x87, 0x80, 0x80, 0x80, 0x00, 0x01, 0x00, 0x41, 0x01, 0x0B, 0x01, 0x01, // elements
    0x0A, 0x8C, 0x80, 0x80, 0x80, 0x00, 0x02, 0x02, 0x00, 0x0B, 0x07, 0x00, 0x20, 0x00, 0x20, 0x01,
    0x6A, 0x0B, // code
    0x0B, 0x8F, 0x80, 0x80, 0x80, 0x00, 0x01, 0x00, 0x41, 0x80, 0x80, 0xC0, 0x00, 0x0B, 0x06, 0x68,
    0x65, 0x6C, 0x6C, 0x6F, 0x00, // data
    0x00, 0x99, 0x80, 0x80, 0x80, 0x00, 0x04, 0x6E, 0x61, 0x6D, 0x65, 0x01, 0x8E, 0x80, 0x80, 0x80,
    0x00, 0x02, 0x00, 0x06, 0x5F, 0x73, 0x74, 0x61, 0x72, 0x74, 0x01, 0x03, 0x61, 0x64, 0x64, // names
    0x00, 0xA2, 0x80, 0x80, 0x80, 0x00, 0x09, 0x70, 0x72, 0x6F, 0x64, 0x75, 0x63, 0x65, 0x72, 0x73,
    0x01, 0x0C, 0x70, 0x72, 0x6F, 0x63, 0x65, 0x73, 0x73, 0x65, 0x64, 0x2D, 0x62, 0x79, // producers
    0x01, 0x05, 0x63, 0x6C, 0x61, 0x6E, 0x67, 0x02, 0x31, 0x38,
];

// ---- definitions of the engine's own

// Defines one entity under `m` and a name, and resolves the imports of a module.
fn resolve_against(
    alloc: Heap,
    name: &str,
    have: EntityType,
    module: &Module,
    types: &ModuleTypes,
) -> Result<Resolved, Fail>
    requires have { HasEngineTypes have }
    requires linkable { IsLinkable «module».now types.now }
{
    let mut registry = new_registry(alloc);
    let key = register(&mut registry, types)?;
    let mut linker = Linker::new(alloc);
    linker.define("m", name, have)?;
    Ok(linker.resolve(alloc, &registry, key, module))
}

fn resolved_against(
    alloc: Heap,
    name: &str,
    have: EntityType,
    bytes: &[u8],
) -> Result<Resolved, Fail>
    requires { HasEngineTypes have }
{
    let (translation, types) = translated(alloc, bytes)?;
    let resolved = resolve_against(alloc, name, have, &translation.module, &types);
    // A large value is dropped by one call.
    drop(translation);
    resolved
}

fn global(mutability: bool, is_wide: bool) -> EntityType
    ensures { HasEngineTypes result }
{
    if is_wide {
        EntityType::Global(Global {
            wasm_ty: WasmValType::I64,
            mutability,
        })
    } else {
        EntityType::Global(Global {
            wasm_ty: WasmValType::I32,
            mutability,
        })
    }
}

#[test]
fn an_imported_global_is_matched(rt: HostRuntime) -> Result<(), Fail> {
    for (name, mutability, is_wide, wanted) in [
        ("g", false, false, None),
        (
            "g",
            true,
            false,
            Some(LinkError::Mismatch(0, Mismatch::GlobalMutability)),
        ),
        (
            "g",
            false,
            true,
            Some(LinkError::Mismatch(0, Mismatch::GlobalType)),
        ),
        ("h", false, false, Some(LinkError::Missing(0))),
    ] {
        let refused = resolved_against(
            rt.alloc(),
            name,
            global(mutability, is_wide),
            &GLOBAL_IMPORTER,
        )?
        .err();
        assert!(rt; refused == wanted, "global {name}");
    }
    Ok(())
}

fn memory(limits: Limits) -> EntityType
    ensures { HasEngineTypes result }
{
    EntityType::Memory(Memory {
        idx_type: IndexType::I32,
        limits,
        shared: false,
        page_size_log2: 16,
    })
}

#[test]
fn an_imported_memory_is_matched(rt: HostRuntime) -> Result<(), Fail> {
    for (min, max, wanted) in [
        (2, Some(2), None),
        (1, None, Some(LinkError::Mismatch(0, Mismatch::MemoryMax))),
        (
            0,
            Some(2),
            Some(LinkError::Mismatch(0, Mismatch::MemoryMin)),
        ),
    ] {
        let refused = resolved_against(
            rt.alloc(),
            "m",
            memory(Limits { min, max }),
            &MEMORY_IMPORTER,
        )?
        .err();
        assert!(rt; refused == wanted, "minimum {min}");
    }
    Ok(())
}

#[test]
fn definitions_have_their_numbers(rt: HostRuntime) -> Result<(), Fail> {
    let alloc = rt.alloc();
    let numbers = resolved_against(alloc, "g", global(false, false), &GLOBAL_IMPORTER)??;
    assert!(rt; numbers.as_slice() == [0].as_slice());
    let numbers = resolved_against(
        alloc,
        "m",
        memory(Limits {
            min: 2,
            max: Some(2),
        }),
        &MEMORY_IMPORTER,
    )??;
    assert!(rt; numbers.as_slice() == [0].as_slice());
    Ok(())
}

// ---- a linked program

#[test]
fn the_start_of_a_linked_program_is_found(rt: HostRuntime) -> Result<(), Fail> {
    let numbers = linked(rt.alloc(), &LINKED, &START_IMPORTER)??;
    assert!(rt; numbers.as_slice() == [1].as_slice());
    Ok(())
}

/// What a linker returns where the exports of a module are defined, defined again, and defined once
/// the module was released; and its length at the end.
#[derive(Drop)]
struct Defined {
    first: Option<LinkError>,
    again: Option<LinkError>,
    imports: Option<LinkError>,
    let_go: Option<LinkError>,
    length: usize,
}

fn define_twice(alloc: Heap, module: &Module, types: &ModuleTypes) -> Result<Defined, Fail>
    requires { IsLinkable «module».now types.now }
{
    let mut registry = new_registry(alloc);
    let key = register(&mut registry, types)?;
    let mut linker = Linker::new(alloc);
    let first = linker.define_exports(&registry, key, "m", module).err();
    let again = linker.define_exports(&registry, key, "m", module).err();
    registry.release(key)?;
    let let_go = linker.define_exports(&registry, key, "n", module).err();
    let imports = linker.resolve(alloc, &registry, key, module).err();
    Ok(Defined {
        first,
        again,
        imports,
        let_go,
        length: linker.len(),
    })
}

fn defined_twice(alloc: Heap, bytes: &[u8]) -> Result<Defined, Fail> {
    let (translation, types) = translated(alloc, bytes)?;
    let defined = define_twice(alloc, &translation.module, &types);
    drop(translation);
    defined
}

#[test]
fn exports_are_defined_once_while_their_module_is_held(rt: HostRuntime) -> Result<(), Fail> {
    let defined = defined_twice(rt.alloc(), &LINKED)?;
    assert!(rt; defined.first == None);
    assert!(rt; defined.again == Some(LinkError::Duplicate));
    assert!(rt; defined.let_go == Some(LinkError::NotHeld));
    assert!(rt; defined.imports == Some(LinkError::NotHeld));
    assert!(rt; defined.length == 2);
    Ok(())
}
