//! A program of two modules: the second imports what the first exports.

ghost use Rattle.plan_link.specs.Linkable.{IsLinkable};

use crate::translated::{new_registry, register, translated};
use import_match::{LinkError, Linker, Mismatch};
use module_types::ModuleTypes;
use std::alloc::Global;
use std::process::Abort;
use std::test::Fail;
use wasm_module::Module;

/// It has the types `(func (param i32) (result i32))` and `(func (param i32))`, and exports a
/// function `f` of the first, a table `t` of one to two functions, a memory `m` of one to two
/// pages, a global `g` that is an i32 and cannot be written, and a tag `e` of the second type.
pub(crate) const FIRST: [u8; 81] = [
    0x00, 0x61, 0x73, 0x6D, 0x01, 0x00, 0x00, 0x00, // the header
    0x01, 0x0A, 0x02, 0x60, 0x01, 0x7F, 0x01, 0x7F, 0x60, 0x01, 0x7F, 0x00, // types
    0x03, 0x02, 0x01, 0x00, // functions
    0x04, 0x05, 0x01, 0x70, 0x01, 0x01, 0x02, // tables
    0x05, 0x04, 0x01, 0x01, 0x01, 0x02, // memories
    0x0D, 0x03, 0x01, 0x00, 0x01, // tags
    0x06, 0x06, 0x01, 0x7F, 0x00, 0x41, 0x2A, 0x0B, // globals
    0x07, 0x15, 0x05, 0x01, 0x66, 0x00, 0x00, 0x01, 0x74, 0x01, 0x00, 0x01, 0x6D, 0x02, 0x00, 0x01,
    0x67, 0x03, 0x00, 0x01, 0x65, 0x04, 0x00, // exports
    0x0A, 0x06, 0x01, 0x04, 0x00, 0x20, 0x00, 0x0B, // code
];

/// It has the same types in the other order, and imports all of these, the last first.
pub(crate) const SECOND: [u8; 60] = [
    0x00, 0x61, 0x73, 0x6D, 0x01, 0x00, 0x00, 0x00, // the header
    0x01, 0x0A, 0x02, 0x60, 0x01, 0x7F, 0x00, 0x60, 0x01, 0x7F, 0x01, 0x7F, // types
    0x02, 0x26, 0x05, // five imports
    0x01, 0x6D, 0x01, 0x65, 0x04, 0x00, 0x00, // a tag
    0x01, 0x6D, 0x01, 0x67, 0x03, 0x7F, 0x00, // a global
    0x01, 0x6D, 0x01, 0x6D, 0x02, 0x01, 0x01, 0x02, // a memory
    0x01, 0x6D, 0x01, 0x74, 0x01, 0x70, 0x01, 0x01, 0x02, // a table
    0x01, 0x6D, 0x01, 0x66, 0x00, 0x01, // a function
];

// The offsets of bytes of the second module, by their meaning.
pub(crate) const TAG_NAME: usize = 26;

const TAG_TYPE: usize = 29;

const GLOBAL_NAME: usize = 33;

const GLOBAL_TYPE: usize = 35;

const GLOBAL_MUTABILITY: usize = 36;

const MEMORY_FLAGS: usize = 42;

pub(crate) const MEMORY_MIN: usize = 43;

const MEMORY_MAX: usize = 44;

const TABLE_ELEMENT: usize = 50;

const TABLE_FLAGS: usize = 51;

const TABLE_MIN: usize = 52;

const TABLE_MAX: usize = 53;

const FUNCTION_NAME: usize = 57;

const FUNCTION_TYPE: usize = 59;

/// What resolving the imports of a module gives, where the exports of another are defined.
pub(crate) type Resolved = Result<Vec<usize>, LinkError>;

// Registers both modules, defines the exports of the first under `m`, and resolves the imports of
// the second.
fn link(
    alloc: Global,
    first: &Module,
    first_types: &ModuleTypes,
    second: &Module,
    second_types: &ModuleTypes,
) -> Result<Resolved, Fail>
    requires first { IsLinkable first.now first_types.now }
    requires second { IsLinkable second.now second_types.now }
{
    let mut registry = new_registry(alloc);
    let first_key = register(&mut registry, first_types)?;
    let second_key = register(&mut registry, second_types)?;
    let mut linker = Linker::new(alloc);
    linker.define_exports(&registry, first_key, "m", first)?;
    Ok(linker.resolve(alloc, &registry, second_key, second))
}

fn link_second(
    alloc: Global,
    first: &Module,
    first_types: &ModuleTypes,
    second: &[u8],
) -> Result<Resolved, Fail>
    requires { IsLinkable first.now first_types.now }
{
    let (translation, types) = translated(alloc, second)?;
    let resolved = link(alloc, first, first_types, &translation.module, &types);
    // A large value is dropped by one call.
    drop(translation);
    resolved
}

/// Links the two modules that some bytes spell.
pub(crate) fn linked(alloc: Global, first: &[u8], second: &[u8]) -> Result<Resolved, Fail> {
    let (translation, types) = translated(alloc, first)?;
    let resolved = link_second(alloc, &translation.module, &types, second);
    drop(translation);
    resolved
}

#[test]
fn imports_get_the_exports_under_their_names(rt: HostRuntime) -> Result<(), Fail> {
    let numbers = linked(rt.alloc(), &FIRST, &SECOND)??;
    assert!(rt; numbers.as_slice() == [4, 3, 2, 1, 0].as_slice());
    Ok(())
}

// The second module with another byte at an offset is refused so, or linked as before.
fn expect(
    rt: &impl Abort,
    alloc: Global,
    place: usize,
    byte: u8,
    wanted: Option<LinkError>,
) -> Result<(), Fail> {
    let mut second = SECOND;
    if let Some(at) = second.get_mut(place) {
        *at = byte;
    }
    let refused = linked(alloc, &FIRST, &second)?.err();
    assert!(rt; refused == wanted, "byte {place}");
    Ok(())
}

#[test]
fn each_import_is_matched_by_its_rules(rt: HostRuntime) -> Result<(), Fail> {
    for (place, byte, wanted) in [
        (TAG_NAME, 0x7A, Some(LinkError::Missing(0))),
        (TAG_TYPE, 1, Some(LinkError::Mismatch(0, Mismatch::TagType))),
        (
            GLOBAL_NAME,
            0x66,
            Some(LinkError::Mismatch(1, Mismatch::Kind)),
        ),
        (
            GLOBAL_TYPE,
            0x7E,
            Some(LinkError::Mismatch(1, Mismatch::GlobalType)),
        ),
        (
            GLOBAL_MUTABILITY,
            1,
            Some(LinkError::Mismatch(1, Mismatch::GlobalMutability)),
        ),
        (
            MEMORY_FLAGS,
            0x05,
            Some(LinkError::Mismatch(2, Mismatch::MemoryIndexType)),
        ),
        (
            MEMORY_FLAGS,
            0x03,
            Some(LinkError::Mismatch(2, Mismatch::MemoryShared)),
        ),
        (MEMORY_MIN, 0, None),
        (
            MEMORY_MIN,
            2,
            Some(LinkError::Mismatch(2, Mismatch::MemoryMin)),
        ),
        (
            MEMORY_MAX,
            1,
            Some(LinkError::Mismatch(2, Mismatch::MemoryMax)),
        ),
        (MEMORY_MAX, 3, None),
        (
            TABLE_ELEMENT,
            0x6F,
            Some(LinkError::Mismatch(3, Mismatch::TableElement)),
        ),
        (
            TABLE_FLAGS,
            0x05,
            Some(LinkError::Mismatch(3, Mismatch::TableIndexType)),
        ),
        (TABLE_MIN, 0, None),
        (
            TABLE_MIN,
            2,
            Some(LinkError::Mismatch(3, Mismatch::TableMin)),
        ),
        (
            TABLE_MAX,
            1,
            Some(LinkError::Mismatch(3, Mismatch::TableMax)),
        ),
        (TABLE_MAX, 3, None),
        (FUNCTION_NAME, 0x7A, Some(LinkError::Missing(4))),
        (
            FUNCTION_TYPE,
            0,
            Some(LinkError::Mismatch(4, Mismatch::FuncType)),
        ),
    ] {
        expect(&rt, rt.alloc(), place, byte, wanted)?;
    }
    Ok(())
}
