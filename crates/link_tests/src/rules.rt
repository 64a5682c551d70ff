//! Each rule of matching, where it alone fails and where it just holds.

ghost use Rattle.std.specs.Prelude.{◌<◌, IsSome};
ghost use Rattle.import_match.specs.Rules.{HasEngineTypes};
ghost use Rattle.wasm_types.specs.Views.{engine_index};

use entity_map::EntityRef;
use import_match::{Mismatch, match_entity};
use std::process::Abort;
use wasm_index::VMSharedTypeIndex;
use wasm_types::{
    EngineOrModuleTypeIndex, EntityType, Global, IndexType, Limits, Memory, Table, Tag,
    WasmHeapType, WasmRefType, WasmValType,
};

const SIZES: Limits = Limits {
    min: 2,
    max: Some(4),
};

const MEMORY: Memory = Memory {
    idx_type: IndexType::I32,
    limits: SIZES,
    shared: false,
    page_size_log2: 16,
};

const TABLE: Table = Table {
    idx_type: IndexType::I32,
    limits: SIZES,
    ref_type: WasmRefType::FUNCREF,
};

const GLOBAL: Global = Global {
    wasm_ty: WasmValType::I32,
    mutability: false,
};

/// The result of matching is as expected.
fn expect(rt: &impl Abort, have: EntityType, want: EntityType, expected: Option<Mismatch>)
    requires have { HasEngineTypes have }
    requires want { HasEngineTypes want }
{
    assert!(rt; match_entity(&have, &want) == expected);
}

// ---- sizes

fn expect_sizes(
    rt: &impl Abort,
    have: Limits,
    want: Limits,
    memory: Option<Mismatch>,
    table: Option<Mismatch>,
) {
    let have_memory = Memory {
        limits: have,
        ..MEMORY
    };
    let want_memory = Memory {
        limits: want,
        ..MEMORY
    };
    expect(
        rt,
        EntityType::Memory(have_memory),
        EntityType::Memory(want_memory),
        memory,
    );
    let have_table = Table {
        limits: have,
        ..TABLE
    };
    let want_table = Table {
        limits: want,
        ..TABLE
    };
    expect(
        rt,
        EntityType::Table(have_table),
        EntityType::Table(want_table),
        table,
    );
}

#[test]
fn sizes_are_within_those_that_are_asked_for(rt: HostRuntime) {
    let fits = (None, None);
    let small = (Some(Mismatch::MemoryMin), Some(Mismatch::TableMin));
    let large = (Some(Mismatch::MemoryMax), Some(Mismatch::TableMax));
    for (min, max, want_max, (memory, table)) in [
        // The import's least size is 2: the definition's is equal, one more, one less.
        (2, Some(4), Some(4), fits),
        (3, Some(4), Some(4), fits),
        (1, Some(4), Some(4), small),
        // The import's greatest size is 4: the definition's is one less, one more, none.
        (2, Some(3), Some(4), fits),
        (2, Some(5), Some(4), large),
        (2, None, Some(4), large),
        // The import has no greatest size.
        (2, Some(4), None, fits),
        (2, Some(u64::MAX), None, fits),
        (2, None, None, fits),
        (1, None, None, small),
        // The ends of the range.
        (u64::MAX, Some(0), Some(0), fits),
        (u64::MAX, Some(1), Some(0), large),
        (0, Some(u64::MAX), Some(u64::MAX), small),
        (2, None, Some(u64::MAX), large),
    ] {
        expect_sizes(
            &rt,
            Limits { min, max },
            Limits {
                min: 2,
                max: want_max,
            },
            memory,
            table,
        );
    }
}

// ---- each set of rules that may be broken

fn breaks(rules: u32, rule: u32) -> bool
    requires { rule < 32 }
{
    rules >> rule & 1 == 1
}

fn sizes_breaking(min: bool, max: bool) -> Limits {
    Limits {
        min: if min { 1 } else { 2 },
        max: if max { Some(5) } else { Some(4) },
    }
}

const MEMORY_RULES: [Mismatch; 5] = [
    Mismatch::MemoryIndexType,
    Mismatch::MemoryShared,
    Mismatch::MemoryPage,
    Mismatch::MemoryMin,
    Mismatch::MemoryMax,
];

/// A memory that breaks some of these rules for `MEMORY`: each whose binary digit is 1.
fn memory_breaking(rules: u32) -> EntityType
    ensures { HasEngineTypes result }
{
    let is_wide = breaks(rules, 0);
    let has_bytes = breaks(rules, 2);
    EntityType::Memory(Memory {
        idx_type: if is_wide {
            IndexType::I64
        } else {
            IndexType::I32
        },
        shared: breaks(rules, 1),
        page_size_log2: if has_bytes { 0 } else { 16 },
        limits: sizes_breaking(breaks(rules, 3), breaks(rules, 4)),
    })
}

const TABLE_RULES: [Mismatch; 4] = [
    Mismatch::TableElement,
    Mismatch::TableIndexType,
    Mismatch::TableMin,
    Mismatch::TableMax,
];

fn table_breaking(rules: u32) -> EntityType
    ensures { HasEngineTypes result }
{
    let is_wide = breaks(rules, 1);
    let idx_type = if is_wide {
        IndexType::I64
    } else {
        IndexType::I32
    };
    let limits = sizes_breaking(breaks(rules, 2), breaks(rules, 3));
    if breaks(rules, 0) {
        return EntityType::Table(Table {
            idx_type,
            limits,
            ref_type: WasmRefType::EXTERNREF,
        });
    }
    EntityType::Table(Table {
        idx_type,
        limits,
        ref_type: WasmRefType::FUNCREF,
    })
}

const GLOBAL_RULES: [Mismatch; 2] = [Mismatch::GlobalMutability, Mismatch::GlobalType];

fn global_breaking(rules: u32) -> EntityType
    ensures { HasEngineTypes result }
{
    let mutability = breaks(rules, 0);
    if breaks(rules, 1) {
        return EntityType::Global(Global {
            mutability,
            wasm_ty: WasmValType::I64,
        });
    }
    EntityType::Global(Global {
        mutability,
        wasm_ty: WasmValType::I32,
    })
}

/// The first of some rules that is broken.
fn first_broken(rules: &[Mismatch], broken: u32) -> Option<Mismatch> {
    rules.get(broken.trailing_zeros() as usize).copied()
}

#[test]
fn the_first_broken_rule_is_named(rt: HostRuntime) {
    for broken in 0..32 {
        let named = first_broken(&MEMORY_RULES, broken);
        expect(
            &rt,
            memory_breaking(broken),
            EntityType::Memory(MEMORY),
            named,
        );
    }
    for broken in 0..16 {
        let named = first_broken(&TABLE_RULES, broken);
        expect(&rt, table_breaking(broken), EntityType::Table(TABLE), named);
    }
    for broken in 0..4 {
        let named = first_broken(&GLOBAL_RULES, broken);
        expect(
            &rt,
            global_breaking(broken),
            EntityType::Global(GLOBAL),
            named,
        );
    }
}

// Of parts that must be equal neither side may be greater: the three rules of memories, the two of
// tables and of globals, with the sides swapped.
#[test]
fn rules_of_equal_parts_have_no_sides(rt: HostRuntime) {
    for broken in 0..8 {
        let named = first_broken(&MEMORY_RULES, broken);
        expect(
            &rt,
            EntityType::Memory(MEMORY),
            memory_breaking(broken),
            named,
        );
        expect(&rt, memory_breaking(broken), memory_breaking(broken), None);
    }
    for broken in 0..4 {
        let named = first_broken(&TABLE_RULES, broken);
        expect(&rt, EntityType::Table(TABLE), table_breaking(broken), named);
        expect(&rt, table_breaking(broken), table_breaking(broken), None);
        let named = first_broken(&GLOBAL_RULES, broken);
        expect(
            &rt,
            EntityType::Global(GLOBAL),
            global_breaking(broken),
            named,
        );
        expect(&rt, global_breaking(broken), global_breaking(broken), None);
    }
}

// ---- types that are named

fn engine_type(number: u32) -> EngineOrModuleTypeIndex
    requires { number < u32.MAX }
    ensures { IsSome (engine_index result) }
{
    EngineOrModuleTypeIndex::Engine(VMSharedTypeIndex::from_u32(number))
}

fn function(number: u32) -> EntityType
    requires { number < u32.MAX }
    ensures { HasEngineTypes result }
{
    EntityType::Function(engine_type(number))
}

fn tag(signature: u32, exception: u32) -> EntityType
    requires signature { signature < u32.MAX }
    requires exception { exception < u32.MAX }
    ensures { HasEngineTypes result }
{
    EntityType::Tag(Tag {
        signature: engine_type(signature),
        exception: engine_type(exception),
    })
}

#[test]
fn functions_and_tags_have_one_index(rt: HostRuntime) {
    let of_function = Some(Mismatch::FuncType);
    expect(&rt, function(6), function(6), None);
    expect(&rt, function(7), function(6), of_function);
    expect(&rt, tag(6, 6), tag(6, 6), None);
    // The objects that carry an exception are not compared.
    expect(&rt, tag(6, 7), tag(6, 6), None);
    expect(&rt, tag(7, 6), tag(6, 6), Some(Mismatch::TagType));
}

fn reference(nullable: bool, number: u32) -> EntityType
    requires { number < u32.MAX }
    ensures { HasEngineTypes result }
{
    EntityType::Table(Table {
        ref_type: WasmRefType {
            nullable,
            heap_type: WasmHeapType::ConcreteFunc(engine_type(number)),
        },
        ..TABLE
    })
}

#[test]
fn references_are_equal(rt: HostRuntime) {
    let element = Some(Mismatch::TableElement);
    expect(&rt, reference(true, 6), reference(true, 6), None);
    expect(&rt, reference(true, 7), reference(true, 6), element);
    expect(&rt, reference(false, 6), reference(true, 6), element);
    // A subtype is another type.
    expect(&rt, reference(true, 6), EntityType::Table(TABLE), element);
}

// ---- kinds

fn entity_of_kind(kind: u32) -> EntityType
    ensures { HasEngineTypes result }
{
    match kind {
        0 => function(6),
        1 => EntityType::Table(TABLE),
        2 => EntityType::Memory(MEMORY),
        3 => EntityType::Global(GLOBAL),
        _ => tag(6, 6),
    }
}

#[test]
fn kinds_are_alike(rt: HostRuntime) {
    for have in 0..5 {
        for want in 0..5 {
            let expected = if have == want {
                None
            } else {
                Some(Mismatch::Kind)
            };
            expect(&rt, entity_of_kind(have), entity_of_kind(want), expected);
        }
    }
}
