//! The rules by which a definition matches an import.

ghost use Rattle.std.specs.Prelude.{◌≡◌};
ghost use Rattle.import_match.specs.Rules.{is_within, first_broken, function_rules, table_rules, memory_rules, global_rules, tag_rules, mismatch, HasEngineTypes};

use crate::error::Mismatch;
use wasm_types::{EngineOrModuleTypeIndex, EntityType, Global, Memory, Table, Tag};

/// Whether a greatest size is within the required one. Where none is required, any size is.
fn is_within(have: Option<u64>, want: Option<u64>) -> bool
    ensures { result ≡ is_within have want }
{
    match (have, want) {
        (_, None) => true,
        (None, Some(_)) => false,
        (Some(have), Some(want)) => have <= want,
    }
}

/// The first of some rules that does not hold.
fn first_broken(rules: &[(bool, Mismatch)]) -> Option<Mismatch>
    ensures { result ≡ first_broken rules.now }
{
    for (holds, rule) in rules {
        if !*holds {
            return Some(*rule);
        }
    }
    None
}

fn function_rules(have: EngineOrModuleTypeIndex, want: EngineOrModuleTypeIndex) -> Option<Mismatch>
    ensures { result ≡ first_broken (function_rules have want) }
{
    first_broken(&[(have == want, Mismatch::FuncType)])
}

fn table_rules(have: &Table, want: &Table) -> Option<Mismatch>
    ensures { result ≡ first_broken (table_rules have.now want.now) }
{
    let within = is_within(have.limits.max, want.limits.max);
    first_broken(&[
        (have.ref_type == want.ref_type, Mismatch::TableElement),
        (have.idx_type == want.idx_type, Mismatch::TableIndexType),
        (have.limits.min >= want.limits.min, Mismatch::TableMin),
        (within, Mismatch::TableMax),
    ])
}

fn memory_rules(have: &Memory, want: &Memory) -> Option<Mismatch>
    ensures { result ≡ first_broken (memory_rules have.now want.now) }
{
    let same_page = have.page_size_log2 == want.page_size_log2;
    let within = is_within(have.limits.max, want.limits.max);
    first_broken(&[
        (have.idx_type == want.idx_type, Mismatch::MemoryIndexType),
        (have.shared == want.shared, Mismatch::MemoryShared),
        (same_page, Mismatch::MemoryPage),
        (have.limits.min >= want.limits.min, Mismatch::MemoryMin),
        (within, Mismatch::MemoryMax),
    ])
}

fn global_rules(have: &Global, want: &Global) -> Option<Mismatch>
    ensures { result ≡ first_broken (global_rules have.now want.now) }
{
    let same_mutability = have.mutability == want.mutability;
    first_broken(&[
        (same_mutability, Mismatch::GlobalMutability),
        (have.wasm_ty == want.wasm_ty, Mismatch::GlobalType),
    ])
}

fn tag_rules(have: &Tag, want: &Tag) -> Option<Mismatch>
    ensures { result ≡ first_broken (tag_rules have.now want.now) }
{
    first_broken(&[(have.signature == want.signature, Mismatch::TagType)])
}

/// The first rule that the given definition breaks for an import, in the order of [`Mismatch`];
/// none where it matches (core specification, 3.3, external types). Types are compared by the
/// engine's indices, so subtypes do not match.
pub fn match_entity(have: &EntityType, want: &EntityType) -> Option<Mismatch>
    requires have { HasEngineTypes have.now }
    requires want { HasEngineTypes want.now }
    ensures { result ≡ mismatch have.now want.now }
{
    match (have, want) {
        (EntityType::Function(have), EntityType::Function(want)) => function_rules(*have, *want),
        (EntityType::Table(have), EntityType::Table(want)) => table_rules(have, want),
        (EntityType::Memory(have), EntityType::Memory(want)) => memory_rules(have, want),
        (EntityType::Global(have), EntityType::Global(want)) => global_rules(have, want),
        (EntityType::Tag(have), EntityType::Tag(want)) => tag_rules(have, want),
        _ => Some(Mismatch::Kind),
    }
}
