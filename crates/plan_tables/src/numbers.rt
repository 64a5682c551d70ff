//! Small numbers for values that are not numbers.

ghost use Rattle.std.specs.Prelude.{◌≡◌};
ghost use Rattle.plan_lines.specs.TypeLines.{listed_number};
ghost use Rattle.plan_tables.specs.Numbers.{bit, wide_bit};

use entity_map::EntityRef;
use wasm_types::{EngineOrModuleTypeIndex, IndexType};

/// 1 for yes, 0 for no.
pub(crate) fn bit(yes: bool) -> u8
    ensures { result ≡ bit yes }
{
    if yes { 1 } else { 0 }
}

/// 1 where numbers of 64 bits address something, 0 where numbers of 32 bits do.
pub(crate) fn wide_bit(ty: IndexType) -> u8
    ensures { result ≡ wide_bit ty }
{
    match ty {
        IndexType::I32 => 0,
        IndexType::I64 => 1,
    }
}

/// The number of an index, whichever list it indexes.
pub(crate) fn listed_number(index: EngineOrModuleTypeIndex) -> u32
    ensures { result ≡ listed_number index }
{
    match index {
        EngineOrModuleTypeIndex::Engine(index) => index.as_u32(),
        EngineOrModuleTypeIndex::Module(index) => index.as_u32(),
        EngineOrModuleTypeIndex::RecGroup(index) => index.as_u32(),
    }
}
