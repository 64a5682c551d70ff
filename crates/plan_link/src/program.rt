//! A program of many modules.

ghost use Rattle.std.specs.Prelude.{◌≡◌, ◌↔◌, ◌≤◌, ◌⊎◌, ℕ, All, IfOk, IsOk, IsErrOf};
ghost use Rattle.plan_link.specs.declared.program_error.ProgramError.TheVariants as refused;
ghost use Rattle.plan_link.specs.Program.{IsPlannedModule, IsProgram, ShareIndices, GivesEarlier, IsDuplicate, IsCrowded, count_types, capacity};

use crate::answer::ImportAnswer;
use crate::laws::planned_can_link;
use crate::program_error::ProgramError;
use crate::program_links::link_members;
use crate::program_types::{MOST_TYPES, crowded_at, register_all};
use plan_text::Plan;
use std::alloc::Global;
use type_registry::{TypeRegistry, same_law};
use wasm_index::VMSharedTypeIndex;

/// A module of a program.
#[derive(Clone, Copy)]
pub struct ProgramModule<'a, 'd> {
    /// The name under which later modules import its exports.
    pub name: &'a str,
    /// Its plan.
    pub plan: &'a Plan<'d>,
}

/// What the linker finds for a module of a program.
#[derive(Drop)]
pub struct LinkedModule {
    /// The registry's index of each interned type, in order. Two types of the program have one
    /// index exactly where they are equal.
    pub types: Vec<VMSharedTypeIndex>,
    /// The answer to each import, in order. The numbers of exports count those of all modules, from
    /// 0 on, in order.
    pub answers: Vec<ImportAnswer>,
    /// How many exports the modules before it have: the number of its own first export.
    pub first_export: usize,
}

/// Links the modules of a program, in order: one registry has the types of all, and the imports of
/// each module are given by the exports of those before it, each under the name of its module. An
/// import that is not given refuses nothing: its answer says so.
///
/// # Errors
/// `TooManyTypes` where the modules have more than 2^32 - 2 types, before all others; `Duplicate`
/// where two modules export an entity under the same two names; `OutOfMemory`.
pub fn link_program(
    alloc: Global,
    modules: &[ProgramModule<'_, '_>],
) -> Result<Vec<LinkedModule>, ProgramError>
    requires { All IsPlannedModule modules.now }
    ensures linked { IfOk result (λ linked. IsProgram modules.now linked.items) }
    ensures types { IfOk result (λ linked. ShareIndices modules.now linked.items) }
    ensures earlier { IfOk result (λ linked. All GivesEarlier linked.items) }
    ensures crowded { (k : ℕ) → IsErrOf result (refused.TooManyTypes k) ↔ IsCrowded modules.now k }
    ensures duplicate { (k : ℕ) → IsErrOf result (refused.Duplicate k) → IsDuplicate modules.now k }
    ensures repeated { (k : ℕ) → count_types modules.now ≤ capacity → IsDuplicate modules.now k
        → IsErrOf result (refused.Duplicate k) ⊎ IsErrOf result refused.OutOfMemory }
    ensures complete { count_types modules.now ≤ capacity → ((k : ℕ) → IsDuplicate modules.now k → ⊥)
        → IsOk result ⊎ IsErrOf result refused.OutOfMemory }
{
    planned_can_link();
    same_law();
    if let Some(place) = crowded_at(modules) {
        return Err(ProgramError::TooManyTypes(place));
    }
    let mut registry = TypeRegistry::new(alloc, MOST_TYPES);
    let keys = register_all(alloc, &mut registry, modules)?;
    link_members(alloc, &registry, &keys, modules)
}
