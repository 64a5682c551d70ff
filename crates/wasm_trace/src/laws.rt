//! What holds of every run of visits, and of every value that has edges.

ghost use Rattle.std.specs.Prelude.{◌≡◌, ◌↔◌, ℕ, List, ◌++◌, Result};
ghost use Rattle.type_spec.specs.Names.{Alike, frame};
ghost use Rattle.wasm_types.specs.declared.index.EngineOrModuleTypeIndex.{EngineOrModuleTypeIndex};
ghost use Rattle.wasm_index.specs.declared.index.Index.{Index};
ghost use Rattle.wasm_index.specs.declared.spaces.VMSharedTypeSpace.{VMSharedTypeSpace};
ghost use Rattle.wasm_index.specs.declared.spaces.ModuleInternedTypeSpace.{ModuleInternedTypeSpace};
ghost use Rattle.wasm_trace.specs.Canonical.{consed_edge};
ghost use Rattle.wasm_trace.specs.Runs.{Run, RunBoth, RunMut, RunBothMut, ChangesNothing};

use crate::trace::TypeTrace;
use wasm_types::EngineOrModuleTypeIndex;

/// A run over two joined lists is the run over the first and, where that returns `Ok`, the run over
/// the second.
pub fn run_laws<F, E>()
where
    F: FnMut(EngineOrModuleTypeIndex) -> Result<(), E>,
    ensures { (before after : F) (xs ys : List EngineOrModuleTypeIndex) (result : Result (Unit {0}) E)
        → Run F.FnMut before (xs ++ ys) result after ↔ RunBoth F.FnMut before xs ys result after }
{}

/// The same holds where visits may change edges.
pub fn run_mut_laws<F, E>()
where
    F: FnMut(&mut EngineOrModuleTypeIndex) -> Result<(), E>,
    ensures { (before after : F) (xs ys new : List EngineOrModuleTypeIndex) (result : Result (Unit {0}) E)
        → RunMut F.FnMut before (xs ++ ys) result after new ↔ RunBothMut F.FnMut before xs ys result after new }
{}

/// A mutable trace whose visits change nothing leaves the value equal.
pub fn unchanged_law<T: TypeTrace, F, E>()
where
    F: FnMut(&mut EngineOrModuleTypeIndex) -> Result<(), E>,
    ensures { (before after : F) (old new : T) (result : Result (Unit {0}) E)
        → ChangesNothing F.FnMut → frame T.shape (T.view new) ≡ frame T.shape (T.view old)
        → RunMut F.FnMut before (T.shape.edges (T.view old)) result after (T.shape.edges (T.view new)) → new ≡ old }
{}

/// Two values in the form in which types are compared are equal exactly where the original values
/// were alike except for references that become equal.
pub fn compared_forms_law<T: TypeTrace>()
    ensures { (engine engine' : Index ModuleInternedTypeSpace → Index VMSharedTypeSpace) (start start' : ℕ) (x y x' y' : T)
        → T.view x' ≡ T.shape.map (consed_edge engine start) (T.view x) → T.view y' ≡ T.shape.map (consed_edge engine' start') (T.view y)
        → (x' ≡ y') ↔ Alike T.shape (λ r s. consed_edge engine start r ≡ consed_edge engine' start' s) (T.view x) (T.view y) }
{}
