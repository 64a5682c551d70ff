//! The trait of values that have edges to types.

ghost use Rattle.std.specs.Prelude.{◌≡◌, ◌↔◌, IsTrue, IsSome, None, List, All};
ghost use Rattle.type_spec.specs.Names.{Traced, Alike, frame};
ghost use Rattle.wasm_index.specs.Index.{number_of};
ghost use Rattle.wasm_index.specs.declared.index.Index.{Index};
ghost use Rattle.wasm_index.specs.declared.spaces.VMSharedTypeSpace.{VMSharedTypeSpace};
ghost use Rattle.wasm_index.specs.declared.spaces.ModuleInternedTypeSpace.{ModuleInternedTypeSpace};
ghost use Rattle.wasm_types.specs.declared.index.EngineOrModuleTypeIndex.{EngineOrModuleTypeIndex};
ghost use Rattle.wasm_types.specs.Views.{engine_index, module_index};
ghost use Rattle.wasm_trace.specs.Canonical.{engine_edges, AtEngineEdge, IsRuntimeEdge, CanBeRuntimeEdge, IsConsedEdge, CanBeConsedEdge, Gives, runtime_edge, consed_edge};
ghost use Rattle.wasm_trace.specs.Runs.{Run, MayRun, RunMut, MayRunMut};

use entity_map::EntityRef;
use std::ops::Range;
use wasm_index::{ModuleInternedTypeIndex, RecGroupRelativeTypeIndex, VMSharedTypeIndex};
use wasm_types::EngineOrModuleTypeIndex;

/// A value with edges to types: the type indices that it contains, in a fixed order.
pub trait TypeTrace {
    /// The value as data, over any type of references.
    ghost Data: { Type 0 → Type 0 };

    /// How the references of such data are replaced, and their order.
    ghost shape: { Traced Data };

    /// A value as data.
    ghost view: { Self → Data EngineOrModuleTypeIndex };

    /// Visits each edge, in order. It stops at the first `Err` that a visit returns.
    fn trace<F, E>(&self, func: &mut F) -> Result<(), E>
    where
        F: FnMut(EngineOrModuleTypeIndex) -> Result<(), E>,
        requires { MayRun F.FnMut func.old (shape.edges (view self.now)) }
        ensures { Run F.FnMut func.old (shape.edges (view self.now)) result func.new };

    /// Visits each edge, in order, for writing. It stops at the first `Err` that a visit returns;
    /// what was written before remains.
    fn trace_mut<F, E>(&mut self, func: &mut F) -> Result<(), E>
    where
        F: FnMut(&mut EngineOrModuleTypeIndex) -> Result<(), E>,
        requires { MayRunMut F.FnMut func.old (shape.edges (view self.old)) }
        ensures kept { frame shape (view self.new) ≡ frame shape (view self.old) }
        ensures run { RunMut F.FnMut func.old (shape.edges (view self.old)) result func.new (shape.edges (view self.new)) };

    /// Visits each edge that is an engine's, in order. It stops at the first `Err` that a visit returns.
    final fn trace_engine_indices<F, E>(&self, func: &mut F) -> Result<(), E>
    where
        F: FnMut(VMSharedTypeIndex) -> Result<(), E>,
        requires { MayRun F.FnMut func.old (engine_edges (shape.edges (view self.now))) }
        ensures { Run F.FnMut func.old (engine_edges (shape.edges (view self.now))) result func.new }
    {
        self.trace(
            &mut |edge: EngineOrModuleTypeIndex|
                requires { AtEngineEdge (F.pre func.now) edge }
            {
                match edge {
                    EngineOrModuleTypeIndex::Engine(index) => func(index),
                    EngineOrModuleTypeIndex::Module(_) | EngineOrModuleTypeIndex::RecGroup(_) => Ok(
                        (),
                    ),
                }
            },
        )
    }

    /// Rewrites each edge into a module's types to the engine's index of that type. No edge may be into a
    /// recursion group.
    final fn canonicalize_for_runtime_usage<F>(&mut self, module_to_engine: &F)
    where
        F: Fn(ModuleInternedTypeIndex) -> VMSharedTypeIndex,
        requires { All (CanBeRuntimeEdge (F.pre module_to_engine.now)) (shape.edges (view self.old)) }
        ensures rewritten { Alike shape (IsRuntimeEdge (F.post module_to_engine.now)) (view self.old) (view self.new) }
        ensures mapped { (engine : Index ModuleInternedTypeSpace → Index VMSharedTypeSpace) → Gives (F.post module_to_engine.now) engine
            → view self.new ≡ shape.map (runtime_edge engine) (view self.old) }
    {
        self.trace_mut::<_, ()>(
            &mut |edge: &mut EngineOrModuleTypeIndex|
                requires { CanBeRuntimeEdge (F.pre module_to_engine.now) edge.old }
            {
                let old = *edge;
                *edge = match old {
                    EngineOrModuleTypeIndex::Module(index) => {
                        EngineOrModuleTypeIndex::Engine(module_to_engine(index))
                    }
                    canonical => canonical,
                };
                Ok(())
            },
        )
        .unwrap()
    }

    /// Whether each edge is an engine's.
    final fn is_canonicalized_for_runtime_usage(&self) -> bool
        ensures { IsTrue result ↔ All (λ e. IsSome (engine_index e)) (shape.edges (view self.now)) }
    {
        self.trace(&mut |edge: EngineOrModuleTypeIndex| {
            if edge.is_engine_type_index() {
                Ok(())
            } else {
                Err(())
            }
        })
        .is_ok()
    }

    /// Rewrites each edge into a module's types. An edge into the recursion group of the range
    /// becomes an index into the group. All others become the engine's index of that type. No edge
    /// may be into a recursion group before, or past the range.
    final fn canonicalize_for_hash_consing<F>(
        &mut self,
        rec_group_range: Range<ModuleInternedTypeIndex>,
        module_to_engine: &F,
    )
    where
        F: Fn(ModuleInternedTypeIndex) -> VMSharedTypeIndex,
        requires { All (CanBeConsedEdge (F.pre module_to_engine.now) (number_of rec_group_range.start) (number_of rec_group_range.end)) (shape.edges (view self.old)) }
        ensures rewritten { Alike shape (IsConsedEdge (F.post module_to_engine.now) (number_of rec_group_range.start)) (view self.old) (view self.new) }
        ensures mapped { (engine : Index ModuleInternedTypeSpace → Index VMSharedTypeSpace) → Gives (F.post module_to_engine.now) engine
            → view self.new ≡ shape.map (consed_edge engine (number_of rec_group_range.start)) (view self.old) }
    {
        let start = rec_group_range.start.as_u32();
        let end = rec_group_range.end.as_u32();
        self.trace_mut::<_, ()>(
            &mut |edge: &mut EngineOrModuleTypeIndex|
                requires { CanBeConsedEdge (F.pre module_to_engine.now) start end edge.old }
            {
                let old = *edge;
                *edge = match old {
                    EngineOrModuleTypeIndex::Module(index) => {
                        let number = index.as_u32();
                        if number < start {
                            EngineOrModuleTypeIndex::Engine(module_to_engine(index))
                        } else {
                            prove!(number < end);
                            EngineOrModuleTypeIndex::RecGroup(RecGroupRelativeTypeIndex::from_u32(
                                number - start,
                            ))
                        }
                    }
                    other => other,
                };
                Ok(())
            },
        )
        .unwrap()
    }

    /// Whether no edge is into a module's types.
    final fn is_canonicalized_for_hash_consing(&self) -> bool
        ensures { IsTrue result ↔ All (λ e. module_index e ≡ None) (shape.edges (view self.now)) }
    {
        self.trace(&mut |edge: EngineOrModuleTypeIndex| {
            if edge.is_module_type_index() {
                Err(())
            } else {
                Ok(())
            }
        })
        .is_ok()
    }

    /// The view distinguishes values.
    ghost injective: { (x y : Self) → view x ≡ view y → x ≡ y };
}
