//! Worked examples of the definitions: each clause computes.

ghost use Rattle.std.specs.Prelude.{◌≡◌, [], ◌∷◌, false, true, map};
ghost use Rattle.rule_spec.specs.Lists.{lists_of_module};
ghost use Rattle.wasm_index.specs.Index.{index_of, number_of};
ghost use Rattle.wasm_types.specs.declared.entity.EntityIndex.TheVariants as entity;
ghost use Rattle.entity_map.specs.Firsts.{firsts};
ghost use Rattle.module_sections.specs.Escapes.{escaping};
ghost use Rattle.module_sections.specs.Entities.{exported_entities, imported_entities, function_types};
ghost use Rattle.module_sections.specs.Worked.{escaping_module};

/// The functions that escape, in the order of the first cause: imports, tables, globals, exports
/// and segments, and then those of a debugger.
pub fn worked_escapes()
    ensures firsts { firsts (3 ∷ 1 ∷ 3 ∷ 2 ∷ 1 ∷ []) ≡ 3 ∷ 1 ∷ 2 ∷ [] }
    ensures order { escaping false (lists_of_module escaping_module) ≡ 0 ∷ 5 ∷ 2 ∷ 4 ∷ 1 ∷ [] }
    ensures debugged { escaping true (lists_of_module escaping_module) ≡ 0 ∷ 5 ∷ 2 ∷ 4 ∷ 1 ∷ 3 ∷ 6 ∷ [] }
    ensures numbers { map (λ f. number_of f.func_ref) (function_types escaping_module (5 ∷ 2 ∷ [])) ≡ 4294967295 ∷ 4294967295 ∷ 1 ∷ 4294967295 ∷ 4294967295 ∷ 0 ∷ 4294967295 ∷ [] }
{}

/// Imports and exports by the indices of their entities.
pub fn worked_entities()
    ensures imports { imported_entities escaping_module ≡ (109 ∷ [], 102 ∷ [], entity.Function (index_of 0)) ∷ [] }
    ensures exports { exported_entities (lists_of_module escaping_module).exports
        ≡ (97 ∷ [], entity.Function (index_of 4)) ∷ (98 ∷ [], entity.Table (index_of 0)) ∷ [] }
{}
