//! A worked example of the definitions: each clause computes.

ghost use Rattle.std.specs.Prelude.{◌≡◌, [], ◌∷◌, false, true};
ghost use Rattle.wasm_spec.specs.TypeData as types;
ghost use Rattle.rule_spec.specs.Lists.{lists_of_module};
ghost use Rattle.module_environ.specs.Metadata.{functions_asked};
ghost use Rattle.interned_types.specs.Types.{look_up_in};
ghost use Rattle.module_environ.specs.Worked.{defining_module};

/// A defined function by its parameters and locals, where the caller requires them.
pub fn worked_functions()
    ensures asked { functions_asked (look_up_in defining_module) (lists_of_module defining_module) true
        ≡ record { params = types.I32 ∷ types.I64 ∷ []; locals = (3, types.F32) ∷ [] } ∷ [] }
    ensures otherwise { functions_asked (look_up_in defining_module) (lists_of_module defining_module) false ≡ [] }
{}
