//! What holds of the indices of defined entities.

ghost use Rattle.wasm_index.specs.declared.spaces.DefinedFuncSpace.{DefinedFuncSpace};
ghost use Rattle.wasm_index.specs.declared.spaces.DefinedGlobalSpace.{DefinedGlobalSpace};
ghost use Rattle.wasm_index.specs.declared.spaces.DefinedMemorySpace.{DefinedMemorySpace};
ghost use Rattle.wasm_index.specs.declared.spaces.DefinedTableSpace.{DefinedTableSpace};
ghost use Rattle.wasm_index.specs.declared.spaces.DefinedTagSpace.{DefinedTagSpace};
ghost use Rattle.wasm_index.specs.declared.spaces.FuncSpace.{FuncSpace};
ghost use Rattle.wasm_index.specs.declared.spaces.GlobalSpace.{GlobalSpace};
ghost use Rattle.wasm_index.specs.declared.spaces.MemorySpace.{MemorySpace};
ghost use Rattle.wasm_index.specs.declared.spaces.TableSpace.{TableSpace};
ghost use Rattle.wasm_index.specs.declared.spaces.TagSpace.{TagSpace};
ghost use Rattle.wasm_module.specs.Record.{ModuleRecord};
ghost use Rattle.wasm_module.specs.Spaces.{ComesBack};

/// In each space, the defined entity at the index of a defined entity is that entity, wherever it
/// has an index.
pub fn defined_index_laws()
    ensures functions { (m : ModuleRecord) → ComesBack FuncSpace DefinedFuncSpace m.num_imported_funcs }
    ensures tables { (m : ModuleRecord) → ComesBack TableSpace DefinedTableSpace m.num_imported_tables }
    ensures memories { (m : ModuleRecord) → ComesBack MemorySpace DefinedMemorySpace m.num_imported_memories }
    ensures globals { (m : ModuleRecord) → ComesBack GlobalSpace DefinedGlobalSpace m.num_imported_globals }
    ensures tags { (m : ModuleRecord) → ComesBack TagSpace DefinedTagSpace m.num_imported_tags }
{}
