//! What a translated module imports has a position among its imports.

ghost use Rattle.std.specs.Prelude.{◌≡◌, ℕ, Option, Some};
ghost use Rattle.wasm_spec.specs.Module.{Module};
ghost use Rattle.wasm_types.specs.declared.entity.EntityIndex.{EntityIndex};
ghost use Rattle.wasm_module.specs.Entities.{IsImported};
ghost use Rattle.wasm_module.specs.Imports.{IsFirstImport, entity_at};
ghost use Rattle.wasm_module.specs.Record.{record_of};
ghost use Rattle.init_plan.specs.declared.translation.ModuleTranslation.{ModuleTranslation};
ghost use Rattle.module_sections.specs.Sections.{HasEntities, CountsImports};

/// Each imported entity of a translated module is the one that some import brings.
/// `import_position` returns a position for it, and `import_index` gives it back for that position.
pub fn import_position_law()
    ensures { (m : Module) (t : ModuleTranslation) (e : EntityIndex) (answer : Option ℕ) → HasEntities m t → CountsImports m t.module
        → IsImported (record_of t.module) e → IsFirstImport (record_of t.module) e answer
        → (place : ℕ) × (answer ≡ Some place) × (entity_at (record_of t.module) place ≡ Some e) }
{}
