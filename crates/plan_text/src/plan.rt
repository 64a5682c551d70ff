//! The plan of a module.

use entity_map::PrimaryMap;
use gc_layout::GcLayout;
use init_plan::ModuleTranslation;
use module_types::ModuleTypes;
use vm_offsets::VMOffsets;
use wasm_index::ModuleInternedTypeIndex;

/// What a module becomes before any code is made of it.
pub struct Plan<'d> {
    /// Its translation, with images of memories and tables, and with what remains to be written at
    /// the start.
    pub translation: ModuleTranslation<'d>,
    /// Its interned types.
    pub types: ModuleTypes,
    /// The layout of the objects of each interned type; function types and continuation types have
    /// none.
    pub layouts: PrimaryMap<ModuleInternedTypeIndex, Option<GcLayout>>,
    /// The layout of its context, for pointers of 4 or 8 bytes.
    pub offsets: VMOffsets<u8>,
}

// One call in place of a walk over the parts, wherever a plan is dropped.
impl Drop for Plan<'_> {
    fn drop(self) {
        let Plan {
            translation: _translation,
            types: _types,
            layouts: _layouts,
            offsets: _offsets,
        } = self;
    }
}
