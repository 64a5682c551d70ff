//! Functions.

ghost use Rattle.std.specs.Prelude.{◌↔◌, ◌≢◌, IsTrue};
ghost use Rattle.wasm_index.specs.Index.{number_of};

use entity_map::ReservedValue;
use wasm_index::Index;
use wasm_types::EngineOrModuleTypeIndex;

/// The functions of a module to which references are made, in the order of the first use.
pub enum FuncRefSpace {}

/// An index into [`FuncRefSpace`].
pub type FuncRefIndex = Index<FuncRefSpace>;

/// A function (core specification, 2.5, functions).
#[derive(Drop)]
pub struct FunctionType {
    /// The index of its type.
    pub signature: EngineOrModuleTypeIndex,
    /// Its number among the functions to which references are made; the reserved value where none is made.
    pub func_ref: FuncRefIndex,
}

impl FunctionType {
    /// Whether references to the function are made, so that it escapes from the module.
    pub fn is_escaping(&self) -> bool
        ensures { IsTrue result ↔ (number_of self.now.func_ref ≢ u32.MAX) }
    {
        !self.func_ref.is_reserved_value()
    }
}
