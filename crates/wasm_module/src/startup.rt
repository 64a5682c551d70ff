//! What runs when a module is instantiated.

ghost use Rattle.std.specs.Prelude.{◌≡◌, ◌↔◌, IsTrue};

use wasm_types::EngineOrModuleTypeIndex;

/// Whether a module needs a startup function when it is instantiated (core specification, 4.7,
/// instantiation), and the type of that function, which has no parameters and no results.
#[derive(Drop)]
pub enum ModuleStartup {
    /// There is nothing to run.
    None,
    /// It always runs.
    Always(EngineOrModuleTypeIndex),
    /// It runs unless every memory already begins as its image.
    IfMemoriesNeedInit(EngineOrModuleTypeIndex),
}

impl ModuleStartup {
    /// Whether there is nothing to run.
    pub fn is_none(&self) -> bool
        ensures { IsTrue result ↔ (self.now ≡ ModuleStartup.None) }
    {
        matches!(self, ModuleStartup::None)
    }
}
