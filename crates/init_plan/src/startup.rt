//! Startup: the remaining work at instantiation needs a function, and so its type.

ghost use Rattle.std.specs.Prelude.{◌≡◌, ◌↔◌, ◌<◌, length, true, false, Err, IfOk, OnOk, OnErr};
ghost use Rattle.wasm_index.specs.Index.{index_of};
ghost use Rattle.wasm_types.specs.declared.index.EngineOrModuleTypeIndex.TheVariants.{Module};
ghost use Rattle.module_types.specs.Builder.{builder_view, starts, startup_index};
ghost use Rattle.replay_spec.specs.Startup.{Always};
ghost use Rattle.init_plan.specs.Startup.{raised, types_after, standing_or, startup_kind, with_images, with_startup};

use crate::translation::ModuleTranslation;
use module_types::{BuildError, ModuleTypesBuilder};
use wasm_module::ModuleStartup;
use wasm_types::EngineOrModuleTypeIndex;

impl ModuleTranslation<'_> {
    /// The module needs a startup function that always runs. An existing startup type is kept;
    /// otherwise the builder gives it.
    ///
    /// # Errors
    /// `Poisoned` where the builder is, and `OutOfMemory`, after which it is.
    pub fn require_startup_func(&mut self, types: &mut ModuleTypesBuilder) -> Result<(), BuildError>
        requires room { types.old.is_poisoned ≡ false → length (starts (builder_view types.old)).built.types < u32.MAX }
        ensures ok { OnOk result (self.new ≡ with_startup self.old (raised Always self.old.module.startup (builder_view types.old))) }
        ensures types { OnOk result (builder_view types.new ≡ types_after Always self.old.module.startup (builder_view types.old)) }
        ensures poisoned { (result ≡ Err BuildError.Poisoned) ↔ (types.old.is_poisoned ≡ true) }
        ensures err { OnErr result ((self.new ≡ self.old) × (types.new.is_poisoned ≡ true)) }
    {
        let ty = startup_type(&self.module.startup, types)?;
        self.module.startup = ModuleStartup::Always(ty);
        Ok(())
    }

    /// The module needs a startup function where its memories do not begin as their images, unless
    /// it has one already.
    ///
    /// # Errors
    /// `Poisoned` where the builder is, and `OutOfMemory`, after which it is.
    pub(crate) fn require_startup_for_images(
        &mut self,
        types: &mut ModuleTypesBuilder,
    ) -> Result<(), BuildError>
        requires room { types.old.is_poisoned ≡ false → length (starts (builder_view types.old)).built.types < u32.MAX }
        ensures ok { let kind = with_images (startup_kind self.old.module.startup) in
            OnOk result (self.new ≡ with_startup self.old (raised kind self.old.module.startup (builder_view types.old))) }
        ensures types { let kind = with_images (startup_kind self.old.module.startup) in
            OnOk result (builder_view types.new ≡ types_after kind self.old.module.startup (builder_view types.old)) }
        ensures poisoned { (result ≡ Err BuildError.Poisoned) ↔ (types.old.is_poisoned ≡ true) }
        ensures err { OnErr result ((self.new ≡ self.old) × (types.new.is_poisoned ≡ true)) }
    {
        let ty = startup_type(&self.module.startup, types)?;
        if self.module.startup.is_none() {
            self.module.startup = ModuleStartup::IfMemoriesNeedInit(ty);
        }
        Ok(())
    }
}

/// The existing type of startup, or else the one that the builder gives.
fn startup_type(
    startup: &ModuleStartup,
    types: &mut ModuleTypesBuilder,
) -> Result<EngineOrModuleTypeIndex, BuildError>
    requires room { types.old.is_poisoned ≡ false → length (starts (builder_view types.old)).built.types < u32.MAX }
    ensures index { IfOk result (λ ty. ty ≡ standing_or startup.now (Module (index_of (startup_index (builder_view types.old))))) }
    ensures types { OnOk result (builder_view types.new ≡ types_after Always startup.now (builder_view types.old)) }
    ensures poisoned { (result ≡ Err BuildError.Poisoned) ↔ (types.old.is_poisoned ≡ true) }
    ensures err { OnErr result (types.new.is_poisoned ≡ true) }
{
    if types.is_poisoned() {
        return Err(BuildError::Poisoned);
    }
    match startup {
        ModuleStartup::Always(ty) | ModuleStartup::IfMemoriesNeedInit(ty) => Ok(*ty),
        ModuleStartup::None => Ok(EngineOrModuleTypeIndex::Module(types.startup_func_type()?)),
    }
}
