//! The names of a module, and the metadata of its functions.

ghost use Rattle.init_plan.specs.Views.{TellsNothing};

use std::alloc::Global;
use std::collections::BTreeMap;
use std::rc::Rc;
use wasm_index::FuncIndex;
use wasm_types::WasmValType;

/// The names of a module, and the metadata of its functions.
pub struct DebugInfoData<'d> {
    pub name_section: NameSection<'d>,
    pub wasm_file: WasmFileInfo,
}

/// The names that the name section gives (core specification, appendix, custom sections).
#[derive(Drop)]
pub struct NameSection<'d> {
    pub module_name: Option<&'d str>,
    pub func_names: BTreeMap<FuncIndex, &'d str>,
    /// The names of each function's locals, by their indices.
    pub locals_names: BTreeMap<FuncIndex, BTreeMap<u32, &'d str>>,
}

/// The offset of a module's code in its file, and the metadata of its functions.
#[derive(Drop)]
pub struct WasmFileInfo {
    /// The offset in the file of the contents of the code section, in bytes, or 0 without a code
    /// section.
    pub code_section_offset: u64,
    /// How many functions are imported.
    pub imported_func_count: u32,
    /// The functions that are defined, in order, where they are requested.
    pub funcs: Vec<FunctionMetadata>,
}

/// The metadata of a function: the types of its parameters and locals.
#[derive(Drop)]
pub struct FunctionMetadata {
    /// One shared list for all functions of a type: many functions may have a long one.
    pub params: Rc<Vec<WasmValType>>,
    /// Runs of locals of the same type, with their lengths.
    pub locals: Vec<(u32, WasmValType)>,
}

/// Whether a branch of a function is likely to be taken.
#[derive(Clone, Copy, Debug, PartialEq, Eq)]
pub struct BranchHint {
    /// The offset of the branch, in bytes from the beginning of the function's body.
    pub func_offset: u32,
    pub taken: bool,
}

// One call instead of a drop of each part, wherever a translation is dropped.
impl Drop for DebugInfoData<'_> {
    fn drop(self) {
        let DebugInfoData {
            name_section: _name_section,
            wasm_file: _wasm_file,
        } = self;
    }
}

impl DebugInfoData<'_> {
    /// No name and no function.
    pub(crate) fn new(alloc: Global) -> Self
        ensures { TellsNothing result }
    {
        DebugInfoData {
            name_section: NameSection {
                module_name: None,
                func_names: BTreeMap::new(alloc),
                locals_names: BTreeMap::new(alloc),
            },
            wasm_file: WasmFileInfo {
                code_section_offset: 0,
                imported_func_count: 0,
                funcs: Vec::new(alloc),
            },
        }
    }
}
