//! A module with the data that its record leaves out.

ghost use Rattle.std.specs.Prelude.{◌≡◌, ◌++◌, ◌∷◌, [], length, map, Some, IfOk, OnOk, OnErr, IsSome};
ghost use Rattle.std.specs.Option.{option_map};
ghost use Rattle.wasm_index.specs.Index.{number_of};
ghost use Rattle.memory_images.specs.Views.{active_segment_of};
ghost use Rattle.init_plan.specs.Views.{unprocessed_of, IsUnprocessed, bytes_of, passive_data_of, types_of, hints_of, hint_entries_of, IsNewTranslation, SameButPassive, SameButTypes, SameButHints};

use crate::debug_info::{BranchHint, DebugInfoData};
use crate::private_parts::PrivateParts;
use entity_map::{OutOfMemory, PrimaryMap, SecondaryMap};
use form_reader::FunctionBody;
use form_types::Types;
use std::alloc::Global;
use std::collections::BTreeMap;
use wasm_convert::ConstExpr;
use wasm_index::{
    DataIndex, DefinedFuncIndex, DefinedGlobalIndex, ElemIndex, FuncIndex, MemoryIndex,
    ModuleInternedTypeIndex, PassiveElemIndex, RuntimeDataIndex, StaticModuleIndex,
};
use wasm_module::{MemoryInitializer, Module, TableInitialization, TableSegmentElements};

/// A translated module, and the data that is needed only while it is compiled.
#[derive(Drop)]
pub struct ModuleTranslation<'d> {
    pub module: Module,
    /// The bytes that were translated.
    pub wasm: &'d [u8],
    /// The offset of these bytes in the complete input.
    pub wasm_module_offset: u64,
    /// The body of each defined function.
    pub function_body_inputs: PrimaryMap<DefinedFuncIndex, FunctionBodyData<'d>>,
    /// The types of the functions to which references are made, each once, in order.
    pub exported_signatures: Vec<ModuleInternedTypeIndex>,
    /// What is known of the module's source.
    pub debuginfo: DebugInfoData<'d>,
    /// Whether the module has sections of debug information, none of which is read.
    pub has_unparsed_debuginfo: bool,
    /// The alignment of memory images in bytes, where the memories begin as images.
    pub data_align: Option<u64>,
    /// The runtime data of each passive data segment.
    pub runtime_data_map: SecondaryMap<DataIndex, Option<RuntimeDataIndex>>,
    /// The number of each passive element segment among the passive ones.
    pub passive_elem_map: SecondaryMap<ElemIndex, Option<PassiveElemIndex>>,
    /// The bytes of each runtime data.
    pub runtime_data: PrimaryMap<RuntimeDataIndex, RuntimeBytes<'d>>,
    /// The start function (core specification, 2.5, start function).
    pub start_func: Option<FuncIndex>,
    /// The globals whose first value is known only when the module is instantiated, and its expression.
    pub global_initializers: Vec<(DefinedGlobalIndex, ConstExpr)>,
    /// The elements of each passive element segment.
    pub passive_elements: PrimaryMap<PassiveElemIndex, TableSegmentElements>,
    /// The initialisation of the tables, before and after they are planned.
    pub table_initialization: TableInitialization,
    /// The active data segments, before and after they are planned.
    pub memory_init: MemoryInit<'d>,
    pub(crate) private_parts: PrivateParts<'d>,
}

/// A function body that is compiled later.
#[derive(Drop)]
pub struct FunctionBodyData<'d> {
    pub body: FunctionBody<'d>,
}

/// Bytes of the input, or bytes that were made.
#[derive(Drop)]
pub enum RuntimeBytes<'d> {
    Borrowed(&'d [u8]),
    Owned(Vec<u8>),
}

/// The active data segments of a translation.
#[derive(Drop)]
pub enum MemoryInit<'d> {
    /// As the module has them, in order.
    Unprocessed(Vec<MemoryInitializer<'d>>),
    /// As they are planned: the segments to be written, in order, and their runtime data.
    Processed(Vec<(MemoryIndex, MemorySegmentOffset, RuntimeDataIndex)>),
}

/// The offset in its memory of a planned segment.
#[derive(Drop)]
pub enum MemorySegmentOffset {
    /// At the value of an expression.
    Expr(ConstExpr),
    /// At this byte offset.
    Static(u64),
}

impl<'d> MemoryInit<'d> {
    /// The segments that are not planned yet, in order.
    pub(crate) fn unprocessed(&self) -> &[MemoryInitializer<'d>]
        requires { IsUnprocessed self.now }
        ensures { map active_segment_of result.now ≡ unprocessed_of self.now }
    {
        match self {
            MemoryInit::Unprocessed(segments) => segments.as_slice(),
            MemoryInit::Processed(_) => unreachable!(),
        }
    }
}

impl<'d> RuntimeBytes<'d> {
    /// The length in bytes.
    pub(crate) fn len(&self) -> usize
        ensures { result ≡ length (bytes_of self.now) }
    {
        match self {
            RuntimeBytes::Borrowed(bytes) => bytes.len(),
            RuntimeBytes::Owned(bytes) => bytes.len(),
        }
    }
}

impl<'d> ModuleTranslation<'d> {
    /// The empty translation.
    ///
    /// # Errors
    /// `OutOfMemory` where the translation finds no memory.
    pub fn new(alloc: Global, module_index: StaticModuleIndex) -> Result<Self, OutOfMemory>
        ensures { IfOk result (IsNewTranslation module_index) }
    {
        Ok(ModuleTranslation {
            module: Module::new(alloc, module_index)?,
            wasm: &[],
            wasm_module_offset: 0,
            function_body_inputs: PrimaryMap::new(alloc),
            exported_signatures: Vec::new(alloc),
            debuginfo: DebugInfoData::new(alloc),
            has_unparsed_debuginfo: false,
            data_align: None,
            runtime_data_map: SecondaryMap::new(alloc, None),
            passive_elem_map: SecondaryMap::new(alloc, None),
            runtime_data: PrimaryMap::new(alloc),
            start_func: None,
            global_initializers: Vec::new(alloc),
            passive_elements: PrimaryMap::new(alloc),
            table_initialization: TableInitialization {
                initial_values: PrimaryMap::new(alloc),
                segments: Vec::new(alloc),
            },
            memory_init: MemoryInit::Unprocessed(Vec::new(alloc)),
            private_parts: PrivateParts::new(alloc),
        })
    }

    /// The index of the module among those that are translated together.
    pub fn module_index(&self) -> StaticModuleIndex
        ensures { result ≡ self.now.module.module_index }
    {
        self.module.module_index
    }

    /// Records a passive data segment, after those that were recorded before.
    ///
    /// # Errors
    /// `OutOfMemory` where the segment finds no memory; nothing is recorded then.
    pub fn push_passive_data(
        &mut self,
        index: DataIndex,
        bytes: &'d [u8],
    ) -> Result<(), OutOfMemory>
        ensures ok { OnOk result (passive_data_of self.new ≡ passive_data_of self.old ++ (number_of index, bytes.now) ∷ []) }
        ensures err { OnErr result (passive_data_of self.new ≡ passive_data_of self.old) }
        ensures same { SameButPassive self.old self.new }
    {
        match self.private_parts.passive_data.push((index, bytes)) {
            Ok(()) => Ok(()),
            Err(_) => Err(OutOfMemory),
        }
    }

    /// The types of the module, by ids, once they are set.
    pub fn get_types(&self) -> &Types
        requires { IsSome (types_of self.now) }
        ensures { types_of self.now ≡ Some result.now }
    {
        self.private_parts.types.as_ref().unwrap()
    }

    /// Sets the types of the module.
    pub fn set_types(&mut self, types: Types)
        ensures set { types_of self.new ≡ Some types }
        ensures same { SameButTypes self.old self.new }
    {
        self.private_parts.types = Some(types);
    }

    /// The branch hints of a function, in order; `None` where it has no entry.
    pub fn branch_hints(&self, func: FuncIndex) -> Option<&[BranchHint]>
        ensures { option_map (λ hints. hints.now) result ≡ hints_of self.now (number_of func) }
    {
        self.private_parts
            .branch_hints
            .get(&func)
            .map(|hints| hints.as_slice())
    }

    /// Replaces all hints by these.
    pub fn set_branch_hints(&mut self, hints: BTreeMap<FuncIndex, Vec<BranchHint>>)
        ensures set { hint_entries_of self.new ≡ map (λ e. (number_of e.0, e.1.items)) hints.entries }
        ensures same { SameButHints self.old self.new }
    {
        self.private_parts.branch_hints = hints;
    }
}
