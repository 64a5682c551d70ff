//! What the layout of a context depends on.

/// The size of pointers, and the counts of a module.
#[derive(Clone, Copy, Debug, Drop)]
pub struct VMOffsetsFields<P> {
    /// The size of pointers.
    pub ptr: P,
    /// The imported functions.
    pub num_imported_functions: u32,
    /// The imported tables.
    pub num_imported_tables: u32,
    /// The imported memories.
    pub num_imported_memories: u32,
    /// The imported globals.
    pub num_imported_globals: u32,
    /// The imported tags.
    pub num_imported_tags: u32,
    /// The tables that the module defines.
    pub num_defined_tables: u32,
    /// The memories that the module defines.
    pub num_defined_memories: u32,
    /// The memories that the module defines and that are not shared.
    pub num_owned_memories: u32,
    /// The globals that the module defines.
    pub num_defined_globals: u32,
    /// The tags that the module defines.
    pub num_defined_tags: u32,
    /// The functions that escape, each of which has a reference.
    pub num_escaped_funcs: u32,
    /// The pieces of data that are kept for run time.
    pub num_runtime_data: u32,
    /// Whether there is a startup function.
    pub has_startup_func: bool,
}
