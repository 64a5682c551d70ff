//! Where a rule is broken: an entry of a list.

ghost use Rattle.std.specs.Prelude.{◌≡◌};

/// A list of a module that a rule speaks of. Each is a field of `Lists` of `rule_spec`.
#[derive(Clone, Copy, Debug, PartialEq, Eq)]
pub enum ModuleList {
    /// The declared types.
    Types,
    /// The index space of functions, imports first.
    Functions,
    /// The index space of tables, imports first.
    TableTypes,
    /// The index space of memories, imports first.
    Memories,
    /// The index space of tags, imports first.
    Tags,
    /// The imports, of whatever kind.
    Imports,
    /// The tables that the module defines.
    Tables,
    /// The globals that the module defines.
    Globals,
    /// The exports.
    Exports,
    /// The start functions; at most one is listed where a module was read.
    Starts,
    /// The element segments.
    Elements,
    /// The stated numbers of data segments; at most one where a module was read.
    DataCounts,
    /// The bodies of functions.
    Bodies,
    /// The data segments.
    Segments,
}

/// The entry of a list that breaks a rule.
#[derive(Clone, Copy, Debug, PartialEq, Eq)]
pub struct Break {
    pub list: ModuleList,
    /// Its index in the list, from 0.
    pub entry: u32,
}

/// The entry of the list, as a break.
pub(crate) fn at(list: ModuleList, entry: u32) -> Option<Break>
    ensures { result ≡ Some (record { list = list; entry = entry }) }
{
    Some(Break { list, entry })
}
