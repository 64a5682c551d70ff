//! Worked examples of instantiation.

ghost use Rattle.std.specs.Prelude.{◌≡◌, [], ◌∷◌, None};
ghost use Rattle.replay_spec.specs.Values.{Ref, Func, Host};
ghost use Rattle.instance_laws.specs.Instances.{TrapsInElements, TrapsInData, Starts};
ghost use Rattle.instance_laws.specs.Worked.{instance_of, no_tables, that_table, that_memory, that_memory_twice, two_names, filling};

/// One memory is imported under two names: segments of both overlap in it, and the later one wins.
pub fn worked_shared_memory()
    ensures first { (instance_of no_tables that_memory_twice two_names).memories.items 7 16 ≡ 1 }
    ensures later { (instance_of no_tables that_memory_twice two_names).memories.items 7 17 ≡ 9 }
    ensures third { (instance_of no_tables that_memory_twice two_names).memories.items 7 18 ≡ 3 }
    ensures end { (instance_of no_tables that_memory_twice two_names).end ≡ Starts None }
{}

/// A table that another instance filled: what no element segment covers stays, and function 5 is in
/// the second cell.
pub fn worked_shared_table()
    ensures stays { (instance_of that_table that_memory (filling 1 (5 ∷ []) 20)).tables.items 3 0 ≡ Ref (Host 42) }
    ensures written { (instance_of that_table that_memory (filling 1 (5 ∷ []) 20)).tables.items 3 1 ≡ Ref (Func 5) }
    ensures data { (instance_of that_table that_memory (filling 1 (5 ∷ []) 20)).memories.items 7 20 ≡ 8 }
    ensures end { (instance_of that_table that_memory (filling 1 (5 ∷ []) 20)).end ≡ Starts None }
{}

/// An element segment that does not fit traps, stores nothing, and no data segment is written. A
/// data segment that does not fit leaves what the element segments and the data segments before it
/// wrote.
pub fn worked_traps()
    ensures elements { (instance_of that_table that_memory (filling 1 (5 ∷ 5 ∷ []) 20)).end ≡ TrapsInElements 1 }
    ensures no_element { (instance_of that_table that_memory (filling 1 (5 ∷ 5 ∷ []) 20)).tables.items 3 1 ≡ Ref (Host 42) }
    ensures no_data { (instance_of that_table that_memory (filling 1 (5 ∷ 5 ∷ []) 20)).memories.items 7 16 ≡ 0 }
    ensures data { (instance_of that_table that_memory (filling 1 (5 ∷ []) 65536)).end ≡ TrapsInData 1 }
    ensures data_before { (instance_of that_table that_memory (filling 1 (5 ∷ []) 65536)).memories.items 7 16 ≡ 7 }
    ensures elements_before { (instance_of that_table that_memory (filling 1 (5 ∷ []) 65536)).tables.items 3 1 ≡ Ref (Func 5) }
{}
