//! What the rules require of globals. One walk checks all rules, since each walk reads a global
//! again that stays in the input.

ghost use Rattle.std.specs.Prelude.{◌≤◌, length, IfOk};
ghost use Rattle.form_reader.specs.Views.{global_of};
ghost use Rattle.form_rules.specs.Views.{lists_of};
ghost use Rattle.form_rules.specs.Outcomes.{HasGlobals};
ghost use Rattle.form_rules.specs.Walked.{AreGlobalsWalked, IsGlobalAdded};

use crate::references::global_refers;
use crate::{Typing, global_is_typed, walk_of};
use form_reader::GlobalDef;
use rule_spec::Class;
use std::alloc::{AllocError, Global};

/// For each rule about globals, whether all of them keep it.
#[derive(Clone, Copy)]
pub struct GlobalsKeep {
    /// Their expressions have the classes that their places require (L6).
    pub typed: bool,
    /// Their concrete references name declared types (L10).
    pub refer: bool,
}

/// Walks through the globals that the module defines.
pub fn walk_globals(alloc: Global, typing: &Typing<'_, '_, '_>) -> Result<GlobalsKeep, AllocError>
    requires counted { HasGlobals (lists_of typing.now.lists.now) }
    ensures { IfOk result (λ kept. AreGlobalsWalked (lists_of typing.now.lists.now) kept) }
{
    let mut stack = Vec::new(alloc);
    let mut kept = GlobalsKeep {
        typed: true,
        refer: true,
    };
    let mut index = typing.lists.imported_globals;
    let mut globals = walk_of::<GlobalDef>(alloc, typing.lists.source);
    while globals.advance()? {
        kept = with_global(typing, index, kept, globals.entry(), &mut stack)?;
        index += 1;
    }
    Ok(kept)
}

/// The same with one global more, which has this index.
fn with_global(
    typing: &Typing<'_, '_, '_>,
    index: usize,
    before: GlobalsKeep,
    global: &GlobalDef,
    stack: &mut Vec<Class>,
) -> Result<GlobalsKeep, AllocError>
    requires counted { index ≤ length typing.now.lists.now.spaces.global_types.items }
    ensures { IfOk result (λ kept. IsGlobalAdded (lists_of typing.now.lists.now) index before (global_of global.now) kept) }
{
    let lists = typing.lists;
    let typed = global_is_typed(typing, index, global, stack)?;
    Ok(GlobalsKeep {
        typed: before.typed && typed,
        refer: before.refer && global_refers(lists.types.count() as usize, global),
    })
}
