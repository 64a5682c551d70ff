//! What C gives and reads of a program of modules that are linked in order.

use plan_tables::Span;

/// A module of a program, and its name: `bobbinazure_named_module`.
#[repr(C)]
#[derive(Clone, Copy)]
pub struct NamedModule<'d> {
    /// The name under which later modules import its exports, in UTF-8.
    pub name: &'d [u8],
    /// The bytes of the module.
    pub bytes: &'d [u8],
}

/// What an import of a program is given: `bobbinazure_program_answer`.
#[repr(C)]
#[derive(Clone, Copy)]
pub struct ProgramAnswerRecord {
    /// What it is, from `BOBBINAZURE_GIVEN` on: 0 given, 1 missing, 2 a mismatch.
    pub answer: u32,
    /// Of a mismatch the rule that it breaks, from `BOBBINAZURE_MISMATCH_KIND` on; else 0.
    pub rule: u32,
    /// Where it is given, the number of the module that exports it, from 0 on; else 0.
    pub module: usize,
    /// Where it is given, the number of the export in that module, from 0 on; else 0.
    pub export_number: usize,
    /// The text of a mismatch, without a line feed; else empty. It is never freed.
    pub line: &'static [u8],
}

/// A module of a program that is linked: `bobbinazure_linked_module`.
#[repr(C)]
#[derive(Clone, Copy)]
pub struct LinkedModuleRecord {
    /// The indices of its interned types, in order, a part of the program's list `types`.
    pub types: Span,
    /// The answer to each of its imports, in order, a part of the program's list `answers`.
    pub answers: Span,
    /// How many exports the modules before it have.
    pub first_export: usize,
}

/// A program of modules that are linked, or why it is refused: `bobbinazure_program`.
#[repr(C)]
#[derive(Clone, Copy)]
pub struct ProgramRecord<'d> {
    /// Why the program is refused, from `BOBBINAZURE_CAUSE_MODULE` on; 0 where it is linked.
    pub cause: u32,
    /// Where the cause is a module, why it is refused: this field and the next two are those of a
    /// plan.
    pub refusal: u32,
    pub refusal_detail: u32,
    /// Where the cause is a module, the line of its refusal, with its line feed; else empty. It is
    /// never freed.
    pub refusal_line: &'static [u8],
    /// The number of the module at which the program is refused, from 0 on; 0 where it is linked.
    pub refused: usize,
    /// The modules, in order.
    pub modules: &'d [LinkedModuleRecord],
    /// The index of each interned type in the registry of the call, module by module; another call
    /// counts anew. Two types have one index exactly
    /// where they are equal.
    pub types: &'d [u32],
    /// The answer to each import, module by module.
    pub answers: &'d [ProgramAnswerRecord],
}
