//! Names of a module, its functions and their locals, up to the first fault of their section.

ghost use Rattle.std.specs.Prelude.{◌≡◌, ◌++◌, map, IfOk};
ghost use Rattle.std.specs.Option.{option_map};
ghost use Rattle.custom_sections.specs.Views.{text_of, locals_of, names_of};
ghost use Rattle.custom_sections.specs.NameLists.{joined};
ghost use Rattle.custom_sections.specs.NameReading.{names_before, locals_before, vector_before, subsection as subsection_names, names_of_section};

use crate::name_parts::{is_filled, naming, sized_subsection, whole_name};
use entity_map::OutOfMemory;
use form_reader::u32_at;
use std::alloc::Global;

/// A subsection with the name of the module.
const MODULE: u8 = 0;

/// A subsection with names of functions.
const FUNCTIONS: u8 = 1;

/// A subsection with names of locals.
const LOCALS: u8 = 2;

/// What a name section gives, as far as it could be read. Names are in the order of the section; of
/// several for one index, the last one counts.
#[derive(Drop)]
pub struct SectionNames<'d> {
    pub module_name: Option<&'d str>,
    pub functions: Vec<(u32, &'d str)>,
    /// Functions, and the names of their locals by the locals' indices.
    pub locals: Vec<(u32, Vec<(u32, &'d str)>)>,
}

/// Adds a count and that many names, up to a fault; the bytes after them, where there is none.
///
/// The list grows as names are read, since the count may be any number.
fn add_names<'d>(
    names: &mut Vec<(u32, &'d str)>,
    bytes: &'d [u8],
) -> Result<Option<&'d [u8]>, OutOfMemory>
    ensures added { IfOk result (λ _. map text_of names.new.items ≡ map text_of names.old.items ++ (names_before bytes.now).0) }
    ensures left { IfOk result (λ rest. option_map (λ bytes. bytes.now) rest ≡ (names_before bytes.now).1) }
{
    let Some((count, mut rest)) = u32_at(bytes) else {
        return Ok(None);
    };
    'names: for _ in 0..count {
        let Some((name, after)) = naming(rest) else {
            return Ok(None);
        };
        names.push(name)?;
        rest = after;
    }
    Ok(Some(rest))
}

/// Adds a count and that many functions with the names of their locals, up to a fault; the bytes
/// after them, where there is none.
fn add_locals<'d>(
    alloc: Global,
    locals: &mut Vec<(u32, Vec<(u32, &'d str)>)>,
    bytes: &'d [u8],
) -> Result<Option<&'d [u8]>, OutOfMemory>
    ensures added { IfOk result (λ _. map locals_of locals.new.items
        ≡ map locals_of locals.old.items ++ (vector_before locals_before bytes.now).0) }
    ensures left { IfOk result (λ rest. option_map (λ bytes. bytes.now) rest ≡ (vector_before locals_before bytes.now).1) }
{
    let Some((count, mut rest)) = u32_at(bytes) else {
        return Ok(None);
    };
    'functions: for _ in 0..count {
        let Some((function, of_function)) = u32_at(rest) else {
            return Ok(None);
        };
        let mut names = Vec::new(alloc);
        let after = add_names(&mut names, of_function)?;
        locals.push((function, names))?;
        let Some(after) = after else {
            return Ok(None);
        };
        rest = after;
    }
    Ok(Some(rest))
}

impl<'d> SectionNames<'d> {
    /// Adds the names of a subsection, those of locals where the caller requires them; returns
    /// whether they fill it.
    fn add(
        &mut self,
        alloc: Global,
        id: u8,
        contents: &'d [u8],
        locals: bool,
    ) -> Result<bool, OutOfMemory>
        ensures added { IfOk result (λ _. names_of self.new ≡ joined (names_of self.old) (subsection_names locals id contents.now).0) }
        ensures filled { IfOk result (λ filled. filled ≡ (subsection_names locals id contents.now).1) }
    {
        match id {
            MODULE => {
                let Some(name) = whole_name(contents) else {
                    return Ok(false);
                };
                self.module_name = Some(name);
                Ok(true)
            }
            FUNCTIONS => Ok(is_filled(add_names(&mut self.functions, contents)?)),
            LOCALS if locals => Ok(is_filled(add_locals(alloc, &mut self.locals, contents)?)),
            _ => Ok(true),
        }
    }
}

/// Reads the contents of a name section, with the names of locals where the caller requires them. A
/// fault ends the names, and the names before it are kept.
///
/// # Errors
/// `OutOfMemory` where the names find no memory.
pub fn read_names<'d>(
    alloc: Global,
    contents: &'d [u8],
    locals: bool,
) -> Result<SectionNames<'d>, OutOfMemory>
    ensures { IfOk result (λ names. names_of names ≡ names_of_section locals contents.now) }
{
    let mut names = SectionNames {
        module_name: None,
        functions: Vec::new(alloc),
        locals: Vec::new(alloc),
    };
    let mut rest = contents;
    'subsections: for _ in 0..contents.len() {
        let Some(((id, body), after)) = sized_subsection(rest) else {
            return Ok(names);
        };
        let filled = names.add(alloc, id, body, locals)?;
        if !filled {
            return Ok(names);
        }
        rest = after;
    }
    Ok(names)
}
