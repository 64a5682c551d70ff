//! Custom sections (core specification, 5.5, custom section).

ghost use Rattle.std.specs.Prelude.{◌≡◌, ℕ, [], ◌∷◌, nat_eq, true};
ghost use Rattle.std.specs.List.{starts_with};
ghost use Rattle.std.specs.Iterator.{YieldsFirstBy, item_count};
ghost use Rattle.std.specs.Option.{option_map};
ghost use Rattle.std.specs.Result.{result_ok};
ghost use Rattle.form_reader.specs.Input.{custom_of, customs_in};
ghost use Rattle.form_reader.specs.Reading.{Reads, fill_after};
ghost use Rattle.form_reader.specs.ReadingNumbers.{name_at, sized_at};
ghost use Rattle.form_reader.specs.ReadingSections.{ReadsSections};
ghost use Rattle.form_reader.specs.SectionRows.{is_interface_name as spec_is_interface_name, custom_after_at, custom_section};

use crate::Custom;
use crate::bytes::{counted_bytes, first_byte, name};
use crate::cursor::Cursor;
use crate::error::ReadError;
use wasm_spec::What;

/// The id of custom sections.
pub const CUSTOM: u8 = 0;

/// Custom sections that follow one another and stay in the input. They were read once, and are read
/// again where they are iterated.
#[derive(Clone, Copy)]
pub struct InputCustoms<'d> {
    count: usize,
    bytes: &'d [u8],
}

/// Whether a name is one of custom sections of interface types, which are not supported.
fn is_interface_name(name: &str) -> bool
    ensures { result ≡ spec_is_interface_name name.now }
{
    name == "webidl-bindings" || name == "wasm-interface-types"
}

impl<'d> Cursor<'d> {
    /// Whether the next section is a custom one.
    pub fn is_at_custom(&self) -> bool
        ensures { result ≡ starts_with nat_eq self.now.rest.now (0 ∷ []) }
    {
        self.rest.starts_with(&[CUSTOM])
    }

    /// What follows the id of a custom section: a name, and whatever follows inside the size.
    #[tactic(auto, unfolding(crate::specs::ReadingNumbers::sized_at))]
    fn custom_contents(&mut self) -> Result<Custom<'d>, ReadError>
        ensures { Reads (sized_at (fill_after name_at custom_after_at)) custom_of self.old.rest.now self.new.rest.now result }
    {
        let mut body = self.sized()?;
        let name = body.name()?;
        if is_interface_name(name) {
            return Err(ReadError::Unsupported(What::InterfaceTypes));
        }
        let bytes = body.rest;
        Ok(Custom { name, bytes })
    }

    /// A custom section.
    #[tactic(auto, unfolding(crate::specs::SectionRows::custom_section))]
    pub fn custom(&mut self) -> Result<Custom<'d>, ReadError>
        ensures { Reads custom_section.read custom_of self.old.rest.now self.new.rest.now result }
    {
        match self.byte()? {
            CUSTOM => self.custom_contents(),
            _ => Err(ReadError::Malformed),
        }
    }

    /// The custom sections before the next section of another kind.
    pub fn customs(&mut self) -> Result<InputCustoms<'d>, ReadError>
        requires { starts_with nat_eq self.now.rest.now (0 ∷ []) ≡ true }
        ensures { (place next : ℕ) → ReadsSections customs_in place next next self.old.rest.now self.new.rest.now result }
    {
        let bytes = self.rest;
        let mut count = 0;
        'customs: while self.is_at_custom() {
            self.custom()?;
            count += 1;
        }
        Ok(InputCustoms { count, bytes })
    }
}

/// What follows the size of a custom section, if it is read.
fn contents_in(body: &[u8]) -> Option<Custom<'_>>
    ensures { option_map custom_of result ≡ result_ok (fill_after name_at custom_after_at body.now) }
{
    let (name, bytes) = name(body)?;
    if is_interface_name(name) {
        return None;
    }
    Some(Custom { name, bytes })
}

/// The custom section at the front, if one is read, and the bytes after it. It needs no memory, so
/// the bytes alone decide.
#[tactic(auto, unfolding(crate::specs::SectionRows::custom_section, crate::specs::ReadingNumbers::sized_at))]
fn custom_at(bytes: &[u8]) -> Option<(Custom<'_>, &[u8])>
    ensures { option_map (λ x. (custom_of x.0, x.1.now)) result ≡ result_ok (custom_section.read bytes.now) }
{
    let (id, sized) = first_byte(bytes)?;
    if id != CUSTOM {
        return None;
    }
    let (body, rest) = counted_bytes(sized)?;
    let custom = contents_in(body)?;
    Some((custom, rest))
}

impl InputCustoms<'_> {
    /// No section.
    pub fn none() -> Self
        ensures { customs_in result ≡ [] }
    {
        InputCustoms {
            count: 0,
            bytes: &[],
        }
    }
}

impl<'d> Iterator for InputCustoms<'d> {
    type Item = Custom<'d>;

    ghost next_gives = { YieldsFirstBy custom_of customs_in };

    ghost remaining = { item_count customs_in };

    fn next(&mut self) -> Option<Custom<'d>> {
        if self.count == 0 {
            return None;
        }
        match custom_at(self.bytes) {
            Some((custom, rest)) => {
                self.count -= 1;
                self.bytes = rest;
                Some(custom)
            }
            // It was read before, so this does not occur.
            None => {
                self.count = 0;
                None
            }
        }
    }
}
