//! The parts of which name sections are made (core specification, appendix, name section). A part
//! that is missing is `None`; none needs memory.

ghost use Rattle.std.specs.Prelude.{◌≡◌};
ghost use Rattle.std.specs.Option.{option_map};
ghost use Rattle.std.specs.Result.{result_ok};
ghost use Rattle.form_reader.specs.Reading.{whole};
ghost use Rattle.form_reader.specs.ReadingNumbers.{name_at};
ghost use Rattle.custom_sections.specs.Views.{text_of};
ghost use Rattle.custom_sections.specs.NameReading.{naming_at, sized_subsection_at, is_filled as filled};

use form_reader::{counted_bytes, first_byte, name, u32_at};

/// An index and its name, and the bytes after them; `None` where one of them is missing.
#[inline(always)]
#[tactic(auto, unfolding(crate::specs::NameReading::naming_at))]
pub fn naming(bytes: &[u8]) -> Option<((u32, &str), &[u8])>
    ensures { option_map (λ x. (text_of x.0, x.1.now)) result ≡ result_ok (naming_at bytes.now) }
{
    let (index, rest) = u32_at(bytes)?;
    let (name, rest) = name(rest)?;
    Some(((index, name), rest))
}

/// The id and the contents of a subsection, and the bytes after it; `None` where fewer bytes are
/// there than its size says.
#[tactic(auto, unfolding(crate::specs::NameReading::sized_subsection_at))]
pub fn sized_subsection(bytes: &[u8]) -> Option<((u8, &[u8]), &[u8])>
    ensures { option_map (λ x. ((x.0.0, x.0.1.now), x.1.now)) result ≡ result_ok (sized_subsection_at bytes.now) }
{
    let (id, rest) = first_byte(bytes)?;
    let (contents, rest) = counted_bytes(rest)?;
    Some(((id, contents), rest))
}

/// The name that fills some bytes; `None` where none does.
#[tactic(auto, unfolding(form_reader::specs::Reading::whole))]
pub fn whole_name(bytes: &[u8]) -> Option<&str>
    ensures { option_map (λ text. text.now) result ≡ result_ok (whole name_at bytes.now) }
{
    match name(bytes) {
        Some((name, [])) => Some(name),
        _ => None,
    }
}

/// Whether there was no fault, and no byte remains.
pub fn is_filled(rest: Option<&[u8]>) -> bool
    ensures { result ≡ filled (option_map (λ bytes. bytes.now) rest.entry) }
{
    match rest {
        Some(rest) => rest.is_empty(),
        None => false,
    }
}
