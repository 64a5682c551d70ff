//! Where the types of a module are spelled.

ghost use Rattle.std.specs.Prelude.{◌≡◌, length, drop};
ghost use Rattle.std.specs.Option.{option_map};
ghost use Rattle.form_reader.specs.TypeBytes.{section_bytes_at, contents_of, type_bytes};

use crate::bytes::{counted_bytes, first_byte};

/// The id of the type section.
const TYPES: u8 = 1;

/// The bytes of a module's header.
const HEADER_SIZE: usize = 8;

/// The bytes of a module's type section after its id and its size (core specification, 5.5, type
/// section), which spell its types; none where the bytes have no such section. Digests of a
/// module's types are computed over them.
#[tactic(auto, unfolding(crate::specs::TypeBytes::contents_of))]
pub fn type_section_bytes<'d>(wasm: &'d [u8]) -> &'d [u8]
    ensures { result.now ≡ type_bytes wasm.now }
{
    match wasm.get(HEADER_SIZE..) {
        Some(sections) => contents_of(TYPES, sections),
        None => &[],
    }
}

/// The contents of the first section that has an id, among sections that follow one another.
#[tactic(auto, unfolding(crate::specs::TypeBytes::contents_of))]
fn contents_of<'d>(id: u8, sections: &'d [u8]) -> &'d [u8]
    ensures { result.now ≡ contents_of id (length sections.now) sections.now }
{
    let mut rest = sections;
    // Each section takes a byte at least.
    let most = sections.len();
    'sections: for _ in 0..most {
        let Some((found, contents, others)) = section_at(rest) else {
            return &[];
        };
        if found == id {
            return contents;
        }
        rest = others;
    }
    &[]
}

/// The id and the contents of the section at the front, and the bytes after it.
fn section_at<'d>(bytes: &'d [u8]) -> Option<(u8, &'d [u8], &'d [u8])>
    ensures { option_map (λ x. (x.0, x.1.now, x.2.now)) result ≡ section_bytes_at bytes.now }
{
    let (id, rest) = first_byte(bytes)?;
    let (contents, others) = counted_bytes(rest)?;
    Some((id, contents, others))
}
