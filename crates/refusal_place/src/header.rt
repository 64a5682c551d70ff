//! The header of a module (core specification, 5.5, modules).

ghost use Rattle.std.specs.Prelude.{◌≡◌, ◌≢◌, ◌≤◌, ℕ, length, take, slice_get, true, IfSome, nat_eq};
ghost use Rattle.std.specs.List.{starts_with};
ghost use Rattle.wasm_spec.specs.Grammar.{header};
ghost use Rattle.refusal_place.specs.Found.{IsOther};

use form_reader::HEADER;

/// The offset of the first byte that is not as in the header of a module, or at which the input
/// ends; `None` where the input begins with a header.
pub(crate) fn header_fault(bytes: &[u8]) -> Option<usize>
    ensures none { result ≡ None → starts_with nat_eq bytes.now header ≡ true }
    ensures other { IfSome result (IsOther bytes.now) }
{
    for offset in 0..HEADER.len() {
        if bytes.get(offset) != Some(&HEADER[offset]) {
            return Some(offset);
        }
    }
    None
}
