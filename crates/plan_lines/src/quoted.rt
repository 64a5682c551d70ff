//! Names between quotes.

ghost use Rattle.std.specs.Prelude.{◌≡◌, ◌↔◌, ◌++◌, All, IsTrue, OnOk, codes};
ghost use Rattle.plan_lines.specs.Quoted.{is_plain, quoted_byte, quoted_bytes, quoted_text};

use crate::room::{make_room, put, put_byte};
use crate::text::Text;
use entity_map::OutOfMemory;

// For each byte a digit, which is 1 where the byte is printed as it is.
static PLAIN: [u8; 256] = *b"\
    00000000000000000000000000000000\
    11011111111111111111111111111111\
    11111111111111111111111111110111\
    11111111111111111111111111111110\
    00000000000000000000000000000000\
    00000000000000000000000000000000\
    00000000000000000000000000000000\
    00000000000000000000000000000000";

// Whether a byte is printed as it is.
fn is_plain(byte: u8) -> bool
    ensures { result ≡ is_plain byte }
{
    PLAIN[byte as usize] == b'1'
}

fn are_plain(bytes: &[u8]) -> bool
    ensures { IsTrue result ↔ All (λ byte. IsTrue (is_plain byte)) bytes.now }
{
    bytes.iter().all(|byte| is_plain(*byte))
}

fn append_byte(text: &mut Text, byte: u8) -> Result<(), OutOfMemory>
    ensures { OnOk result (text.new ≡ text.old ++ quoted_byte byte) }
{
    if is_plain(byte) {
        return text.push_byte(byte);
    }
    text.push_byte(b'\\')?;
    text.push_hexadecimal(u128::from(byte), 2)
}

// Appends words between quotes, each byte as it is.
fn append_plain(text: &mut Text, words: &str) -> Result<(), OutOfMemory>
    ensures { OnOk result (text.new ≡ text.old ++ codes "\"" ++ words.now ++ codes "\"") }
{
    make_room(&mut text.room, text.used, words.len() + 2)?;
    let first = put_byte(&mut text.room, text.used, b'"');
    let end = put(&mut text.room, first, words.as_bytes());
    text.used = put_byte(&mut text.room, end, b'"');
    Ok(())
}

fn append_bytes(text: &mut Text, bytes: &[u8]) -> Result<(), OutOfMemory>
    ensures { OnOk result (text.new ≡ text.old ++ quoted_bytes bytes.now) }
{
    for byte in bytes {
        append_byte(text, *byte)?;
    }
    Ok(())
}

/// Appends a name between quotes. A byte that is not printed as it is becomes a backslash and its
/// two digits.
///
/// # Errors
/// `OutOfMemory`; the text may then end anywhere.
pub fn append_quoted(text: &mut Text, words: &str) -> Result<(), OutOfMemory>
    ensures { OnOk result (text.new ≡ text.old ++ quoted_text words.now) }
{
    if are_plain(words.as_bytes()) {
        return append_plain(text, words);
    }
    text.push_byte(b'"')?;
    append_bytes(text, words.as_bytes())?;
    text.push_byte(b'"')
}
