//! The words of a command.

ghost use Rattle.std.specs.Prelude.{◌≡◌, drop};

/// The words after the first, which is the program's name.
pub fn without_name(mut words: Vec<String>) -> Vec<String>
    ensures { result.items ≡ drop 1 words.items }
{
    if !words.is_empty() {
        words.remove(0);
    }
    words
}
