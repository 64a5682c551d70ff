//! Numbers in words.

ghost use Rattle.std.specs.Prelude.{◌≡◌, ◌<◌, ◌^◌, ℕ, decimal, IfSome, Some};
ghost use Rattle.std.specs.Int.{IsPowerOfTwo};

/// The number that the complete text spells in decimal, without a sign and without needless zeros.
pub(crate) fn read_number(text: &str) -> Option<u64>
    ensures spelled { IfSome result (λ n. text.now ≡ decimal n) }
    ensures complete { (n : ℕ) → n < 2 ^ 64 → text.now ≡ decimal n → result ≡ Some n }
{
    if text == "0" {
        return Some(0);
    }
    if text.starts_with('0') {
        return None;
    }
    if text.starts_with('+') {
        return None;
    }
    text.parse::<u64>().ok()
}

/// The power of two that the complete text spells.
pub(crate) fn read_power(text: &str) -> Option<u64>
    ensures spelled { IfSome result (λ n. text.now ≡ decimal n) }
    ensures power { IfSome result IsPowerOfTwo }
    ensures complete { (n : ℕ) → n < 2 ^ 64 → IsPowerOfTwo n → text.now ≡ decimal n → result ≡ Some n }
{
    let number = read_number(text)?;
    if number.is_power_of_two() {
        Some(number)
    } else {
        None
    }
}
