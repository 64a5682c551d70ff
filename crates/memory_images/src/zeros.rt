//! Zeros at the ends of bytes, which are skipped eight at a time.

ghost use Rattle.std.specs.Prelude.{◌≡◌, All, IsTrue, length};
ghost use Rattle.memory_images.specs.Zeros.{AndZeros, ZerosAnd};

/// Whether each of eight bytes is zero.
fn is_zero(word: &[u8; 8]) -> bool
    ensures { IsTrue result → All (λ b. b ≡ 0) word.now }
{
    u64::from_le_bytes(*word) == 0
}

/// The bytes without the zero words at their beginning.
pub fn without_first_zeros(bytes: &[u8]) -> &[u8]
    ensures { ZerosAnd bytes.now result.now }
{
    let mut rest = bytes;
    'words: while let Some((word, others)) = rest.split_first_chunk::<8>() {
        if !is_zero(word) {
            return rest;
        }
        rest = others;
    }
    rest
}

/// The bytes without the zero words at their end.
pub fn without_last_zeros(bytes: &[u8]) -> &[u8]
    ensures { AndZeros bytes.now result.now }
{
    let mut front = bytes;
    'words: while let Some((others, word)) = front.split_last_chunk::<8>() {
        if !is_zero(word) {
            return front;
        }
        front = others;
    }
    front
}
