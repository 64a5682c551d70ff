//! How many numbers are free: individually, in pairs, in fours, and so on up to all.

ghost use Rattle.std.specs.Prelude.{◌≡◌, ◌≤◌, ◌<◌, ◌+◌, ◌-◌, ◌∷◌, [], length, get_or, IfOk, MatchOption};
ghost use Rattle.free_numbers.specs.Counts.{total, before, change_at, pair_sums};
ghost use Rattle.free_numbers.specs.Levels.{counts_of, lists_of, changed, IsTree, CanChange, CanChangeFirst};

use std::alloc::{AllocError, Global};

/// The sum of the first two counts, or the only one, and the other counts.
pub(crate) fn next_sum(counts: &[u32]) -> Option<(u32, &[u32])>
    requires { total counts.now < 4294967296 }
    ensures { MatchOption result (counts.now ≡ []) (λ r.
        (pair_sums counts.now ≡ r.0 ∷ pair_sums r.1.now) × (total r.1.now ≤ total counts.now) × (length r.1.now < length counts.now)) }
{
    let (first, others) = counts.split_first()?;
    match others.split_first() {
        Some((second, others)) => Some((*first + *second, others)),
        None => Some((*first, others)),
    }
}

/// The sums of adjacent counts.
pub(crate) fn sums(alloc: Global, counts: &[u32]) -> Result<Vec<u32>, AllocError>
    requires { total counts.now < 4294967296 }
    ensures { IfOk result (λ v. v.items ≡ pair_sums counts.now) }
{
    let mut sums = Vec::with_capacity(alloc, counts.len() / 2 + 1)?;
    let mut rest = counts;
    while let Some((sum, others)) = next_sum(rest) {
        sums.push(sum)?;
        rest = others;
    }
    Ok(sums)
}

/// The number with `rank` counts before it, and the rank that remains at its own position.
pub(crate) fn find(levels: &[Vec<u32>], rank: u32) -> (usize, u32)
    requires tree { IsTree (lists_of levels.now) }
    requires within { rank < total (counts_of (lists_of levels.now)) }
    requires few { length (counts_of (lists_of levels.now)) < 4294967296 }
    ensures before { before result.0 (counts_of (lists_of levels.now)) + result.1 ≡ rank }
    ensures free { result.1 < get_or (counts_of (lists_of levels.now)) result.0 0 }
{
    let Some((counts, above)) = levels.split_first() else {
        return (0, rank);
    };
    if above.is_empty() {
        return (0, rank);
    }
    let (place, rank) = find(above, rank);
    let left = counts[2 * place];
    if rank < left {
        (2 * place, rank)
    } else {
        (2 * place + 1, rank - left)
    }
}

/// Changes one count.
fn change_count(counts: &mut Vec<u32>, number: usize, less: u32, more: u32)
    requires { CanChange less more number counts.old.items }
    ensures { counts.new.items ≡ change_at less more number counts.old.items }
{
    counts[number] = counts[number] - less + more;
}

/// Changes the count of a number, and each sum that it is part of.
pub(crate) fn change(levels: &mut Vec<Vec<u32>>, number: usize, less: u32, more: u32)
    requires tree { IsTree (lists_of levels.old.items) }
    requires can { CanChangeFirst less more number (lists_of levels.old.items) }
    ensures { lists_of levels.new.items ≡ changed less more number (lists_of levels.old.items) }
{
    let mut place = number;
    for level in 0..levels.len() {
        change_count(&mut levels[level], place, less, more);
        place /= 2;
    }
}

/// Counts, their sums, and the sums of those, up to one total.
pub(crate) fn levels_of(alloc: Global, counts: Vec<u32>) -> Result<Vec<Vec<u32>>, AllocError>
    requires { total counts.items < 4294967296 }
    ensures counts { IfOk result (λ v. counts_of (lists_of v.items) ≡ counts.items) }
    ensures tree { IfOk result (λ v. IsTree (lists_of v.items)) }
{
    let mut levels = Vec::new(alloc);
    let mut level = counts;
    while level.len() > 1 {
        let above = sums(alloc, &level)?;
        levels.push(level)?;
        level = above;
    }
    levels.push(level)?;
    Ok(levels)
}
