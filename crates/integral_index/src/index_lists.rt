//! The numbers that are read from a list of indices: an index is minus the power of a denominator.

ghost use Rattle.std.specs.Prelude.{◌≡◌, ◌≤◌, ◌↔◌, All, IsTrue, length};
ghost use Rattle.integral_index.specs.Integral.{IsIndex, IsIndexList, positive_part, negative_part, sector_of, t_of, r_of, s_of, dots_of};

/// Whether an integral may have these indices: 1 to 20 of them, each from -101 to 101.
pub fn is_index_list(indices: &[i8]) -> bool
    ensures { IsTrue result ↔ IsIndexList indices.now }
{
    !indices.is_empty() && indices.len() <= 20 && are_in_range(indices)
}

/// The sector number: the sum of `2^(j-1)` over the places j, from 1, of the positive indices.
/// Source: arXiv:1705.05610.
pub fn sector(indices: &[i8]) -> u32
    requires { length indices.now ≤ 20 }
    ensures { result ≡ sector_of indices.now }
{
    let mut sector = 0;
    let mut bit = 1;
    for index in indices {
        if *index > 0 {
            sector += bit;
        }
        bit *= 2;
    }
    sector
}

/// How many indices are positive. Source: arXiv:1705.05610.
pub fn t(indices: &[i8]) -> u32
    requires { length indices.now ≤ 20 }
    ensures { result ≡ t_of indices.now }
{
    let mut count = 0;
    for index in indices {
        if *index > 0 {
            count += 1;
        }
    }
    count
}

/// The sum of the positive indices. Source: arXiv:1705.05610.
pub fn r(indices: &[i8]) -> u32
    requires { length indices.now ≤ 20 }
    ensures { result ≡ r_of indices.now }
{
    let mut sum = 0;
    for index in indices {
        sum += positive_part(*index);
    }
    sum
}

/// Minus the sum of the negative indices. Source: arXiv:1705.05610.
pub fn s(indices: &[i8]) -> u32
    requires { length indices.now ≤ 20 }
    ensures { result ≡ s_of indices.now }
{
    let mut sum = 0;
    for index in indices {
        sum += negative_part(*index);
    }
    sum
}

/// How far r is above t: one dot for each power of a denominator beyond the first.
pub fn dots(indices: &[i8]) -> u32
    requires { length indices.now ≤ 20 }
    ensures { result ≡ dots_of indices.now }
{
    r(indices) - t(indices)
}

// whether each index is from -101 to 101
fn are_in_range(indices: &[i8]) -> bool
    ensures { IsTrue result ↔ All IsIndex indices.now }
{
    indices.iter().all(|index| is_in_range(*index))
}

fn is_in_range(index: i8) -> bool
    ensures { IsTrue result ↔ IsIndex index }
{
    index.unsigned_abs() <= 101
}

// the index where it is positive, and else 0
fn positive_part(index: i8) -> u32
    ensures value { result ≡ positive_part index }
    ensures bound { result ≤ 128 }
{
    if index > 0 {
        u32::from(index.unsigned_abs())
    } else {
        0
    }
}

// minus the index where it is negative, and else 0
fn negative_part(index: i8) -> u32
    ensures value { result ≡ negative_part index }
    ensures bound { result ≤ 128 }
{
    if index < 0 {
        u32::from(index.unsigned_abs())
    } else {
        0
    }
}
