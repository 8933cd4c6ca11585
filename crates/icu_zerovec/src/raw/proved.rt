//! Bodies in which a proof takes the place of the test of an index.
ghost use Rattle.std.specs.Prelude.{◌≡◌, ◌/◌, ◌<◌, ◌≤◌, IsTrue, length, MatchOption};
ghost use Rattle.icu_zerovec.specs.Cells.{cell};

/// Returns cell `i` of cells of `width` bytes.
#[inline(always)]
pub fn cell_at(bytes: &[u8], width: usize, i: usize) -> &[u8]
    requires some { 0 < width }
    requires few { width ≤ 4 }
    requires within { i < length bytes.now / width }
    ensures { result.now ≡ cell width bytes.now i }
{
    let start = i * width;
    &bytes[start..start + width]
}

/// Returns cell `i` of cells of `width` bytes, or `None` if there is none. If `is_inside` is true, there
/// must be one.
#[inline(always)]
pub fn cell_known(bytes: &[u8], width: usize, i: usize, is_inside: bool) -> Option<&[u8]>
    requires some { 0 < width }
    requires few { width ≤ 4 }
    requires inside { IsTrue is_inside → i < length bytes.now / width }
    ensures { MatchOption result (length bytes.now / width ≤ i)
        (λ c. (i < length bytes.now / width) × (c.now ≡ cell width bytes.now i)) }
{
    if is_inside || i < bytes.len() / width {
        Some(cell_at(bytes, width, i))
    } else {
        None
    }
}

/// Returns cell `i` of the first `end` cells of `width` bytes, or `None` if `i` is not less than `end`.
#[inline(always)]
pub fn cell_below(bytes: &[u8], width: usize, end: usize, i: usize) -> Option<&[u8]>
    requires some { 0 < width }
    requires few { width ≤ 4 }
    requires within { end ≤ length bytes.now / width }
    ensures { MatchOption result (end ≤ i) (λ c. (i < end) × (c.now ≡ cell width bytes.now i)) }
{
    if i < end {
        Some(cell_at(bytes, width, i))
    } else {
        None
    }
}

/// Returns what [`cell_below`] returns, for an index that is usually less than `end`.
#[inline(always)]
pub fn likely_cell_below(bytes: &[u8], width: usize, end: usize, i: usize) -> Option<&[u8]>
    requires some { 0 < width }
    requires few { width ≤ 4 }
    requires within { end ≤ length bytes.now / width }
    ensures { MatchOption result (end ≤ i) (λ c. (i < end) × (c.now ≡ cell width bytes.now i)) }
{
    cell_below(bytes, width, end, i)
}
