//! Bodies with one test of an index, in forms that rustc optimizes well.
ghost use Rattle.std.specs.Prelude.{◌≡◌, ◌/◌, ◌<◌, ◌≤◌, IsTrue, length, MatchOption};
ghost use Rattle.icu_zerovec.specs.Cells.{cell};

/// Returns cell `i` of cells of `WIDTH` bytes.
#[inline(always)]
fn cell_at_of<const WIDTH: usize>(bytes: &[u8], i: usize) -> &[u8]
    requires some { 0 < WIDTH }
    requires few { WIDTH ≤ 4 }
    requires within { i < length bytes.now / WIDTH }
    ensures { result.now ≡ cell WIDTH bytes.now i }
{
    let cells = bytes.as_chunks::<WIDTH>().0;
    if i < cells.len() {
        cells[i].as_slice()
    } else {
        unreachable!()
    }
}

/// Returns cell `i` of cells of `width` bytes.
#[inline(always)]
pub fn cell_at(bytes: &[u8], width: usize, i: usize) -> &[u8]
    requires some { 0 < width }
    requires few { width ≤ 4 }
    requires within { i < length bytes.now / width }
    ensures { result.now ≡ cell width bytes.now i }
{
    match width {
        1 => cell_at_of::<1>(bytes, i),
        2 => cell_at_of::<2>(bytes, i),
        3 => cell_at_of::<3>(bytes, i),
        _ => cell_at_of::<4>(bytes, i),
    }
}

/// Returns cell `i` of cells of `WIDTH` bytes, or `None` if there is none.
#[inline(always)]
fn cell_of<const WIDTH: usize>(bytes: &[u8], i: usize) -> Option<&[u8]>
    requires some { 0 < WIDTH }
    requires few { WIDTH ≤ 4 }
    ensures { MatchOption result (length bytes.now / WIDTH ≤ i)
        (λ c. (i < length bytes.now / WIDTH) × (c.now ≡ cell WIDTH bytes.now i)) }
{
    match bytes.as_chunks::<WIDTH>().0.get(i) {
        Some(cell) => Some(cell.as_slice()),
        None => None,
    }
}

/// Tells the compiler that the path on which it is called is rare.
#[cold]
#[inline(always)]
fn rare() {}

/// Returns what [`cell_of`] returns, for an index that usually has a cell: that path comes first in
/// machine code.
#[inline(always)]
fn likely_cell_of<const WIDTH: usize>(bytes: &[u8], i: usize) -> Option<&[u8]>
    requires some { 0 < WIDTH }
    requires few { WIDTH ≤ 4 }
    ensures { MatchOption result (length bytes.now / WIDTH ≤ i)
        (λ c. (i < length bytes.now / WIDTH) × (c.now ≡ cell WIDTH bytes.now i)) }
{
    let cells = bytes.as_chunks::<WIDTH>().0;
    if i < cells.len() {
        Some(cells[i].as_slice())
    } else {
        rare();
        None
    }
}

/// Returns cell `i` of cells of `width` bytes, or `None` if there is none. If `is_inside` is true, there
/// must be one; the test is the same.
#[inline(always)]
pub fn cell_known(bytes: &[u8], width: usize, i: usize, is_inside: bool) -> Option<&[u8]>
    requires some { 0 < width }
    requires few { width ≤ 4 }
    requires inside { IsTrue is_inside → i < length bytes.now / width }
    ensures { MatchOption result (length bytes.now / width ≤ i)
        (λ c. (i < length bytes.now / width) × (c.now ≡ cell width bytes.now i)) }
{
    let _ = is_inside;
    match width {
        1 => cell_of::<1>(bytes, i),
        2 => cell_of::<2>(bytes, i),
        3 => cell_of::<3>(bytes, i),
        _ => cell_of::<4>(bytes, i),
    }
}

/// Returns cell `i` of the first `end` cells of `WIDTH` bytes, or `None` if `i` is not less than `end`.
/// The only test is that of a slice that ends there.
#[inline(always)]
fn cell_below_of<const WIDTH: usize>(bytes: &[u8], end: usize, i: usize) -> Option<&[u8]>
    requires some { 0 < WIDTH }
    requires few { WIDTH ≤ 4 }
    requires within { end ≤ length bytes.now / WIDTH }
    ensures { MatchOption result (end ≤ i) (λ c. (i < end) × (c.now ≡ cell WIDTH bytes.now i)) }
{
    let front = bytes.len().min(end * WIDTH);
    cell_of::<WIDTH>(&bytes[..front], i)
}

/// Returns cell `i` of the first `end` cells of `width` bytes, or `None` if `i` is not less than `end`.
#[inline(always)]
pub fn cell_below(bytes: &[u8], width: usize, end: usize, i: usize) -> Option<&[u8]>
    requires some { 0 < width }
    requires few { width ≤ 4 }
    requires within { end ≤ length bytes.now / width }
    ensures { MatchOption result (end ≤ i) (λ c. (i < end) × (c.now ≡ cell width bytes.now i)) }
{
    match width {
        1 => cell_below_of::<1>(bytes, end, i),
        2 => cell_below_of::<2>(bytes, end, i),
        3 => cell_below_of::<3>(bytes, end, i),
        _ => cell_below_of::<4>(bytes, end, i),
    }
}

/// Returns what [`cell_below_of`] returns. The path on which there is a cell comes first in machine
/// code.
#[inline(always)]
fn likely_cell_below_of<const WIDTH: usize>(bytes: &[u8], end: usize, i: usize) -> Option<&[u8]>
    requires some { 0 < WIDTH }
    requires few { WIDTH ≤ 4 }
    requires within { end ≤ length bytes.now / WIDTH }
    ensures { MatchOption result (end ≤ i) (λ c. (i < end) × (c.now ≡ cell WIDTH bytes.now i)) }
{
    let front = bytes.len().min(end * WIDTH);
    likely_cell_of::<WIDTH>(&bytes[..front], i)
}

/// Returns what [`cell_below`] returns, for an index that is usually less than `end`.
#[inline(always)]
pub fn likely_cell_below(bytes: &[u8], width: usize, end: usize, i: usize) -> Option<&[u8]>
    requires some { 0 < width }
    requires few { width ≤ 4 }
    requires within { end ≤ length bytes.now / width }
    ensures { MatchOption result (end ≤ i) (λ c. (i < end) × (c.now ≡ cell width bytes.now i)) }
{
    match width {
        1 => likely_cell_below_of::<1>(bytes, end, i),
        2 => likely_cell_below_of::<2>(bytes, end, i),
        3 => likely_cell_below_of::<3>(bytes, end, i),
        _ => likely_cell_below_of::<4>(bytes, end, i),
    }
}
