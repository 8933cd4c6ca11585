//! Several tables in one: the combinations of values that occur.
ghost use Rattle.std.specs.Prelude.{◌≡◌, ◌≢◌, ℕ, ◌<◌, ◌≤◌, IfNone, IfOk, IfSome, Some, false, true, length, slice_get};
ghost use Rattle.ucptrie_tables.specs.Joins.{row_at, IsJoin, IsNew, IsNumbered};

use crate::table::Table;
use icu_trie_builder::writes::Write;
use icu_zerovec::CODE_POINT_LIMIT;
use std::alloc::{AllocError, Global};

/// The combinations of the values that a code point has in several tables. A number stands for each
/// of them, from 0 on, in order of the first code point that has it.
#[derive(Debug, Drop)]
pub struct Join {
    /// The first code point with each combination, by the number of the combination.
    pub firsts: Vec<u32>,
    /// The writes that give each code point the number of its combination, in ascending order.
    pub writes: Vec<Write<u32>>,
}

/// Returns whether two code points have the same value in each table.
fn have_same_values(columns: &[Table], first: u32, second: u32) -> bool
    ensures same { result ≡ true → row_at columns.now first ≡ row_at columns.now second }
    ensures other { result ≡ false → row_at columns.now first ≢ row_at columns.now second }
{
    let mut rest = columns;
    while let [column, after @ ..] = rest {
        if column.trie.get32(first) != column.trie.get32(second) {
            return false;
        }
        rest = after;
    }
    true
}

/// Returns the exclusive end of the code points from `c` on that have the values of `c`.
fn end_of_values(columns: &[Table], c: u32) -> u32
    requires { c < 0x110000 }
    ensures after { c < result }
    ensures within { result ≤ 0x110000 }
    ensures equal { (u : ℕ) → c ≤ u → u < result → row_at columns.now u ≡ row_at columns.now c }
{
    for next in c + 1..CODE_POINT_LIMIT {
        if !have_same_values(columns, next, c) {
            return next;
        }
    }
    CODE_POINT_LIMIT
}

/// Returns the number of the combination that `c` has, if one of these code points has it.
fn known_number(columns: &[Table], firsts: &[u32], c: u32) -> Option<usize>
    ensures some { IfSome result (λ n. (f : ℕ) × (slice_get firsts.now n ≡ Some f)
        × (row_at columns.now f ≡ row_at columns.now c)) }
    ensures none { IfNone result (IsNew columns.now firsts.now c) }
{
    for (number, first) in firsts.iter().enumerate() {
        if have_same_values(columns, *first, c) {
            return Some(number);
        }
    }
    None
}

/// Returns the number of the combination that `c` has. Appends `c` if none of the code points has
/// this combination.
fn number_of(columns: &[Table], firsts: &mut Vec<u32>, c: u32) -> Result<u32, AllocError>
    requires count { length firsts.now.items ≤ c }
    requires within { c < 0x110000 }
    ensures { IfOk result (IsNumbered columns.now firsts.old.items c firsts.new.items) }
{
    if let Some(number) = known_number(columns, firsts, c) {
        return Ok(number as u32);
    }
    let number = firsts.len() as u32;
    firsts.push(c)?;
    Ok(number)
}

/// Returns the combinations of the values that code points have in these tables.
///
/// # Errors
/// Returns [`AllocError`] if an allocation fails.
pub fn joined(alloc: Global, columns: &[Table]) -> Result<Join, AllocError>
    ensures { IfOk result (IsJoin columns.now) }
{
    let mut firsts = Vec::new(alloc);
    let mut writes = Vec::new(alloc);
    let mut start = 0;
    while start < CODE_POINT_LIMIT {
        let end = end_of_values(columns, start);
        let number = number_of(columns, &mut firsts, start)?;
        writes.push(Write::Range(start..=end - 1, number))?;
        start = end;
    }
    Ok(Join { firsts, writes })
}
