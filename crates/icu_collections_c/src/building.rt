//! Building tries from rows, in ICU's binary form.
ghost use Rattle.std.specs.Prelude.{◌≡◌, ◌<◌, ◌≤◌, ◌^◌, ◌↔◌, IsTrue, IsSome, IfNone, IfOk, IfErr, IfSome, length, All};
ghost use Rattle.icu_trie_core.specs.ValueNumbers.{type_number};
ghost use Rattle.icu_collections_c.specs.Building.{AnswersBytes, AreFitting, IsBuilt, IsForm, IsTooLargeFor, IsWhyNotBuilt, fast_end, most_blocks, most_bytes, most_data, most_index, written_whole};
ghost use Rattle.icu_collections_c.specs.BytesTrie.{fitting_in};
ghost use Rattle.icu_collections_c.specs.Inside.BuiltValues.{AreWritesOf, IsBuiltOf, IsTooLargeOf};

use crate::cells::UnsignedValue;
use crate::error::Error;
use icu_trie_binary::binary::{WriteError, to_binary};
use icu_trie_builder::build_from_writes;
use icu_trie_builder::error::BuildError;
use icu_trie_builder::writes::Write;
use icu_trie_core::header::TrieType;
use std::alloc::{AllocError, Global};

/// A value for the code points from `first` to `last`, both included. A row is empty if `first` is
/// above `last` or above 0x10FFFF.
#[repr(C)]
#[derive(Clone, Copy)]
pub struct Row {
    pub first: u32,
    pub last: u32,
    pub value: u32,
}

impl From<AllocError> for Error {
    ghost use Rattle.icu_collections_c.specs.declared.error.Error.TheVariants.{NoMemory};

    ghost from_gives = { λ _ e. e ≡ NoMemory };

    fn from(_error: AllocError) -> Error {
        Error::NoMemory
    }
}

impl From<BuildError> for Error {
    ghost use Rattle.icu_collections_c.specs.Inside.BuiltValues.{of_build};

    ghost from_gives = { λ x e. e ≡ of_build x };

    fn from(error: BuildError) -> Error {
        match error {
            BuildError::TooLarge => Error::TooLarge,
            BuildError::Memory => Error::NoMemory,
        }
    }
}

impl From<WriteError> for Error {
    ghost use Rattle.icu_collections_c.specs.Inside.BuiltValues.{of_write};

    ghost from_gives = { λ x e. e ≡ of_write x };

    fn from(error: WriteError) -> Error {
        match error {
            WriteError::Memory => Error::NoMemory,
            _ => Error::TooLarge,
        }
    }
}

/// Returns the type with this number (`UCPTrieType`). `None` if the number is above 1.
fn type_of(number: u32) -> Option<TrieType>
    ensures some { IfSome result (λ t. number ≡ type_number t) }
    ensures none { IfNone result (1 < number) }
{
    match number {
        0 => Some(TrieType::Fast),
        1 => Some(TrieType::Small),
        _ => None,
    }
}

/// Returns whether `number` is the number of a value of type `T`.
fn fits<T: UnsignedValue>(number: u32) -> bool
    ensures { IsTrue result ↔ IsSome (T.of_number number) }
{
    T::try_from_u32(number).is_ok()
}

/// Returns whether the value of each row is the number of a value of type `T`.
fn rows_fit<T: UnsignedValue>(rows: &[Row]) -> bool
    ensures { IsTrue result ↔ All (λ row. IsSome (T.of_number row.value)) rows.now }
{
    rows.iter().all(|row| fits::<T>(row.value))
}

/// Returns the rows as writes of the builder, one write for each row.
fn writes_of<T: UnsignedValue>(alloc: Global, rows: &[Row]) -> Result<Vec<Write<T>>, AllocError>
    requires { All (λ row. IsSome (T.of_number row.value)) rows.now }
    ensures { IfOk result (λ writes. AreWritesOf T.number rows.now writes.items) }
{
    let mut writes = Vec::with_capacity(alloc, rows.len())?;
    for row in rows {
        match T::try_from_u32(row.value) {
            Ok(value) => writes.push(Write::Range(row.first..=row.last, value))?,
            Err(_) => unreachable!(),
        }
    }
    Ok(writes)
}

/// Builds a trie with values of type `T` from the rows and returns it in ICU's binary form.
fn built_in<T: UnsignedValue>(
    alloc: Global,
    rows: &[Row],
    default: u32,
    error: u32,
    trie_type: TrieType,
) -> Result<Vec<u8>, Error>
    ensures fits { IfOk result (λ _. AreFitting T.of_number rows.now default error) }
    ensures built { IfOk result (λ bytes. IsBuiltOf T.number T.unpack T.WIDTH T.of_number rows.now
        default error trie_type bytes.items) }
    ensures err { IfErr result (IsWhyNotBuilt (Unit {0})
        (AreFitting T.of_number rows.now default error)
        (IsTooLargeOf T.number T.of_number T.WIDTH rows.now default error trie_type)) }
{
    let (Ok(default), Ok(error)) = (T::try_from_u32(default), T::try_from_u32(error)) else {
        return Err(Error::WideValue);
    };
    if !rows_fit::<T>(rows) {
        return Err(Error::WideValue);
    }
    let writes = writes_of::<T>(alloc, rows)?;
    let trie = build_from_writes(alloc, default, error, trie_type, &writes)?;
    Ok(to_binary(alloc, &trie)?)
}

/// Builds a trie from the rows and returns it in ICU's binary form. `trie_type` is the number of
/// its type, `width` the number of bytes of a value.
fn built(
    alloc: Global,
    rows: &[Row],
    default: u32,
    error: u32,
    trie_type: u32,
    width: u32,
) -> Result<Vec<u8>, Error>
    ensures form { IfOk result (λ _. IsForm trie_type width) }
    ensures fits { IfOk result (λ _. AreFitting (fitting_in width) rows.now default error) }
    ensures built { IfOk result (λ bytes. IsBuilt rows.now default error trie_type width
        bytes.items) }
    ensures err { IfErr result (IsWhyNotBuilt (IsForm trie_type width)
        (AreFitting (fitting_in width) rows.now default error)
        (IsTooLargeFor rows.now default error trie_type width)) }
{
    let Some(trie_type) = type_of(trie_type) else {
        return Err(Error::InvalidFormat);
    };
    match width {
        1 => built_in::<u8>(alloc, rows, default, error, trie_type),
        2 => built_in::<u16>(alloc, rows, default, error, trie_type),
        4 => built_in::<u32>(alloc, rows, default, error, trie_type),
        _ => Err(Error::InvalidFormat),
    }
}

/// Returns how many different blocks `count` rows leave at most among `blocks` aligned blocks.
fn most_blocks(count: usize, blocks: u64) -> u64
    requires { blocks < 2 ^ 32 }
    ensures { result ≡ most_blocks count blocks }
{
    // More rows than blocks make no difference.
    (3 * (count as u64).min(blocks) + 1).min(blocks)
}

/// Returns how many cells of data `count` rows take at most, below and above the fast limit
/// `limit`.
fn most_data(count: usize, limit: u64) -> u64
    requires { limit ≤ 0x10000 }
    ensures { result ≡ most_data count limit }
{
    let fast = most_blocks(count, limit / 64);
    let small = most_blocks(count, (0x110000 - limit) / 16);
    64 * fast + 16 * small + 160
}

/// Returns how many cells of index `count` rows take at most above the fast limit `limit`.
fn most_index(count: usize, limit: u64) -> u64
    requires { limit ≤ 0x10000 }
    ensures { result ≡ most_index count limit }
{
    36 * most_blocks(count, (0x110000 - limit) / 512) + 3200
}

/// Returns the most bytes that [`bks_trie_build`] takes for `count` rows with this type and this
/// width. A buffer of that size is always large enough. Returns 0 if the type or the width does not
/// exist.
///
/// Most tries are much smaller. From about 23,000 rows on the bound stays the same, since it then
/// covers all blocks of the code space. It is always below five million bytes.
#[unsafe(no_mangle)]
pub extern "C" fn bks_trie_bound(count: usize, trie_type: u32, width: u32) -> u64
    ensures known { IsForm trie_type width → result ≡ most_bytes count trie_type width }
    ensures none { ¬ IsForm trie_type width → result ≡ 0 }
{
    let Some(trie_type) = type_of(trie_type) else {
        return 0;
    };
    if !matches!(width, 1 | 2 | 4) {
        return 0;
    }
    let limit = u64::from(trie_type.fast_limit());
    let cells = most_index(count, limit) + 1;
    16 + 2 * cells + u64::from(width) * most_data(count, limit)
}

/// Writes the bytes to the start of a buffer if all of them fit. Otherwise the buffer is unchanged.
pub(crate) fn write_whole(bytes: &[u8], buffer: &mut [u8])
    ensures { buffer.new ≡ written_whole bytes.now buffer.old }
{
    if bytes.len() <= buffer.len() {
        buffer[..bytes.len()].copy_from_slice(bytes);
    }
}

/// Builds a trie from rows in ICU's binary form and returns how many bytes it takes. The bytes are
/// in the buffer if all of them fit; otherwise the buffer is unchanged.
///
/// A later row overwrites an earlier one. Code points in no row have the default value, and numbers
/// above 0x10FFFF the error value. A row is empty if its first code point is above its last one, or
/// above 0x10FFFF. A row that goes beyond 0x10FFFF ends there.
///
/// ICU: `umutablecptrie_setRange` for each row, then `umutablecptrie_buildImmutable` and
/// `ucptrie_toBinary`.
///
/// # Errors
/// Returns the number of the first of these that applies, and leaves the buffer unchanged:
///
/// - [`Error::InvalidFormat`] if the type is neither 0 (fast) nor 1 (small), or the width is none of 1,
///   2 and 4 bytes
/// - [`Error::WideValue`] if a value has more bits than the width: the value of a row, the
///   default or the error value
/// - [`Error::TooLarge`] if the map is too large for a trie, or the trie is too large for the
///   binary form
/// - [`Error::NoMemory`] if an allocation fails, which may come before `TooLarge`
#[unsafe(no_mangle)]
pub extern "C" fn bks_trie_build(
    alloc: Global,
    rows: &[Row],
    default_value: u32,
    error_value: u32,
    trie_type: u32,
    width: u32,
    bytes: &mut [u8],
) -> i64
    ensures { AnswersBytes (IsForm trie_type width)
        (AreFitting (fitting_in width) rows.now default_value error_value)
        (IsTooLargeFor rows.now default_value error_value trie_type width)
        (IsBuilt rows.now default_value error_value trie_type width) bytes.old bytes.new result }
{
    match built(alloc, rows, default_value, error_value, trie_type, width) {
        Ok(stored) => {
            write_whole(&stored, bytes);
            stored.len() as i64
        }
        Err(error) => error.number(),
    }
}
