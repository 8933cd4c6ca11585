//! Building a trie from a map: the map's values become numbers, the numbers become a trie, and the
//! cells of that trie become values again, which are packed one by one.
ghost use Rattle.std.specs.Prelude.{◌≡◌, ◌≢◌, ℕ, ◌≤◌, List, Err, None, IfOk, IfErr, is_some};
ghost use Rattle.std.specs.List.{AllPass, count_by};
ghost use Rattle.icu_trie.specs.Parts.{parts_fault};
ghost use Rattle.icu_trie_builder.specs.Bounds.{IsTooLarge};
ghost use Rattle.icu_trie_builder.specs.CodePointMap.{map_value, value_of_number, IsBuilder};
ghost use Rattle.icu_trie_builder.specs.Inside.ValuesOfNumbers.{number_value, AreValuesOf};
ghost use Rattle.icu_trie_builder.specs.Built.{IsBuiltFrom};
ghost use Rattle.icu_trie_builder.specs.Writes.{is_accepted, value_after};
ghost use Rattle.icu_trie_builder.specs.declared.error.BuildError.TheVariants.{TooLarge};

use crate::builder::CodePointTrieBuilder;
use crate::error::BuildError;
use crate::map::number_map::NumberMap;
use crate::number_trie::{NumberTrie, build_numbers};
use crate::writes::Write;
use icu_trie::cptrie::CodePointTrie;
use icu_trie::header::TrieType;
use icu_trie::value::TrieValue;
use icu_zerovec::{MemoryError, ZeroVec};
use std::alloc::Global;

/// Returns the value with this number, or `default` if there is none.
#[inline(always)]
fn value_or<T: TrieValue>(number: u32, default: T) -> T
    ensures { result ≡ value_of_number T.of_number default number }
{
    T::try_from_u32(number).unwrap_or(default)
}

/// Returns the values of these numbers, packed. Each value is packed as soon as it is made, so no
/// list of values is needed. Each number must be that of a value, so `default` is never used.
fn packed_values<T: TrieValue>(
    alloc: Global,
    numbers: &[u32],
    default: T,
) -> Result<ZeroVec<'static, T>, MemoryError>
    requires { AllPass (λ n. is_some (T.of_number n)) numbers.now }
    ensures { IfOk result (λ v. AreValuesOf T.of_number numbers.now v) }
{
    let values = numbers.iter().map(|number| value_or(*number, default));
    ZeroVec::alloc_from_iter(alloc, values)
}

/// Returns the trie of values that belongs to a trie of numbers.
fn trie_of<T: TrieValue>(
    alloc: Global,
    trie: NumberTrie,
    default: T,
) -> Result<CodePointTrie<'static, T>, BuildError>
    requires numbers { AllPass (λ n. is_some (T.of_number n)) trie.values.items }
    requires sound { (values : List T) → AreValuesOf T.of_number trie.values.items values
        → parts_fault T.of_number trie.header trie.index.items values ≡ None }
    ensures header { IfOk result (λ t. t.header ≡ trie.header) }
    ensures index { IfOk result (λ t. t.index ≡ trie.index.items) }
    ensures values { IfOk result (λ t. AreValuesOf T.of_number trie.values.items t.values) }
    ensures memory { IfErr result (λ e. e ≡ BuildError.Memory) }
{
    let NumberTrie {
        header,
        index,
        values,
    } = trie;
    let data = packed_values(alloc, &values, default)?;
    drop(values);
    let index = ZeroVec::alloc_from_slice(alloc, &index)?;
    match CodePointTrie::try_new(header, index, data) {
        Ok(trie) => Ok(trie),
        Err(_) => unreachable!(),
    }
}

/// Builds the trie of a map, given the number of each code point's value.
fn build_map<T: TrieValue>(
    alloc: Global,
    numbers: &NumberMap,
    default: T,
    error: T,
    trie_type: TrieType,
) -> Result<CodePointTrie<'static, T>, BuildError>
    requires { IsBuilder T.is_value T.number numbers.now default error }
    ensures trie { IfOk result (IsBuiltFrom T.number T.of_number
        (number_value T.of_number default numbers.now) default error trie_type) }
    ensures too_large { result ≡ Err TooLarge
        → IsTooLarge (λ c. T.number (number_value T.of_number default numbers.now c)) }
{
    let trie = build_numbers(alloc, numbers, error.to_u32(), default.to_u32(), trie_type)?;
    trie_of(alloc, trie, default)
}

impl<T: TrieValue> CodePointTrieBuilder<T> {
    /// Builds the trie of the map. It has the builder's trie type, and owns its index and its data.
    ///
    /// ```
    /// let mut builder = CodePointTrieBuilder::new(alloc, 0u16, 9, TrieType::Small);
    /// builder.set_value(0x20000, 10)?;
    /// let trie = builder.build()?;
    /// // trie.get32(0x20000) is 10, and trie.get32(0x1FFFF) is 0
    /// ```
    ///
    /// # Errors
    /// The builder is consumed in both cases.
    /// - `BuildError::TooLarge` if the offset of a data block would need more than 18 bits, or the
    ///   offset of an index-3 block would reach 0x7fff. This happens only if the map has more than
    ///   800 different aligned blocks of 512 values, or more than 12,000 of 16.
    /// - `BuildError::Memory` if an allocation fails.
    pub fn build(self) -> Result<CodePointTrie<'static, T>, BuildError>
        ensures trie { IfOk result
            (IsBuiltFrom T.number T.of_number (map_value self) self.default self.error
            self.trie_type) }
        ensures too_large { result ≡ Err TooLarge → IsTooLarge (λ c. T.number (map_value self c)) }
    {
        build_map(
            self.alloc,
            &self.numbers,
            self.default,
            self.error,
            self.trie_type,
        )
    }
}

/// Builds a trie from a list of writes, applied in order to a map that has the default everywhere.
/// Each code point gets the value of the last accepted write that covers it.
///
/// ```
/// let writes = [Write::Range(0x41..=0x5A, 1u8), Write::One(0x41, 0)];
/// let trie = build_from_writes(alloc, 0, 9, TrieType::Fast, &writes)?;
/// // trie.get32(0x41) is 0, trie.get32(0x5A) is 1, and trie.get32(0x110000) is 9
/// ```
///
/// # Errors
/// - `BuildError::TooLarge` as for [`CodePointTrieBuilder::build`], but never if at most 256 writes
///   are accepted.
/// - `BuildError::Memory` if an allocation fails, in a write or in the build.
pub fn build_from_writes<T: TrieValue>(
    alloc: Global,
    default: T,
    error: T,
    trie_type: TrieType,
    writes: &[Write<T>],
) -> Result<CodePointTrie<'static, T>, BuildError>
    ensures trie { IfOk result (IsBuiltFrom T.number T.of_number
        (value_after writes.now default) default error trie_type) }
    ensures too_large { result ≡ Err TooLarge → IsTooLarge
        (λ c. T.number (value_after writes.now default c)) }
    ensures few { count_by (is_accepted) writes.now ≤ 256 → result ≢ Err TooLarge }
{
    let mut builder = CodePointTrieBuilder::new(alloc, default, error, trie_type);
    if builder.apply(writes).is_err() {
        return Err(BuildError::Memory);
    }
    builder.build()
}
