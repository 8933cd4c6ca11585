//! A map from code points that is written to, and then built into a trie.
ghost use Rattle.std.specs.Prelude.{◌≡◌, ℕ, ◌<◌, ◌≤◌, [], ◌∷◌, length, OnOk, OnErr, IfErr, take, slice_get, Some, true, false};
ghost use Rattle.icu_trie_builder.specs.Writes.{is_accepted};
ghost use Rattle.icu_trie_builder.specs.CodePointMap.{map_value, IsAfter};

use crate::map::number_map::NumberMap;
use crate::writes::{ApplyRefused, Write};
use icu_trie::header::TrieType;
use icu_trie::value::TrieValue;
use icu_zerovec::{CODE_POINT_LIMIT, MemoryError};
use std::alloc::Global;
use std::marker::Model;
use std::ops::RangeInclusive;

/// A map from code points to values that can be changed, and then built into a trie.
///
/// ICU: `UMutableCPTrie`.
///
/// ```
/// let mut builder = CodePointTrieBuilder::new(alloc, 0u8, 9, TrieType::Fast);
/// builder.set_range_value(0x41..=0x5A, 1)?;
/// builder.set_value(0x41, 0)?;
/// let trie = builder.build()?;
/// // trie.get32(0x41) is 0, trie.get32(0x42) is 1, and trie.get32(0x110000) the error value, 9
/// ```
#[derive(Debug, Drop)]
pub struct CodePointTrieBuilder<T: TrieValue> {
    // The number of each code point's value.
    pub(crate) numbers: NumberMap,
    pub(crate) default: T,
    pub(crate) error: T,
    pub(crate) trie_type: TrieType,
    pub(crate) alloc: Global,
}

impl<T: TrieValue> Model for CodePointTrieBuilder<T> {
    // Contracts see a builder as the value of each code point, the default, the error value and the
    // type of the trie to build.
    ghost use Rattle.icu_trie_builder.specs.CodePointMap.{CodePointMap, IsBuilder, values_of_numbers};

    ghost Value = { CodePointMap T };

    ghost view = { λ b. record {
      values = values_of_numbers T.of_number b.default b.numbers;
      default = b.default;
      error = b.error;
      trie_type = b.trie_type;
    } };

    ghost invariant = { λ b. IsBuilder T.is_value T.number b.numbers b.default b.error };
}

impl<T: TrieValue> CodePointTrieBuilder<T> {
    /// Makes a map that has the default at every code point. It allocates nothing.
    ///
    /// `error` is the value of all numbers above 0x10FFFF, and `trie_type` the type of the trie to
    /// build.
    pub fn new(alloc: Global, default: T, error: T, trie_type: TrieType) -> Self
        ensures map { (c : ℕ) → c ≤ 0x10FFFF → map_value result c ≡ default }
        ensures default { result.default ≡ default }
        ensures error { result.error ≡ error }
        ensures trie_type { result.trie_type ≡ trie_type }
    {
        default.shown();
        error.shown();
        CodePointTrieBuilder {
            numbers: NumberMap::new(alloc, default.to_u32()),
            default,
            error,
            trie_type,
            alloc,
        }
    }

    /// Sets the value of the code point `c`. If `c` is above 0x10FFFF, nothing is written.
    ///
    /// ```
    /// builder.set_value(0x1234, 7)?;
    /// builder.set_value(0x110000, 8)?; // Ok, and nothing is written
    /// ```
    ///
    /// # Errors
    /// Returns `MemoryError` if an allocation fails. The map is then unchanged. It never fails if
    /// nothing is written.
    pub fn set_value(&mut self, c: u32, value: T) -> Result<(), MemoryError>
        ensures ok { OnOk result (IsAfter (Write.One c value ∷ []) self.old self.new) }
        ensures ignored { is_accepted (Write.One c value) ≡ false → self.new ≡ self.old }
        ensures err { OnErr result (self.new ≡ self.old) }
        ensures accepted { OnErr result (is_accepted (Write.One c value) ≡ true) }
    {
        self.set_range_value(c..=c, value)
    }

    /// Sets the value of each code point in `range`, whose bounds are both inclusive.
    ///
    /// If the range is reversed or starts above 0x10FFFF, nothing is written. If it ends above
    /// 0x10FFFF, the code points up to 0x10FFFF are written.
    ///
    /// ```
    /// builder.set_range_value(0x1000..=0x1FFF, 8)?;
    /// builder.set_range_value(3..=2, 9)?; // Ok, and nothing is written
    /// builder.set_range_value(0x10FFFF..=0x110005, 1)?; // writes at 0x10FFFF
    /// ```
    ///
    /// # Errors
    /// Returns `MemoryError` if an allocation fails. The map is then unchanged. It never fails if
    /// nothing is written.
    pub fn set_range_value(
        &mut self,
        range: RangeInclusive<u32>,
        value: T,
    ) -> Result<(), MemoryError>
        ensures ok { OnOk result (IsAfter (Write.Range range value ∷ []) self.old self.new) }
        ensures ignored { is_accepted (Write.Range range value) ≡ false → self.new ≡ self.old }
        ensures err { OnErr result (self.new ≡ self.old) }
        ensures accepted { OnErr result (is_accepted (Write.Range range value) ≡ true) }
    {
        let start = *range.start() as usize;
        let end = (*range.end() as usize).min(CODE_POINT_LIMIT as usize - 1);
        if start > end {
            return Ok(());
        }
        value.shown();
        self.numbers.set_range(start, end + 1, value.to_u32())?;
        Ok(())
    }

    /// Applies these writes in order.
    ///
    /// ```
    /// builder.apply(&[Write::One(0x20000, 10), Write::Range(0x1FFF..=0x2000, 11)])?;
    /// ```
    ///
    /// # Errors
    /// Returns `ApplyRefused` with the index of the first write for which an allocation fails. The
    /// writes before it have been applied, and no others.
    pub fn apply(&mut self, writes: &[Write<T>]) -> Result<(), ApplyRefused>
        ensures ok { OnOk result (IsAfter writes.now self.old self.new) }
        ensures err { IfErr result (λ e. IsAfter (take e.0 writes.now) self.old self.new) }
        ensures place { IfErr result (λ e. e.0 < length writes.now) }
        ensures accepted { IfErr result (λ e. (w : _) → slice_get writes.now e.0 ≡ Some w
            → is_accepted w ≡ true) }
    {
        for (i, write) in writes.iter().enumerate() {
            if self.write(write).is_err() {
                return Err(ApplyRefused(i));
            }
        }
        Ok(())
    }

    /// Applies one write.
    fn write(&mut self, write: &Write<T>) -> Result<(), MemoryError>
        ensures ok { OnOk result (IsAfter (write.now ∷ []) self.old self.new) }
        ensures err { OnErr result (self.new ≡ self.old) }
        ensures accepted { OnErr result (is_accepted write.now ≡ true) }
    {
        match write {
            Write::One(c, value) => self.set_value(*c, *value),
            Write::Range(range, value) => {
                self.set_range_value(*range.start()..=*range.end(), *value)
            }
        }
    }
}
