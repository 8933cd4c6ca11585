//! A trie whose values are mapped to values of another type.
ghost use Rattle.std.specs.Prelude.{◌≡◌, ℕ, Result, IfOk, IfErr};
ghost use Rattle.std.specs.Option.{option_map};
ghost use Rattle.icu_trie.specs.declared.map_value.MapError.TheVariants.{Memory};
ghost use Rattle.icu_trie.specs.MappedTrie.{ok_answer, AnswersAlways, MapsInTurn, AnswersAll, BreaksOffAt};
ghost use Rattle.icu_trie.specs.Parts.{trie_value};
ghost use Rattle.icu_trie.specs.Ranges.{IsCoherentTrie, answers};
ghost use Rattle.icu_zerovec.specs.Slice.{slice_values};

use crate::cptrie::CodePointTrie;
use icu_trie_core::value::TrieValue;
use icu_zerovec::ule::AsULE;
use icu_zerovec::{MemoryError, ZeroSlice, ZeroVec};
use std::alloc::{AllocError, AllocFailed, Global};
use std::error::Error;
use std::fmt;

/// The error of [`CodePointTrie::try_alloc_map_value`].
#[derive(Clone, Copy, Debug, Drop, PartialEq, Eq)]
pub enum MapError<E> {
    /// The closure returned this error.
    Closure(E),
    /// An allocation failed.
    Memory,
}

/// Writes the closure's error as its own `Display` does, or `no memory`.
impl<E: fmt::Display> fmt::Display for MapError<E> {
    fn fmt<W: fmt::Write>(&self, f: &mut fmt::Formatter<W>) -> fmt::Result {
        match self {
            MapError::Closure(error) => error.fmt(f),
            MapError::Memory => f.write_str("no memory"),
        }
    }
}

impl<E: fmt::Debug + fmt::Display + Drop> Error for MapError<E> {}

impl<E> From<AllocError> for MapError<E> {
    ghost from_gives = { λ _ e. e ≡ Memory };

    fn from(_error: AllocError) -> MapError<E> {
        MapError::Memory
    }
}

impl<T: Drop, E> From<AllocFailed<T>> for MapError<E> {
    ghost from_gives = { λ _ e. e ≡ Memory };

    fn from(_error: AllocFailed<T>) -> MapError<E> {
        MapError::Memory
    }
}

impl<E> From<MemoryError> for MapError<E> {
    ghost from_gives = { λ _ e. e ≡ Memory };

    fn from(_error: MemoryError) -> MapError<E> {
        MapError::Memory
    }
}

/// Returns the results of a closure for these values, in order. After the first error it is not
/// called again.
fn map_cells<T: AsULE, P: Drop, E, F: FnMut(T) -> Result<P, E>>(
    alloc: Global,
    values: ZeroSlice<'_, T>,
    mut f: F,
) -> Result<Vec<P>, MapError<E>>
    requires { F.IsAlwaysCallable f }
    ensures ok { IfOk result
        (λ answers. AnswersAll F.step f (slice_values values.entry) answers.items) }
    ensures err { IfErr result (BreaksOffAt F.step f (slice_values values.entry)) }
{
    let mut answers = Vec::with_capacity(alloc, values.len())?;
    for value in values.iter() {
        match f(value) {
            Ok(answer) => answers.push(answer)?,
            Err(error) => return Err(MapError::Closure(error)),
        }
    }
    Ok(answers)
}

impl<'trie, T: TrieValue> CodePointTrie<'trie, T> {
    /// Returns a trie whose values are the results of `f` for the values of this one. Its index and
    /// trie type are the same.
    ///
    /// It calls `f` for the error value, for the null value, and then for each data cell in order.
    /// So it calls `f` for a value as often as the value occurs in the data. The header gets the
    /// number of the result for the null value, and the index is copied.
    ///
    /// The error value of the new trie is the result for the last cell. If the result of `f`
    /// depends only on its argument, this is also the result of the first call.
    ///
    /// ```
    /// let next = trie.try_alloc_map_value(alloc, |x: u8| Ok::<u16, Infallible>(u16::from(x) + 1))?;
    /// // next.get32(c) is trie.get32(c) plus one, at each c
    /// ```
    ///
    /// # Errors
    /// Returns `Closure` with the first error that `f` returns, after which `f` is not called
    /// again, and `Memory` if an allocation fails. The trie is unchanged in both cases.
    pub fn try_alloc_map_value<P: TrieValue, E, F: FnMut(T) -> Result<P, E>>(
        &self,
        alloc: Global,
        mut f: F,
    ) -> Result<CodePointTrie<'static, P>, MapError<E>>
        requires { F.IsAlwaysCallable f }
        ensures maps { MapsInTurn F.step f T.of_number P.number self.now result }
        ensures same { (h : T → Result P E) → AnswersAlways F.step h → IfOk result (λ t. (u : ℕ)
            → option_map (ok_answer {E = E}) (answers t u) ≡ option_map h (answers self.now u)) }
        ensures value { (h : T → Result P E) → AnswersAlways F.step h → IfOk result (λ t. (u : ℕ)
            → option_map (ok_answer {E = E}) (trie_value t u)
            ≡ option_map h (trie_value self.now u)) }
        ensures coherent { (h : T → Result P E) → AnswersAlways F.step h
            → IsCoherentTrie T.of_number self.now
            → IfOk result (λ t. IsCoherentTrie P.of_number t) }
    {
        let null_value = self.null_value();
        // The first call, so that the closure can reject the error value before it gets any other
        // one. The result is not stored: the error value of a trie is the last cell of its data.
        match f(self.error_value()) {
            Ok(_) => {}
            Err(error) => return Err(MapError::Closure(error)),
        }
        let null = match f(null_value) {
            Ok(null) => null,
            Err(error) => return Err(MapError::Closure(error)),
        };
        let values = map_cells(alloc, self.data.as_slice(), f)?;
        let data = ZeroVec::alloc_from_slice(alloc, &values)?;
        // Look-ups rely on this number of cells, which a type that breaks the laws could change.
        if data.len() != self.data.len() {
            unreachable!();
        }
        let index = self.index.try_clone(alloc)?;
        null.shown();
        Ok(CodePointTrie::with_data(self.header, index, data, null))
    }
}
