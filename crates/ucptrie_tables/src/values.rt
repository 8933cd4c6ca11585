//! The same numbers as values of another type.
ghost use Rattle.std.specs.Prelude.{◌≡◌, ◌^◌, ◌<◌, ℕ, Option, None, IfOk, IfErr};
ghost use Rattle.std.specs.Option.{ok_or};
ghost use Rattle.icu_trie.specs.declared.map_value.MapError.TheVariants.{Closure};
ghost use Rattle.ucptrie_tables.specs.Numbers.{HasNumbersOf, IsWhyNoNumbers};

use icu_trie::cptrie::CodePointTrie;
use icu_trie::map_value::MapError;
use icu_trie::value::TrieValue;
use std::alloc::Global;

/// Returns the value with the number of another type's value, or that number if there is no such
/// value.
fn same_number<T: TrieValue, P: TrieValue>(value: T) -> Result<P, u32>
    ensures same { result ≡ ok_or (P.of_number (T.number value)) (T.number value) }
    ensures bound { IfErr result (λ n. n < 2 ^ 32) }
{
    let number = value.to_u32();
    let Ok(same) = P::try_from_u32(number) else {
        return Err(number);
    };
    Ok(same)
}

/// Returns the trie that has the same numbers as values of another type.
///
/// Tries the error value, the null value and each cell, in this order. `Closure` has the first
/// number for which there is no such value.
pub fn with_values_of<P: TrieValue, T: TrieValue>(
    alloc: Global,
    trie: &CodePointTrie<'_, T>,
) -> Result<CodePointTrie<'static, P>, MapError<u32>>
    ensures ok { IfOk result (HasNumbersOf T.number T.of_number P.number P.of_number trie.now) }
    ensures err { IfErr result
        (λ e. (n : ℕ) → e ≡ Closure n → (n < 2 ^ 32) × (P.of_number n ≡ None)) }
    ensures first { IfErr result
        (IsWhyNoNumbers T.number T.of_number P.of_number trie.now) }
{
    trie.try_alloc_map_value(alloc, |value: T| same_number::<T, P>(value))
}
