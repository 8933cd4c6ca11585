//! User-defined values: an enum in a trie.
ghost use Rattle.std.specs.Prelude.{◌≡◌, ◌==◌, ℕ, IfOk, Some};
ghost use Rattle.std.specs.Cmp.Rules.{comparing};
ghost use Rattle.std.specs.Ordering.{on};
ghost use Rattle.std.proofs.Common.{rules};
ghost use Rattle.icu_collections.specs.CodePointTrie.{trie_value};
ghost use Rattle.icu_collections.specs.CodePointTrieBuilder.{answer_after};
ghost use Rattle.examples.specs.Categories.{is_letter, number_of};
ghost use Rattle.examples.specs.declared.categories.Category.TheVariants.{Other};

use icu_collections::codepointtrie::{
    BuildError, CodePointTrie, NotAValue, TrieType, TrieValue, Write, build_from_writes,
};
use icu_collections::zerovec::ule::AsULE;
use std::alloc::Global;

/// The kind of a character. Two categories are equal if their numbers are, which is the form that
/// the law of a trie's values requires.
#[derive(Clone, Copy, Debug)]
pub enum Category {
    /// Neither a letter nor a number.
    Other,
    /// A letter.
    Letter,
    /// A digit, or a number in another form.
    Number,
}

impl PartialEq for Category {
    ghost eq = { on number_of ◌==◌ };

    ghost laws = { Prim.search (comparing, rules) };

    fn eq(&self, other: &Category) -> bool {
        self.to_u32() == other.to_u32()
    }
}

impl Eq for Category {
    ghost laws = { Prim.search (comparing, rules) };
}

impl AsULE for Category {
    ghost use Rattle.std.specs.Prelude.{⊤};
    ghost use Rattle.std.proofs.Common.{lit<, lit≤};
    ghost use Rattle.examples.specs.Categories.{are_bytes, byte_back, bytes_of, category_in, one_byte};

    const WIDTH: usize = 1;

    ghost WIDTH = { 1 };

    ghost is_value = { λ _. ⊤ };

    ghost pack = { bytes_of };

    ghost unpack = { category_in };

    ghost some_width = { lit< tt };

    ghost width_fits = { lit≤ tt };

    ghost length_of_pack = { λ c _. one_byte c };

    ghost gives_back = { λ c _. byte_back c };

    ghost bytes_of_pack = { λ c _. are_bytes c };

    fn to_unaligned(self) -> [u8; 4] {
        match self {
            Category::Other => [0, 0, 0, 0],
            Category::Letter => [1, 0, 0, 0],
            Category::Number => [2, 0, 0, 0],
        }
    }

    fn from_unaligned(bytes: &[u8]) -> Option<Category> {
        match bytes[0] {
            0 => Some(Category::Other),
            1 => Some(Category::Letter),
            2 => Some(Category::Number),
            _ => None,
        }
    }

    fn shown(self) {}
}

impl TrieValue for Category {
    ghost use Rattle.icu_collections.specs.CodePointTrie.{equal_numbers};
    ghost use Rattle.examples.specs.Categories.{category_of, number_back};

    type TryFromU32Error = NotAValue;

    ghost number = { number_of };

    ghost of_number = { category_of };

    fn to_u32(self) -> u32 {
        match self {
            Category::Other => 0,
            Category::Letter => 1,
            Category::Number => 2,
        }
    }

    fn try_from_u32(i: u32) -> Result<Category, NotAValue> {
        match i {
            0 => Ok(Category::Other),
            1 => Ok(Category::Letter),
            2 => Ok(Category::Number),
            _ => Err(NotAValue),
        }
    }

    ghost number_gives_back = { λ c _. number_back c };

    ghost equal_by_number = { λ x y _ _. equal_numbers (number_of x) (number_of y) };
}

/// Returns true if a trie of categories has `Letter` for a character.
pub fn is_letter(trie: &CodePointTrie<'_, Category>, c: char) -> bool
    ensures { result ≡ is_letter (trie_value trie.now c) }
{
    trie.get(c) == Category::Letter
}

/// Builds a trie in which each code point has the category of the last row that covers it, and
/// otherwise `Other`. Numbers that are not code points also have `Other`.
pub fn categories_of(
    alloc: Global,
    rows: &[Write<Category>],
) -> Result<CodePointTrie<'static, Category>, BuildError>
    ensures { IfOk result
        (λ trie. (c : ℕ) → trie_value trie c ≡ Some (answer_after Other Other rows.now c)) }
{
    let none = Category::Other;
    let trie = build_from_writes(alloc, none, none, TrieType::Small, rows)?;
    Ok(trie)
}
