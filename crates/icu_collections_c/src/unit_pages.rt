//! The entries of a unit trie whose keys start with a text, page by page.
ghost use Rattle.std.specs.Prelude.{◌≡◌, ℕ, ℤ, ◌+◌, ◌<◌, ◌≤◌, ◌^◌, ◌++◌, [], List, All, Ok, IfOk, OnOk, drop, length, map, true, false};
ghost use Rattle.std.specs.Str.{IsUtf8};
ghost use Rattle.icu_char16trie.specs.Grammar.{IsTrieOf};
ghost use Rattle.icu_char16trie.specs.Listing.{AreToCome};
ghost use Rattle.icu_char16trie.specs.UnitMap.{UnitMap};
ghost use Rattle.icu_collections_c.specs.Inside.Pages.{Holds, IsPage, IsPushed};
ghost use Rattle.icu_collections_c.specs.UnitPages.{AnswersPage, below, shown_below};
ghost use Rattle.icu_collections_c.specs.UnitTries.{units_of};

use crate::buffers::write;
use crate::error::Error;
use crate::listing::Word;
use crate::units::trie_in;
use icu_char16trie::char16trie::Entries;
use icu_zerovec::MemoryError;
use std::alloc::{AllocError, Global};
use std::fmt::Write;

/// Consecutive entries of a listing.
#[derive(Drop)]
pub(crate) struct Page {
    words: Vec<Word>,
    texts: Vec<u8>,
    /// How many bytes the texts take, with that of the next entry if only its text did not fit.
    size: usize,
}

impl Page {
    /// Makes a page without entries.
    fn new(alloc: Global) -> Page
        ensures held { Holds [] result }
        ensures size { result.size ≡ 0 }
    {
        Page {
            words: Vec::new(alloc),
            texts: Vec::new(alloc),
            size: 0,
        }
    }

    /// Adds an entry, whose text is `prefix` and then `rest`.
    fn push(&mut self, prefix: &str, rest: &str, value: i32) -> Result<(), AllocError>
        ensures { OnOk result (IsPushed self.old (prefix.now ++ rest.now) value self.new) }
    {
        self.words.push(Word {
            start: self.texts.len(),
            size: prefix.len() + rest.len(),
            value,
        })?;
        self.texts.extend_from_slice(prefix.as_bytes())?;
        self.texts.extend_from_slice(rest.as_bytes())
    }
}

/// Skips entries. Returns false if there are fewer.
fn skip(entries: &mut Entries<'_>, count: u64) -> Result<bool, MemoryError>
    ensures there { result ≡ Ok true → (m : UnitMap) → AreToCome entries.old m
        → AreToCome entries.new (drop count m) }
    ensures fewer { result ≡ Ok false → (m : UnitMap) → AreToCome entries.old m
        → drop count m ≡ [] }
{
    for _skipped in 0..count {
        if !entries.advance()? {
            return Ok(false);
        }
    }
    Ok(true)
}

/// Returns the size of all texts with one more, whose two parts have these sizes.
fn size_with(size: usize, first: usize, second: usize) -> Result<usize, MemoryError>
    requires { first + second < 2 ^ 64 }
    ensures { IfOk result (λ sum. sum ≡ size + first + second) }
{
    match size.checked_add(first + second) {
        Some(sum) => Ok(sum),
        None => Err(MemoryError),
    }
}

/// Returns the next entries of a listing: as many as fit in so many words and bytes.
fn page_of(
    alloc: Global,
    entries: &mut Entries<'_>,
    prefix: &str,
    most_words: usize,
    most_bytes: usize,
) -> Result<Page, MemoryError>
    ensures keys { IfOk result (λ page. (m : UnitMap) → AreToCome entries.old m
        → IsPage (map (shown_below prefix.now) m) most_words most_bytes page) }
    ensures any { IfOk result (λ page. (items : List (List ℕ × ℤ)) × All (λ e. IsUtf8 e.0) items
        × IsPage items most_words most_bytes page) }
{
    let mut page = Page::new(alloc);
    for _listed in 0..most_words {
        if !entries.advance()? {
            return Ok(page);
        }
        let rest = entries.key();
        page.size = size_with(page.size, prefix.len(), rest.len())?;
        if page.size > most_bytes {
            return Ok(page);
        }
        page.push(prefix, rest, entries.value())?;
    }
    Ok(page)
}

/// Returns the entries whose keys start with a text, from one of them on, as many as fit.
fn page_below(
    alloc: Global,
    units: &[u8],
    prefix: &str,
    skipped: u64,
    most_words: usize,
    most_bytes: usize,
) -> Result<Page, MemoryError>
    ensures keys { IfOk result (λ page. (m : UnitMap) → IsTrieOf (units_of units.now) m
        → IsPage (drop skipped (below prefix.now m)) most_words most_bytes page) }
    ensures any { IfOk result (λ page. (items : List (List ℕ × ℤ)) × All (λ e. IsUtf8 e.0) items
        × IsPage items most_words most_bytes page) }
{
    let trie = trie_in(units);
    let mut cursor = trie.cursor();
    let Ok(()) = cursor.write_str(prefix) else {
        unreachable!();
    };
    let mut entries = cursor.entries(alloc);
    if !skip(&mut entries, skipped)? {
        return Ok(Page::new(alloc));
    }
    page_of(alloc, &mut entries, prefix, most_words, most_bytes)
}

/// Lists the entries whose keys start with `prefix`, a text in UTF-8, in unit order, without the
/// first `skipped` of them. Writes as many as fit and stops there. Returns how many it wrote, and
/// stores in `texts_size` how many bytes their texts take.
///
/// The text of an entry is its key in UTF-8, with each lone surrogate as U+FFFD. The text of a word
/// `w` is `texts[w.start..w.start + w.size]`.
///
/// If it fills `words`, more entries may follow: call it again with `skipped` larger by that
/// number. If it writes fewer and `texts_size` is at most the length of `texts`, no entry is left.
/// If it writes fewer and `texts_size` is above that length, the next text did not fit.
/// `texts_size` then includes that text, so texts of that size hold one more entry.
///
/// It takes time for the entries that it skips and writes, not for those that follow. For each of
/// them it opens at most as many nodes as there are units, even if the units are not a trie. The
/// entries are then those that the nodes have, as far as they can be read.
///
/// ICU: `UCharsTrie::Iterator` of a trie that is not at its root.
///
/// # Errors
/// Returns the number of [`Error::InvalidUtf8`] if `prefix` is not UTF-8, and of [`Error::NoMemory`]
/// if an allocation fails. Nothing is then written.
#[unsafe(no_mangle)]
pub extern "C" fn bks_units_list_below(
    alloc: Global,
    units: &[u8],
    prefix: &[u8],
    skipped: u64,
    words: &mut [Word],
    texts: &mut [u8],
    texts_size: &mut usize,
) -> i64
    ensures keys { (m : UnitMap) → IsTrieOf (units_of units.now) m
        → AnswersPage (IsUtf8 prefix.now) (drop skipped (below prefix.now m)) words.old words.new
        texts.old texts.new texts_size.old texts_size.new result }

    // For any units: texts in UTF-8, as many as fit.
    ensures any { (items : List (List ℕ × ℤ)) × All (λ e. IsUtf8 e.0) items
        × AnswersPage (IsUtf8 prefix.now) items words.old words.new texts.old texts.new
        texts_size.old texts_size.new result }
{
    let Ok(prefix) = str::from_utf8(prefix) else {
        return Error::InvalidUtf8.number();
    };
    match page_below(alloc, units, prefix, skipped, words.len(), texts.len()) {
        Ok(page) => {
            write(&page.words, words);
            write(&page.texts, texts);
            *texts_size = page.size;
            page.words.len() as i64
        }
        Err(_) => Error::NoMemory.number(),
    }
}
