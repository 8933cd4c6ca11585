//! Listing and counting the entries of unit tries.
ghost use Rattle.std.specs.Prelude.{◌≡◌, ◌↔◌, ◌<◌, ◌≤◌, ◌-◌, ◌^◌, ◌⊎◌, Some, None, length, min, ℕ, ℤ, List, [], ◌∷◌, ◌++◌, IfOk, OnOk};
ghost use Rattle.icu_char16trie.specs.Grammar.{IsTrieOf};
ghost use Rattle.icu_char16trie.specs.UnitMap.{UnitMap};
ghost use Rattle.icu_collections_c.specs.Inside.Listed.{HasSameRoom, IsKept, IsKeptOut, IsListed, IsListingOf};
ghost use Rattle.icu_collections_c.specs.Listing.{AnswersCount, AnswersListing, AreNoTrie};
ghost use Rattle.icu_collections_c.specs.UnitTries.{units_of};

use crate::buffers::write;
use crate::error::Error;
use crate::units::trie_in;
use icu_zerovec::MemoryError;
use std::alloc::{AllocError, Global};

/// The most entries, and the most bytes of texts, that can be returned: `i64::MAX`.
const MOST: usize = 0x7FFF_FFFF_FFFF_FFFF;

/// An entry of a unit trie: the start and size of its text among the bytes of all texts, and its
/// value.
#[repr(C)]
#[derive(Clone, Copy)]
pub struct Word {
    /// The offset of the first byte of the text.
    pub start: usize,
    /// The size of the text in bytes.
    pub size: usize,
    pub value: i32,
}

/// The count of the entries so far, and the first entries, as many as fit.
#[derive(Drop)]
pub(crate) struct Listing {
    /// How many entries fit, and how many bytes of texts.
    most_words: usize,
    most_bytes: usize,
    words: Vec<Word>,
    texts: Vec<u8>,
    /// How many entries there are, and how many bytes their texts take. Both stop at `usize::MAX`.
    count: usize,
    size: usize,
}

impl Listing {
    /// Makes a listing with no entries.
    fn new(alloc: Global, most_words: usize, most_bytes: usize) -> Listing
        ensures { IsListingOf [] most_words most_bytes result }
    {
        Listing {
            most_words,
            most_bytes,
            words: Vec::new(alloc),
            texts: Vec::new(alloc),
            count: 0,
            size: 0,
        }
    }

    /// Stores an entry if it fits. `end` is the offset at which its text ends.
    fn keep(&mut self, text: &str, value: i32, end: usize) -> Result<(), AllocError>
        ensures fits { OnOk result (self.old.count < self.old.most_words → end ≤ self.old.most_bytes
            → IsKept self.old text.now value self.new) }
        ensures full { OnOk result ((self.old.most_words ≤ self.old.count)
            ⊎ (self.old.most_bytes < end) → IsKeptOut self.old self.new) }
        ensures rooms { OnOk result (HasSameRoom self.old self.new) }
    {
        if self.count >= self.most_words || end > self.most_bytes {
            return Ok(());
        }
        self.words.push(Word {
            start: self.size,
            size: text.len(),
            value,
        })?;
        self.texts.extend_from_slice(text.as_bytes())
    }

    /// Adds one more entry.
    fn add(&mut self, text: &str, value: i32) -> Result<(), AllocError>
        requires few { self.old.most_bytes < 2 ^ 63 }
        requires words { self.old.most_words < 2 ^ 63 }
        ensures ok { OnOk result ((items : List (List ℕ × ℤ))
            → IsListingOf items self.old.most_words self.old.most_bytes self.old
            → IsListingOf (items ++ (text.now, value) ∷ []) self.old.most_words self.old.most_bytes
            self.new) }
    {
        let end = self.size.saturating_add(text.len());
        self.keep(text, value, end)?;
        self.count = self.count.saturating_add(1);
        self.size = end;
        Ok(())
    }
}

/// Lists the entries of the unit trie in the bytes.
fn listed(
    alloc: Global,
    units: &[u8],
    most_words: usize,
    most_bytes: usize,
) -> Result<Listing, MemoryError>
    requires few { most_bytes < 2 ^ 63 }
    requires words { most_words < 2 ^ 63 }
    ensures { IfOk result (IsListed (units_of units.now) most_words most_bytes) }
{
    let trie = trie_in(units);
    let mut listing = Listing::new(alloc, most_words, most_bytes);
    for item in trie.iter2(alloc) {
        let (text, value) = item?;
        listing.add(text.as_str(), value)?;
    }
    Ok(listing)
}

/// Counts the entries of the unit trie in the bytes. `None` if the units are not a trie.
fn counted(alloc: Global, units: &[u8]) -> Result<Option<u64>, MemoryError>
    ensures some { IfOk result (λ told. (m : UnitMap) → IsTrieOf (units_of units.now) m
        → told ≡ Some (min (length m) (2 ^ 64 - 1))) }
    ensures none { IfOk result (λ told. told ≡ None ↔ AreNoTrie (units_of units.now)) }
{
    trie_in(units).count_entries(alloc)
}

/// Returns how many entries a unit trie has, or 2^63 - 1 if it has more. It visits each node twice,
/// however many entries there are. So call it before you list an untrusted unit trie.
///
/// # Errors
/// Returns the number of [`Error::InvalidTrie`] if the units are not a trie, and of
/// [`Error::NoMemory`] if an allocation fails.
#[unsafe(no_mangle)]
pub extern "C" fn bks_units_count(alloc: Global, units: &[u8]) -> i64
    ensures { AnswersCount (units_of units.now) result }
{
    match counted(alloc, units) {
        Ok(Some(count)) => count.min(MOST as u64) as i64,
        Ok(None) => Error::InvalidTrie.number(),
        Err(_) => Error::NoMemory.number(),
    }
}

/// Lists the entries of a unit trie in unit order. Returns how many there are, and stores in
/// `texts_size` how many bytes their texts take.
///
/// The text of an entry is its key in UTF-8, with each lone surrogate as U+FFFD. `words` receives
/// the first entries: as many as fit in `words` and whose texts fit in `texts`. The text of a word
/// `w` is `texts[w.start..w.start + w.size]`.
///
/// An untrusted unit trie of 4 k units may have 2^k entries: call [`bks_units_count`] first. If the
/// units are not a trie, the entries are those that its nodes have, as far as they can be read.
///
/// ICU: `UCharsTrie::Iterator`.
///
/// # Errors
/// Returns the number of [`Error::TooLarge`] if there are 2^63 entries or bytes of texts or more,
/// and of [`Error::NoMemory`] if an allocation fails. Nothing is then written.
#[unsafe(no_mangle)]
pub extern "C" fn bks_units_list(
    alloc: Global,
    units: &[u8],
    words: &mut [Word],
    texts: &mut [u8],
    texts_size: &mut usize,
) -> i64
    ensures { AnswersListing (units_of units.now) words.old words.new texts.old texts.new
        texts_size.old texts_size.new result }
{
    let Ok(listing) = listed(alloc, units, words.len(), texts.len()) else {
        return Error::NoMemory.number();
    };
    if listing.count > MOST || listing.size > MOST {
        return Error::TooLarge.number();
    }
    write(&listing.words, words);
    write(&listing.texts, texts);
    *texts_size = listing.size;
    listing.count as i64
}
