//! The set of code points and strings, and its queries.
ghost use Rattle.std.specs.Prelude.{◌≡◌, ◌≤◌, ◌==◌, ◌&&◌, ℕ, List, [], ◌∷◌, length, not, IfOk, false};
ghost use Rattle.std.specs.Result.{is_ok};
ghost use Rattle.std.specs.Option.{option_map, IfSome};
ghost use Rattle.std.specs.Str.{chars, is_utf8, IsUtf8};
ghost use Rattle.icu_zerovec.specs.CodePoints.{code_point_limit};
ghost use Rattle.icu_invlist.specs.InversionList.{holds};
ghost use Rattle.icu_text_sets.specs.TextSet.{TextSet, only_char, is_among, texts_of, IsStringList, member, member_count};
ghost use Rattle.icu_text_sets.specs.Inside.StringPlaces.{IsPlaceOf};

use icu_invlist::codepointinvlist::CodePointInversionList;
use icu_zerovec::MemoryError;
use std::alloc::Global;
use std::marker::Model;

/// A set of code points, which may include surrogates, and of strings, like ICU's UnicodeSet. A
/// string is any text, even the empty one, that does not have exactly one code point.
///
/// It borrows or owns its code points, and owns its strings. The strings are sorted by their bytes,
/// without duplicates.
///
/// ```
/// let set = CodePointInversionListAndStringList::from_iter(alloc, ["a", "abc", "xyz", "abc"].into_iter())?;
/// // set.contains('a') and set.contains_str("abc") are true, and set.size() is 3
/// ```
///
/// # Contract
/// In contracts, a set is the boundaries of its code points and the bytes of its strings.
#[derive(Debug, Drop)]
pub struct CodePointInversionListAndStringList<'data> {
    pub(super) cp_inv_list: CodePointInversionList<'data>,
    pub(super) str_list: Vec<String>,
}

impl<'data> Model for CodePointInversionListAndStringList<'data> {
    ghost use Rattle.icu_text_sets.specs.TextSet.{TextSet, texts_of, IsStringList};

    ghost Value = { TextSet };

    ghost view = { λ a.
        record { code_points = a.cp_inv_list; strings = texts_of a.str_list.items } };

    ghost invariant = { λ a. IsStringList (texts_of a.str_list.items) };
}

/// Returns the character of a text that has exactly one.
pub(super) fn only_char(text: &str) -> Option<char>
    ensures only { result ≡ only_char text.now }
    ensures utf8 { IsUtf8 text.now }
{
    let mut chars = text.chars();
    let first = chars.next()?;
    match chars.next() {
        None => Some(first),
        Some(_) => None,
    }
}

/// Returns the index of a text among the strings of a set, or as `Err` the index at which it could
/// be inserted.
pub(super) fn find(strings: &[String], text: &str) -> Result<usize, usize>
    requires { IsStringList (texts_of strings.now) }
    ensures found { is_ok result ≡ is_among (texts_of strings.now) text.now }
    ensures place { IsPlaceOf (texts_of strings.now) text.now result }
{
    strings.binary_search_by(|string| string.as_str().cmp(text))
}

/// Returns copies of the strings.
fn copied(alloc: Global, strings: &[String]) -> Result<Vec<String>, MemoryError>
    ensures { IfOk result (λ v. texts_of v.items ≡ texts_of strings.now) }
{
    let mut copies = Vec::with_capacity(alloc, strings.len())?;
    for string in strings {
        copies.push(String::from_str(alloc, string.as_str())?)?;
    }
    Ok(copies)
}

/// Copies.
impl<'data> CodePointInversionListAndStringList<'data> {
    /// Returns an equal set that owns its code points and strings.
    ///
    /// # Errors
    /// Returns `MemoryError` if an allocation fails.
    pub fn try_clone(
        &self,
        alloc: Global,
    ) -> Result<CodePointInversionListAndStringList<'static>, MemoryError>
        ensures ok { IfOk result (λ s. s ≡ self.now) }
    {
        Ok(CodePointInversionListAndStringList {
            cp_inv_list: self.cp_inv_list.try_clone(alloc)?,
            str_list: copied(alloc, &self.str_list)?,
        })
    }
}

/// Queries. None of them allocates.
impl<'data> CodePointInversionListAndStringList<'data> {
    /// Returns the number of members of the set: its code points, including surrogates, and its
    /// strings.
    pub fn size(&self) -> usize
        ensures { result ≡ member_count self.now }
    {
        self.cp_inv_list.size() + self.str_list.len()
    }

    /// Returns true if the set has at least one string.
    pub fn has_strings(&self) -> bool
        ensures { result ≡ not (length self.now.strings == 0) }
    {
        !self.str_list.is_empty()
    }

    /// Returns true if the set contains the text: as a code point if it has exactly one character,
    /// and otherwise as a string.
    pub fn contains_str(&self, text: &str) -> bool
        ensures { result ≡ member self.now text.now }
    {
        match only_char(text) {
            Some(c) => self.cp_inv_list.contains(c),
            None => find(&self.str_list, text).is_ok(),
        }
    }

    /// Returns true if `bytes` are the UTF-8 of a text that the set contains, as defined by
    /// [`contains_str`](Self::contains_str). Returns false if they are not valid UTF-8.
    pub fn contains_utf8(&self, bytes: &[u8]) -> bool
        ensures held { result ≡ is_utf8 bytes.now && member self.now bytes.now }
        ensures text { IsUtf8 bytes.now → result ≡ member self.now bytes.now }
    {
        match str::from_utf8(bytes) {
            Ok(text) => self.contains_str(text),
            Err(_) => false,
        }
    }

    /// Returns true if the set contains the code point `cp`. Returns false for any number above
    /// 0x10FFFF.
    pub fn contains32(&self, cp: u32) -> bool
        ensures held { result ≡ holds self.now.code_points cp }
        ensures far { code_point_limit ≤ cp → result ≡ false }
    {
        self.cp_inv_list.contains32(cp)
    }

    /// Returns true if the set contains the character `ch`.
    pub fn contains(&self, ch: char) -> bool
        ensures { result ≡ holds self.now.code_points ch }
    {
        self.cp_inv_list.contains(ch)
    }

    /// Returns a reference to the code points of the set.
    pub fn code_points(&self) -> &CodePointInversionList<'data>
        ensures { result.now ≡ self.now.code_points }
    {
        &self.cp_inv_list
    }

    /// Returns a reference to the strings of the set, sorted by their bytes.
    pub fn strings(&self) -> &[String]
        ensures strings { texts_of result.now ≡ self.now.strings }
        ensures valid { IsStringList self.now.strings }
    {
        self.str_list.as_slice()
    }
}
