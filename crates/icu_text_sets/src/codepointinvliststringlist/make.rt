//! Constructors of sets of code points and strings.
ghost use Rattle.std.specs.Prelude.{◌≡◌, ◌+◌, ◌≤◌, ◌++◌, ℕ, List, [], ◌∷◌, length, map, true, Some, None, IfOk, IfErr, OnOk, IfSome, option_map};
ghost use Rattle.std.specs.String.{string_bytes};
ghost use Rattle.std.specs.Iterator.{Drains, IsFinite};
ghost use Rattle.icu_text_sets.specs.TextSet.{TextSet, only_char, is_among, texts_of, IsStringList, HoldsTexts};
ghost use Rattle.icu_text_sets.specs.TextFaults.{strings_fault, fault_of};
ghost use Rattle.icu_text_sets.specs.Inside.StringFaults.{fault_at, fault_length, kind_of};

use crate::codepointinvliststringlist::error::InvalidStringList;
use crate::codepointinvliststringlist::set::{CodePointInversionListAndStringList, only_char};
use icu_invlist::codepointinvlist::{CodePointInversionList, CodePointInversionListBuilder};
use icu_zerovec::MemoryError;
use std::alloc::Global;
use std::cmp::Ordering;

/// The fault of a string in a list.
#[derive(Clone, Copy)]
enum Fault {
    OneCodePoint,
    Repeated,
    Unsorted,
}

/// Returns the fault of a string, given the next one if there is one.
fn fault_before(text: &str, next: Option<&String>) -> Option<Fault>
    ensures { result
        ≡ kind_of text.now (option_map (λ s. string_bytes s.now) next.entry) }
{
    if only_char(text).is_some() {
        return Some(Fault::OneCodePoint);
    }
    match text.cmp(next?.as_str()) {
        Ordering::Less => None,
        Ordering::Equal => Some(Fault::Repeated),
        Ordering::Greater => Some(Fault::Unsorted),
    }
}

/// Returns the first fault in a list and the index of its string.
fn first_fault(strings: &[String]) -> Option<(usize, Fault)>
    ensures first { strings_fault (texts_of strings.now)
        ≡ option_map (λ x. fault_at (texts_of strings.now) x.0 x.1) result }
    ensures within { IfSome result (λ x. x.0 + fault_length x.1 ≤ length strings.now) }
{
    for (i, text) in strings.iter().enumerate() {
        if let Some(fault) = fault_before(text, strings.get(i + 1)) {
            return Some((i, fault));
        }
    }
    None
}

/// Returns the error for a fault. Moves the strings at fault out of the list.
fn refused(mut strings: Vec<String>, place: usize, fault: Fault) -> InvalidStringList
    requires { place + fault_length fault ≤ length strings.items }
    ensures { fault_of result ≡ fault_at (texts_of strings.items) place fault }
{
    match fault {
        Fault::OneCodePoint => InvalidStringList::InvalidStringLength(strings.swap_remove(place)),
        Fault::Repeated => InvalidStringList::StringListNotUnique(strings.swap_remove(place)),
        Fault::Unsorted => {
            let next = strings.remove(place + 1);
            InvalidStringList::StringListNotSorted(strings.swap_remove(place), next)
        }
    }
}

/// Appends a copy of `text` to `strings`.
fn push_text(alloc: Global, strings: &mut Vec<String>, text: &str) -> Result<(), MemoryError>
    ensures { OnOk result
        (texts_of strings.new.items ≡ texts_of strings.old.items ++ text.now ∷ []) }
{
    let string = String::from_str(alloc, text)?;
    strings.push(string)?;
    Ok(())
}

/// Sorts strings by their bytes and removes duplicates, as in a set.
fn sort_strings(strings: &mut Vec<String>)
    requires { (t : List ℕ) → is_among (texts_of strings.old.items) t ≡ true → only_char t ≡ None }
    ensures list { IsStringList (texts_of strings.new.items) }
    ensures holds { (t : List ℕ)
        → is_among (texts_of strings.new.items) t ≡ is_among (texts_of strings.old.items) t }
{
    strings.sort_unstable();
    strings.dedup();
}

/// Constructors.
impl<'data> CodePointInversionListAndStringList<'data> {
    /// Returns the set with these code points and strings, which it takes over. This does not
    /// allocate.
    ///
    /// # Errors
    /// Returns the first fault in `str_list`, with the strings at fault. Each string is tested in
    /// this order:
    /// - `InvalidStringLength` if the string has exactly one code point,
    /// - `StringListNotUnique` if the next string is equal,
    /// - `StringListNotSorted` with both strings if the next string is less, compared by bytes.
    pub fn try_from(
        cp_inv_list: CodePointInversionList<'data>,
        str_list: Vec<String>,
    ) -> Result<Self, InvalidStringList>
        ensures ok { IfOk result
            (λ s. (s ≡ record
            { code_points = cp_inv_list.entry; strings = texts_of str_list.items })
            × (strings_fault (texts_of str_list.items) ≡ None)) }
        ensures err { IfErr result
            (λ e. strings_fault (texts_of str_list.items) ≡ Some (fault_of e)) }
    {
        match first_fault(&str_list) {
            None => Ok(CodePointInversionListAndStringList {
                cp_inv_list,
                str_list,
            }),
            Some((place, fault)) => Err(refused(str_list, place, fault)),
        }
    }

    /// Returns the set of the texts that `iter` yields.
    ///
    /// The texts may be in any order and may repeat. A text of exactly one character becomes a code
    /// point, and any other text becomes a string. The iterator must be finite.
    ///
    /// ```
    /// let texts = ["a", "abc", "xyz", "abc"];
    /// let set = CodePointInversionListAndStringList::from_iter(alloc, texts.iter().copied())?;
    /// // set.contains('a') is true, and set.strings() is ["abc", "xyz"]
    /// ```
    ///
    /// # Errors
    /// Returns `MemoryError` if an allocation fails. The iterator is then dropped with its
    /// remaining items.
    pub fn from_iter<'text, I: Iterator<Item = &'text str> + Drop>(
        alloc: Global,
        iter: I,
    ) -> Result<Self, MemoryError>
        requires can { I.can_next iter }
        requires finite { IsFinite (I.remaining iter) }
        ensures ok { IfOk result
            (λ s. (texts : List _) × Drains I.next_gives iter texts
            × HoldsTexts (map (λ t. t.now) texts) s) }
    {
        let mut builder = CodePointInversionListBuilder::new(alloc);
        let mut str_list = Vec::new(alloc);
        for text in iter {
            match only_char(text) {
                Some(c) => builder.add_char(c)?,
                None => push_text(alloc, &mut str_list, text)?,
            }
        }
        sort_strings(&mut str_list);
        Ok(CodePointInversionListAndStringList {
            cp_inv_list: builder.build()?,
            str_list,
        })
    }
}
