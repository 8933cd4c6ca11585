//! An iterator over the pieces of a text that are in a frozen set and those that are not.
ghost use Rattle.std.specs.Prelude.{◌≡◌, List, []};
ghost use Rattle.std.specs.Option.{MatchOption};
ghost use Rattle.std.specs.Iterator.{Drains, item_count};
ghost use Rattle.icu_frozen_sets.specs.Spans.{AreSpans, GivesSpan, IsFirstSpan, TextToCut};

use crate::frozen::FrozenCodePointSet;
use std::marker::Model;

/// A piece of a text whose characters are all in a set, or all outside it.
#[derive(Clone, Copy, Debug)]
pub struct Span<'t> {
    /// The piece, which is not empty.
    pub text: &'t str,
    /// Whether the set contains its characters.
    pub is_held: bool,
}

/// An iterator over the spans of a text, from its start to its end.
/// [`spans`](crate::frozen::FrozenCodePointSet::spans) returns it.
///
/// # Contract
/// In contracts, it is the text that is left and the boundaries of the set.
#[derive(Debug, Drop)]
pub struct Spans<'s, 't> {
    set: &'s FrozenCodePointSet,
    rest: &'t str,
}

impl<'s, 't> Model for Spans<'s, 't> {
    ghost use Rattle.icu_frozen_sets.specs.Spans.{TextToCut};

    ghost Value = { TextToCut };

    ghost view = { λ a. record { set = a.set.now; text = a.rest.now } };
}

/// Returns the first span of a text and the rest of the text, or `None` if the text is empty.
fn first_span<'t>(set: &FrozenCodePointSet, text: &'t str) -> Option<(Span<'t>, &'t str)>
    ensures { MatchOption result (text.now ≡ [])
        (λ found. IsFirstSpan set.now text.now found.0 found.1.now) }
{
    let first = text.chars().next()?;
    let is_held = set.contains(first);
    let end = set.span(text, is_held);
    let span = Span {
        text: &text[..end],
        is_held,
    };
    Some((span, &text[end..]))
}

impl<'s, 't> Iterator for Spans<'s, 't> {
    type Item = Span<'t>;

    ghost next_gives = { GivesSpan };

    ghost remaining = { item_count (λ left. left.text) };

    fn next(&mut self) -> Option<Span<'t>> {
        let (span, rest) = first_span(self.set, self.rest)?;
        self.rest = rest;
        Some(span)
    }
}

/// Cutting a text into spans.
impl FrozenCodePointSet {
    /// Returns an iterator over the spans of `text`, from its start to its end: its longest pieces
    /// whose characters are all in the set, and all outside it, in turn.
    ///
    /// Joined, the spans are the text. None is empty, and each is a slice of `text`, so nothing is
    /// allocated.
    ///
    /// ```
    /// for span in letters.spans("ab, c") {
    ///     // "ab" is held, ", " is not, "c" is
    /// }
    /// ```
    pub fn spans<'s, 't>(&'s self, text: &'t str) -> Spans<'s, 't>
        ensures gives { result ≡ record { set = self.now; text = text.now } }
        ensures spans { (spans : List Span) → Drains GivesSpan result spans
            → AreSpans self.now text.now spans }
    {
        Spans {
            set: self,
            rest: text,
        }
    }
}
