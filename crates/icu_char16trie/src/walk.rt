//! How a listing walks from one entry of a trie to the next.
ghost use Rattle.icu_zerovec.specs.Slice.{slice_values};
ghost use Rattle.std.specs.Prelude.{◌≡◌, ◌<◌, List, [], pos, Ok, IsSome, IfOk, OnOk, true, false};
ghost use Rattle.icu_char16trie.specs.UnitMap.{UnitMap};
ghost use Rattle.icu_char16trie.specs.UnitPlaces.{Stands, IsNear};

use crate::front::Front;
use crate::pending::Pending;
use crate::place::Place;
use crate::spelling::Spelling;
use icu_zerovec::{MemoryError, ZeroSlice};
use std::alloc::{AllocError, Global};

/// A walk over the entries of a trie: the entry that it reached last, and what is still to come.
#[derive(Debug, Drop)]
pub(crate) struct Walk<'a> {
    /// The key of the entry as it is spelled, and the postponed parts.
    pub pending: Pending<'a>,
    /// What comes next under that key, before the parts.
    pub front: Front,
    /// The value of the entry.
    pub value: i32,
    /// The text of the key, if it ends in a lead surrogate.
    pub ended: String,
}

impl<'a> Walk<'a> {
    ghost use Rattle.icu_char16trie.specs.Walk.{WalkGives, walk_text, IsWalked, TellsNext, AnswersEnd, IsValueOfNode, Gives, walk_work};
    ghost use Rattle.icu_char16trie.specs.Inside.Walking.{EndsKey, FindsEntry, IsSound};

    /// Creates the walk over the entries from a position.
    #[tactic(auto, using(crate::proofs::WalkLemmas::place_gives))]
    pub(crate) fn new(alloc: Global, units: ZeroSlice<'a, u16>, place: Place) -> Self
        requires { IsNear place }
        ensures entries { (m : UnitMap) → Stands (slice_values units.entry) place m
            → WalkGives result m }
        ensures text { walk_text result ≡ [] }
        ensures value { result.value ≡ pos 0 }
        ensures units { slice_values result.pending.units ≡ slice_values units.entry }
        ensures sound { IsSound result }
    {
        let pending = Pending {
            units,
            spelling: Spelling::new(alloc),
            node: None,
            parts: Vec::new(alloc),
        };
        Walk {
            pending,
            front: Front::At(place),
            value: 0,
            ended: String::new(alloc),
        }
    }

    /// Returns the text of the key.
    #[inline]
    pub(crate) fn text(&self) -> &str
        ensures { result.now ≡ walk_text self.now }
    {
        match self.pending.spelling.held {
            None => &self.pending.spelling.text,
            Some(_lead) => &self.ended,
        }
    }

    /// If the key ends in a lead surrogate, writes its text with U+FFFD instead.
    #[inline(always)]
    fn end_key(&mut self) -> Result<(), AllocError>
        ensures { OnOk result (EndsKey self.old self.new) }
    {
        let Some(_lead) = self.pending.spelling.held else {
            return Ok(());
        };
        self.ended.clear();
        self.ended.push_str(&self.pending.spelling.text)?;
        self.ended.push(char::REPLACEMENT_CHARACTER)?;
        Ok(())
    }

    /// Moves to the next entry and returns true, or returns false if there is none. Reads at most
    /// as many nodes as there are units: in a trie a node without a value leads to a later node.
    fn find_entry(&mut self) -> Result<bool, AllocError>
        requires { IsSound self.old }
        ensures done { IsWalked self.old → result ≡ Ok false }
        ensures finds { IfOk result (λ found. FindsEntry self.old found self.new) }
    {
        let front = self.front;
        self.pending.open_front(front)?;
        for _opened in 0..self.pending.units.len() {
            if !self.pending.go_to_node()? {
                return Ok(false);
            }
            let (front, value) = self.pending.read_node();
            if let Some(value) = value {
                self.front = front;
                self.value = value;
                self.end_key()?;
                return Ok(true);
            }
            self.pending.open_front(front)?;
        }
        Ok(false)
    }

    /// Ends the walk: nothing is left, the text is empty and the value is 0.
    fn end(&mut self)
        ensures walked { IsWalked self.new }
        ensures text { walk_text self.new ≡ [] }
        ensures value { self.new.value ≡ pos 0 }
        ensures units { self.new.pending.units ≡ self.old.pending.units }
        ensures sound { IsSound self.new }
    {
        self.pending.parts.clear();
        self.pending.spelling.text.clear();
        self.pending.spelling.held = None;
        self.front = Front::At(Place::Nowhere);
        self.value = 0;
    }

    /// Moves to the next entry and returns true. In all other cases nothing is left.
    pub(crate) fn next_entry(&mut self) -> Result<bool, MemoryError>
        requires { IsSound self.old }
        ensures tells { (m : UnitMap) → WalkGives self.old m → TellsNext m result self.new }
        ensures ended { AnswersEnd result self.new }
        ensures done { IsWalked self.old → result ≡ Ok false }
        ensures value { result ≡ Ok true → IsValueOfNode self.new }
        ensures units { IfOk result (λ found. self.new.pending.units ≡ self.old.pending.units) }
        ensures sound { IsSound self.new }
        ensures work { result ≡ Ok true → walk_work self.new < walk_work self.old }
    {
        match self.find_entry() {
            Ok(true) => Ok(true),
            Ok(false) => {
                self.end();
                Ok(false)
            }
            Err(_refused) => {
                self.end();
                Err(MemoryError)
            }
        }
    }

    /// Moves to the next entry and returns it, with a text of its own.
    ///
    /// After an `Err` nothing is left.
    // rustc calls it, which takes longer than a step.
    #[inline(always)]
    pub(crate) fn next_item(&mut self, alloc: Global) -> Option<Result<(String, i32), MemoryError>>
        requires { IsSound self.old }
        ensures gives { Gives self.old result self.new }
        ensures sound { IsSound self.new }
        ensures work { IsSome result → walk_work self.new < walk_work self.old }
    {
        let units = self.pending.units;
        match self.next_entry() {
            Ok(true) => {}
            Ok(false) => return None,
            Err(error) => {
                self.pending.units = units;
                return Some(Err(error));
            }
        }
        let Ok(text) = String::from_str(alloc, self.text()) else {
            self.end();
            return Some(Err(MemoryError));
        };
        Some(Ok((text, self.value)))
    }
}
