//! Equality and hashing of vectors, by their lists of values, for every lawful type.
ghost use Rattle.std.specs.Prelude.{◌≡◌, ◌↔◌, IsTrue, [], ◌∷◌};
ghost use Rattle.std.specs.Cmp.{on_equiv, on_per, partial_equiv_from_equiv};
ghost use Rattle.std.specs.Cmp.Lexicographic.{pointwise, lists_per, lists_equiv, nat_list_eq_equiv, bytes_decides};
ghost use Rattle.std.specs.Hash as fed;
ghost use Rattle.std.specs.Hash.{on_Alike, items_Alike, same_Alike};
ghost use Rattle.icu_zerovec.specs.Cells.{same_bytes, one_write};

use crate::cells;
use crate::ule::AsULE;
use crate::vec::ZeroVec;
use std::hash::{Hash, Hasher};

impl<'a, T: AsULE> PartialEq for ZeroVec<'a, T> {
    ghost eq = { pointwise (same_bytes T.pack) };

    ghost laws = { lists_per (on_per T.pack (partial_equiv_from_equiv nat_list_eq_equiv)) };

    fn eq(&self, other: &Self) -> bool
        ensures value { result ≡ pointwise (same_bytes T.pack) self.now other.now }
        ensures same { IsTrue result ↔ (self.now ≡ other.now) }
    {
        cells::same::<T>(self.bytes(), other.bytes())
    }
}

impl<'a, T: AsULE> Eq for ZeroVec<'a, T> {
    ghost laws = { lists_equiv (on_equiv T.pack nat_list_eq_equiv) };
}

impl<'a, T: AsULE> Hash for ZeroVec<'a, T> {
    ghost hash_input = { fed.slice (one_write T.pack) };

    ghost respects_eq = { (items_Alike
        (on_Alike T.pack (same_Alike (λ b. b ∷ []) bytes_decides))).fed };

    fn hash<H: Hasher>(&self, state: &mut H) {
        cells::feed::<T, H>(self.bytes(), state);
    }
}
