//! Equality and hashing: two sets are equal, and have equal hashes, if they contain the same code
//! points.
ghost use Rattle.std.specs.Prelude.{◌≡◌, ℕ, ◌<◌, ◌↔◌, IsTrue, nat_eq};
ghost use Rattle.std.specs.Cmp.{partial_equiv_from_equiv};
ghost use Rattle.std.specs.Cmp.Lexicographic.{pointwise, nat_list_eq_equiv};
ghost use Rattle.std.specs.Hash as fed;
ghost use Rattle.std.specs.Hash.{items_Alike, same_Alike};
ghost use Rattle.std.proofs.lemmas.Bool.Decides.{Decides-eqb};
ghost use Rattle.icu_zerovec.specs.Cells.{one_write};
ghost use Rattle.icu_zerovec.specs.PackedBytes.{low_bytes};
ghost use Rattle.icu_zerovec.specs.CodePoints.{code_point_limit};
ghost use Rattle.icu_invlist.specs.InversionList.{holds};

use crate::codepointinvlist::cpinvlist::CodePointInversionList;
use std::hash::{Hash, Hasher};

/// Compares the packed boundaries, because each set has exactly one inversion list. Whether a set
/// borrows or owns its boundaries makes no difference.
impl<'data> PartialEq for CodePointInversionList<'data> {
    ghost eq = { pointwise nat_eq };

    ghost laws = { partial_equiv_from_equiv nat_list_eq_equiv };

    fn eq(&self, other: &Self) -> bool
        ensures value { result ≡ pointwise nat_eq self.now other.now }
        ensures same { IsTrue result ↔ (self.now ≡ other.now) }
        ensures members { IsTrue result
            ↔ ((c : ℕ) → c < code_point_limit → holds self.now c ≡ holds other.now c) }
    {
        self.packed().as_bytes() == other.packed().as_bytes()
    }
}

impl<'data> Eq for CodePointInversionList<'data> {
    ghost laws = { nat_list_eq_equiv };
}

impl<'data> Hash for CodePointInversionList<'data> {
    ghost hash_input = { fed.slice (one_write (low_bytes 3)) };

    ghost respects_eq = { (items_Alike (same_Alike (one_write (low_bytes 3)) Decides-eqb)).fed };

    fn hash<H: Hasher>(&self, state: &mut H) {
        self.packed().hash(state);
    }
}
