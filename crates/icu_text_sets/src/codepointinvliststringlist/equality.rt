//! Equality: two sets are equal if and only if they contain the same code points and strings.
ghost use Rattle.std.specs.Prelude.{◌≡◌, ◌&&◌, ◌<◌, ◌↔◌, ℕ, List, IsTrue, nat_eq};
ghost use Rattle.std.specs.Cmp.{partial_equiv_from_equiv};
ghost use Rattle.std.specs.Cmp.Lexicographic.{pointwise};
ghost use Rattle.icu_zerovec.specs.CodePoints.{code_point_limit};
ghost use Rattle.icu_invlist.specs.InversionList.{holds};
ghost use Rattle.icu_text_sets.specs.TextSet.{TextSet, same_set, is_among};
ghost use Rattle.icu_text_sets.specs.TextSetLaws.{same_set_equiv};

use crate::codepointinvliststringlist::set::CodePointInversionListAndStringList;

/// Compares the boundaries and the strings, because each set has exactly one list of either.
/// Whether a set borrows or owns its code points makes no difference.
impl<'data> PartialEq for CodePointInversionListAndStringList<'data> {
    ghost eq = { same_set };

    ghost laws = { partial_equiv_from_equiv same_set_equiv };

    fn eq(&self, other: &Self) -> bool
        ensures value { result ≡ same_set self.now other.now }
        ensures same { IsTrue result ↔ (self.now ≡ other.now) }
        ensures members { IsTrue result
            ↔ (((c : ℕ) → c < code_point_limit
            → holds self.now.code_points c ≡ holds other.now.code_points c)
            × ((text : List ℕ)
            → is_among self.now.strings text ≡ is_among other.now.strings text)) }
    {
        self.cp_inv_list == other.cp_inv_list && self.str_list == other.str_list
    }
}

impl<'data> Eq for CodePointInversionListAndStringList<'data> {
    ghost laws = { same_set_equiv };
}
