// What the example definition means, and which values have which sorts.
ghost use Rattle.std.specs.Prelude.{◌≡◌, ◌↔◌, ℤ, pos, true, codes, IsTrue, List, []};
ghost use Rattle.kp_kore.specs.Syntax.{Text, KorePattern, KoreSort, exists, forall};
ghost use Rattle.kp_kore.specs.Value.{Value, whole, Values, constructed, HasSort};
ghost use Rattle.kp_kore.specs.Instance.{Valuation, IsTrueUnder};
ghost use Rattle.kp_kore.specs.Theory.{IsTheoryOf};
ghost use Rattle.kp_toys.specs.Toys.{toys_definition, sort_int, sort_s, sort_e, plain_sort};
ghost use Rattle.kp_toys.specs.ToysTheory.{toys, toys_signature};

/// The definition means the example's signature and its ten rules in order, one of them foreign.
pub fn the_definition_means_the_theory()
    ensures { IsTheoryOf toys_definition (codes "TOYS") toys }
{}

/// The values of SortInt are the whole numbers.
pub fn whole_numbers_are_the_values_of_their_sort()
    ensures { (u : Value) → HasSort toys_signature sort_int u ↔ ((k : ℤ) × (u ≡ whole k)) }
{}

/// A value of another sort's head hasn't the sort; a whole number is of SortE, above its own sort.
pub fn values_keep_to_their_sorts()
    ensures no_state { (k : ℤ) → ¬ HasSort toys_signature sort_s (whole k) }
    ensures no_number { (c : Text) (us : Values) → ¬ HasSort toys_signature sort_int (constructed c us) }
    ensures above { (k : ℤ) → HasSort toys_signature sort_e (whole k) }
{}

/// A sort without heads has no values: what exists in it is false, what holds for all of it is true.
pub fn a_sort_without_heads_is_empty()
    ensures empty { (u : Value) → ¬ HasSort toys_signature (plain_sort (codes "SortNope")) u }
    ensures none_exists { (v : Valuation) (x : Text) (p : KorePattern) →
        ¬ IsTrueUnder toys_signature v (exists sort_s x (plain_sort (codes "SortNope")) p) }
    ensures holds_for_all { (v : Valuation) (x : Text) (p : KorePattern) →
        IsTrueUnder toys_signature v (forall sort_s x (plain_sort (codes "SortNope")) p) }
{}
