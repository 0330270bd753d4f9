use crate::pattern::Pattern;
use crate::sort::Sort;
use std::slice;

impl Pattern {
    ghost use Rattle.std.specs.Prelude.{◌≡◌, ◌↔◌, IsTrue};
    ghost use Rattle.kp_kore.specs.Apart.{form_of, text_of, first_sorts, second_sorts, first_parts, second_parts, HaveSameHeads};
    ghost use Rattle.kp_kore.specs.View.{view, sorts_view, patterns_view};

    /// The number of its form, in the order of `Pattern`'s.
    fn form(&self) -> usize
        ensures { result ≡ form_of (view self.now) }
    {
        match self {
            Pattern::Variable { .. } => 0,
            Pattern::SetVariable { .. } => 1,
            Pattern::Application { .. } => 2,
            Pattern::StringLiteral { .. } => 3,
            Pattern::Literal { .. } => 4,
            Pattern::Top { .. } => 5,
            Pattern::Bottom { .. } => 6,
            Pattern::Not { .. } => 7,
            Pattern::Next { .. } => 8,
            Pattern::And { .. } => 9,
            Pattern::Or { .. } => 10,
            Pattern::Implies { .. } => 11,
            Pattern::Iff { .. } => 12,
            Pattern::Rewrites { .. } => 13,
            Pattern::Exists { .. } => 14,
            Pattern::Forall { .. } => 15,
            Pattern::Ceil { .. } => 16,
            Pattern::Floor { .. } => 17,
            Pattern::Equals { .. } => 18,
            Pattern::In { .. } => 19,
            Pattern::Mu { .. } => 20,
            Pattern::Nu { .. } => 21,
        }
    }

    /// Its name, symbol or text; empty where it has none.
    fn text(&self) -> &str
        ensures { result.now ≡ text_of (view self.now) }
    {
        match self {
            Pattern::Variable { name, .. }
            | Pattern::SetVariable { name, .. }
            | Pattern::Application { symbol: name, .. }
            | Pattern::StringLiteral { text: name }
            | Pattern::Literal { text: name, .. }
            | Pattern::Exists { name, .. }
            | Pattern::Forall { name, .. }
            | Pattern::Mu { name, .. }
            | Pattern::Nu { name, .. } => name.as_str(),
            Pattern::Top { .. }
            | Pattern::Bottom { .. }
            | Pattern::Not { .. }
            | Pattern::Next { .. }
            | Pattern::And { .. }
            | Pattern::Or { .. }
            | Pattern::Implies { .. }
            | Pattern::Iff { .. }
            | Pattern::Rewrites { .. }
            | Pattern::Ceil { .. }
            | Pattern::Floor { .. }
            | Pattern::Equals { .. }
            | Pattern::In { .. } => "",
        }
    }

    /// Its sorts: those of a symbol, or the first and the second of those that its form has.
    fn sorts(&self) -> (&[Sort], &[Sort])
        ensures first { sorts_view result.0.now ≡ first_sorts (view self.now) }
        ensures second { sorts_view result.1.now ≡ second_sorts (view self.now) }
    {
        match self {
            Pattern::Application { sorts, .. } => (sorts, &[]),
            Pattern::StringLiteral { .. } => (&[], &[]),
            Pattern::Variable { sort, .. }
            | Pattern::SetVariable { sort, .. }
            | Pattern::Literal { sort, .. }
            | Pattern::Top { sort }
            | Pattern::Bottom { sort }
            | Pattern::Not { sort, .. }
            | Pattern::Next { sort, .. }
            | Pattern::And { sort, .. }
            | Pattern::Or { sort, .. }
            | Pattern::Implies { sort, .. }
            | Pattern::Iff { sort, .. }
            | Pattern::Rewrites { sort, .. }
            | Pattern::Mu { sort, .. }
            | Pattern::Nu { sort, .. } => (slice::from_ref(sort), &[]),
            Pattern::Exists {
                sort: first,
                name_sort: second,
                ..
            }
            | Pattern::Forall {
                sort: first,
                name_sort: second,
                ..
            }
            | Pattern::Ceil {
                argument_sort: first,
                sort: second,
                ..
            }
            | Pattern::Floor {
                argument_sort: first,
                sort: second,
                ..
            }
            | Pattern::Equals {
                argument_sort: first,
                sort: second,
                ..
            }
            | Pattern::In {
                argument_sort: first,
                sort: second,
                ..
            } => (slice::from_ref(first), slice::from_ref(second)),
        }
    }

    /// The patterns directly below it: those of a list, or the first and the second of those that its form has.
    fn below(&self) -> (&[Pattern], &[Pattern])
        ensures first { patterns_view result.0.now ≡ first_parts (view self.now) }
        ensures second { patterns_view result.1.now ≡ second_parts (view self.now) }
    {
        match self {
            Pattern::Variable { .. }
            | Pattern::SetVariable { .. }
            | Pattern::StringLiteral { .. }
            | Pattern::Literal { .. }
            | Pattern::Top { .. }
            | Pattern::Bottom { .. } => (&[], &[]),
            Pattern::Application {
                arguments: patterns,
                ..
            }
            | Pattern::And { patterns, .. }
            | Pattern::Or { patterns, .. } => (patterns, &[]),
            Pattern::Not { pattern, .. }
            | Pattern::Next { pattern, .. }
            | Pattern::Exists { pattern, .. }
            | Pattern::Forall { pattern, .. }
            | Pattern::Ceil { pattern, .. }
            | Pattern::Floor { pattern, .. }
            | Pattern::Mu { pattern, .. }
            | Pattern::Nu { pattern, .. } => (slice::from_ref(&**pattern), &[]),
            Pattern::Implies { left, right, .. }
            | Pattern::Iff { left, right, .. }
            | Pattern::Rewrites { left, right, .. }
            | Pattern::Equals { left, right, .. }
            | Pattern::In { left, right, .. } => {
                (slice::from_ref(&**left), slice::from_ref(&**right))
            }
        }
    }

    /// Whether all that stands in two patterns besides patterns is the same.
    fn heads_equal(&self, other: &Pattern) -> bool
        ensures { IsTrue result ↔ HaveSameHeads (view self.now) (view other.now) }
    {
        if self.form() != other.form() {
            return false;
        }
        if self.text() != other.text() {
            return false;
        }
        let (first, second) = self.sorts();
        let (other_first, other_second) = other.sorts();
        if !Sort::all_equal(first, other_first) {
            return false;
        }
        Sort::all_equal(second, other_second)
    }

    /// Whether two patterns are seen as the same data.
    #[cycle(equal)]
    pub fn equal(&self, other: &Pattern) -> bool
        ensures { IsTrue result ↔ (view self.now ≡ view other.now) }
    {
        if !self.heads_equal(other) {
            return false;
        }
        let (first, second) = self.below();
        let (other_first, other_second) = other.below();
        if !Pattern::all_equal(first, other_first) {
            return false;
        }
        Pattern::all_equal(second, other_second)
    }

    /// Whether two lists of patterns are seen as the same data.
    #[cycle(equal)]
    pub fn all_equal(patterns: &[Pattern], others: &[Pattern]) -> bool
        ensures { IsTrue result ↔ (patterns_view patterns.now ≡ patterns_view others.now) }
    {
        if patterns.len() != others.len() {
            return false;
        }
        for i in 0..patterns.len() {
            if !patterns[i].equal(&others[i]) {
                return false;
            }
        }
        true
    }
}
