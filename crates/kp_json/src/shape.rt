// Forms of patterns that are alike but for a word: which word, and the form itself of owned parts.
ghost use Rattle.std.specs.Prelude.{◌≡◌, string_bytes};
ghost use Rattle.kp_kore.specs.View.{view, sort_view};
ghost use Rattle.kp_json.specs.Shapes.{connected_view, compared_view, quantified_view, bracketed_view};

use kp_kore::{Name, Pattern, Sort};

/// `\implies`, `\iff` and `\rewrites`.
#[derive(Clone, Copy)]
pub enum Connected {
    Implies,
    Iff,
    Rewrites,
}

impl Connected {
    /// The form of this sort over two patterns.
    pub fn over(self, sort: Sort, left: Box<Pattern>, right: Box<Pattern>) -> Pattern
        ensures { view result ≡ connected_view self (sort_view sort) (view left.value) (view right.value) }
    {
        match self {
            Connected::Implies => Pattern::Implies { sort, left, right },
            Connected::Iff => Pattern::Iff { sort, left, right },
            Connected::Rewrites => Pattern::Rewrites { sort, left, right },
        }
    }
}

/// `\equals` and `\in`.
#[derive(Clone, Copy)]
pub enum Compared {
    Equals,
    In,
}

impl Compared {
    /// The form of these sorts over two patterns.
    pub fn over(
        self,
        argument_sort: Sort,
        sort: Sort,
        left: Box<Pattern>,
        right: Box<Pattern>,
    ) -> Pattern
        ensures { view result ≡ compared_view self (sort_view argument_sort) (sort_view sort) (view left.value) (view right.value) }
    {
        match self {
            Compared::Equals => Pattern::Equals {
                argument_sort,
                sort,
                left,
                right,
            },
            Compared::In => Pattern::In {
                argument_sort,
                sort,
                left,
                right,
            },
        }
    }
}

/// `\exists` and `\forall`.
#[derive(Clone, Copy)]
pub enum Quantified {
    Exists,
    Forall,
}

impl Quantified {
    /// The form of this sort and variable over a pattern.
    pub fn over(self, sort: Sort, name: Name, name_sort: Sort, pattern: Box<Pattern>) -> Pattern
        ensures { view result ≡ quantified_view self (sort_view sort) (string_bytes name) (sort_view name_sort) (view pattern.value) }
    {
        match self {
            Quantified::Exists => Pattern::Exists {
                sort,
                name,
                name_sort,
                pattern,
            },
            Quantified::Forall => Pattern::Forall {
                sort,
                name,
                name_sort,
                pattern,
            },
        }
    }
}

/// `\ceil` and `\floor`.
#[derive(Clone, Copy)]
pub enum Bracketed {
    Ceil,
    Floor,
}

impl Bracketed {
    /// The form of these sorts over a pattern.
    pub fn over(self, argument_sort: Sort, sort: Sort, pattern: Box<Pattern>) -> Pattern
        ensures { view result ≡ bracketed_view self (sort_view argument_sort) (sort_view sort) (view pattern.value) }
    {
        match self {
            Bracketed::Ceil => Pattern::Ceil {
                argument_sort,
                sort,
                pattern,
            },
            Bracketed::Floor => Pattern::Floor {
                argument_sort,
                sort,
                pattern,
            },
        }
    }
}
