use crate::sort::{Name, Sort};

/// A pattern. `view` in specs/View.antt says what each form stands for.
pub enum Pattern {
    Variable {
        name: Name,
        sort: Sort,
    },
    SetVariable {
        name: Name,
        sort: Sort,
    },
    /// A symbol or an alias, its sort arguments, and what it is applied to.
    Application {
        symbol: Name,
        sorts: Vec<Sort>,
        arguments: Vec<Pattern>,
    },
    /// A text that stands as a pattern, as in attributes.
    StringLiteral {
        text: Name,
    },
    /// `\dv{S}("text")`.
    Literal {
        sort: Sort,
        text: Name,
    },
    Top {
        sort: Sort,
    },
    Bottom {
        sort: Sort,
    },
    Not {
        sort: Sort,
        pattern: Box<Pattern>,
    },
    Next {
        sort: Sort,
        pattern: Box<Pattern>,
    },
    And {
        sort: Sort,
        patterns: Vec<Pattern>,
    },
    Or {
        sort: Sort,
        patterns: Vec<Pattern>,
    },
    Implies {
        sort: Sort,
        left: Box<Pattern>,
        right: Box<Pattern>,
    },
    Iff {
        sort: Sort,
        left: Box<Pattern>,
        right: Box<Pattern>,
    },
    Rewrites {
        sort: Sort,
        left: Box<Pattern>,
        right: Box<Pattern>,
    },
    Exists {
        sort: Sort,
        name: Name,
        name_sort: Sort,
        pattern: Box<Pattern>,
    },
    Forall {
        sort: Sort,
        name: Name,
        name_sort: Sort,
        pattern: Box<Pattern>,
    },
    Ceil {
        argument_sort: Sort,
        sort: Sort,
        pattern: Box<Pattern>,
    },
    Floor {
        argument_sort: Sort,
        sort: Sort,
        pattern: Box<Pattern>,
    },
    Equals {
        argument_sort: Sort,
        sort: Sort,
        left: Box<Pattern>,
        right: Box<Pattern>,
    },
    In {
        argument_sort: Sort,
        sort: Sort,
        left: Box<Pattern>,
        right: Box<Pattern>,
    },
    Mu {
        name: Name,
        sort: Sort,
        pattern: Box<Pattern>,
    },
    Nu {
        name: Name,
        sort: Sort,
        pattern: Box<Pattern>,
    },
}

// Written out: a derived one is proved again in each crate that owns such a value.
impl Drop for Pattern {
    fn drop(self) {
        match self {
            Pattern::Variable {
                name: _name,
                sort: _sort,
            } => {}
            Pattern::SetVariable {
                name: _name,
                sort: _sort,
            } => {}
            Pattern::Application {
                symbol: _symbol,
                sorts: _sorts,
                arguments: _arguments,
            } => {}
            Pattern::StringLiteral { text: _text } => {}
            Pattern::Literal {
                sort: _sort,
                text: _text,
            } => {}
            Pattern::Top { sort: _sort } => {}
            Pattern::Bottom { sort: _sort } => {}
            Pattern::Not {
                sort: _sort,
                pattern: _pattern,
            } => {}
            Pattern::Next {
                sort: _sort,
                pattern: _pattern,
            } => {}
            Pattern::And {
                sort: _sort,
                patterns: _patterns,
            } => {}
            Pattern::Or {
                sort: _sort,
                patterns: _patterns,
            } => {}
            Pattern::Implies {
                sort: _sort,
                left: _left,
                right: _right,
            } => {}
            Pattern::Iff {
                sort: _sort,
                left: _left,
                right: _right,
            } => {}
            Pattern::Rewrites {
                sort: _sort,
                left: _left,
                right: _right,
            } => {}
            Pattern::Exists {
                sort: _sort,
                name: _name,
                name_sort: _name_sort,
                pattern: _pattern,
            } => {}
            Pattern::Forall {
                sort: _sort,
                name: _name,
                name_sort: _name_sort,
                pattern: _pattern,
            } => {}
            Pattern::Ceil {
                argument_sort: _argument_sort,
                sort: _sort,
                pattern: _pattern,
            } => {}
            Pattern::Floor {
                argument_sort: _argument_sort,
                sort: _sort,
                pattern: _pattern,
            } => {}
            Pattern::Equals {
                argument_sort: _argument_sort,
                sort: _sort,
                left: _left,
                right: _right,
            } => {}
            Pattern::In {
                argument_sort: _argument_sort,
                sort: _sort,
                left: _left,
                right: _right,
            } => {}
            Pattern::Mu {
                name: _name,
                sort: _sort,
                pattern: _pattern,
            } => {}
            Pattern::Nu {
                name: _name,
                sort: _sort,
                pattern: _pattern,
            } => {}
        }
    }
}
