/// `\top` and `\bottom`.
#[derive(Clone, Copy)]
pub enum Constant {
    Top,
    Bottom,
}

/// `\not` and `\next`.
#[derive(Clone, Copy)]
pub enum Unary {
    Not,
    Next,
}

/// `\and` and `\or`.
#[derive(Clone, Copy)]
pub enum Variadic {
    And,
    Or,
}

/// `\implies`, `\iff` and `\rewrites`.
#[derive(Clone, Copy)]
pub enum Binary {
    Implies,
    Iff,
    Rewrites,
}

/// `\exists` and `\forall`.
#[derive(Clone, Copy)]
pub enum Quantifier {
    Exists,
    Forall,
}

/// `\ceil` and `\floor`.
#[derive(Clone, Copy)]
pub enum Rounding {
    Ceil,
    Floor,
}

/// `\equals` and `\in`.
#[derive(Clone, Copy)]
pub enum ComparisonKeyword {
    Equals,
    In,
}

/// `\mu` and `\nu`.
#[derive(Clone, Copy)]
pub enum FixedPoint {
    Mu,
    Nu,
}

/// `\left-assoc` and `\right-assoc`.
#[derive(Clone, Copy)]
pub enum FoldSide {
    Left,
    Right,
}

/// What may stand behind a backslash, by the form of what follows it.
#[derive(Clone, Copy)]
pub enum Keyword {
    Constant(Constant),
    Unary(Unary),
    Variadic(Variadic),
    Binary(Binary),
    Quantifier(Quantifier),
    Rounding(Rounding),
    Comparison(ComparisonKeyword),
    /// `\dv`.
    Literal,
    FixedPoint(FixedPoint),
    Fold(FoldSide),
}
