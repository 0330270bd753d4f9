ghost use Rattle.std.specs.Prelude.{◌≡◌};

/// Sum, difference, product of whole numbers.
#[derive(Clone, Copy)]
pub enum Arithmetic {
    Addition,
    Subtraction,
    Multiplication,
}

/// Comparisons of whole numbers.
#[derive(Clone, Copy)]
pub enum Comparison {
    Equal,
    Different,
    Less,
    AtMost,
    Greater,
    AtLeast,
}

/// Functions of two truth values.
#[derive(Clone, Copy)]
pub enum Connective {
    Both,
    Either,
    Implies,
    Same,
    Other,
}

/// The functions of two values that have a meaning. `hook_view` in specs/HookView.antt says which.
#[derive(Clone, Copy)]
pub enum Hook {
    Arithmetic(Arithmetic),
    Comparison(Comparison),
    Connective(Connective),
    /// Whether two values are the same, or differ.
    Equal,
    Different,
}

impl Comparison {
    ghost use Rattle.kp_kore.specs.HookView.{comparison_view};
    ghost use Rattle.kp_kore.specs.Interpretation.{compared};

    /// Whether the numbers compare so.
    pub fn holds(self, left: i128, right: i128) -> bool
        ensures { result ≡ compared (comparison_view self) left right }
    {
        match self {
            Comparison::Equal => left == right,
            Comparison::Different => left != right,
            Comparison::Less => left < right,
            Comparison::AtMost => left <= right,
            Comparison::Greater => left > right,
            Comparison::AtLeast => left >= right,
        }
    }
}

impl Connective {
    ghost use Rattle.kp_kore.specs.HookView.{connective_view};
    ghost use Rattle.kp_kore.specs.Interpretation.{connected};

    /// The truth value of two.
    pub fn connects(self, left: bool, right: bool) -> bool
        ensures { result ≡ connected (connective_view self) left right }
    {
        match self {
            Connective::Both => left && right,
            Connective::Either => left || right,
            Connective::Implies => !left || right,
            Connective::Same => left == right,
            Connective::Other => left != right,
        }
    }
}

impl Arithmetic {
    ghost use Rattle.std.specs.Prelude.{MatchOption, false, true};
    ghost use Rattle.kp_kore.specs.HookView.{arithmetic_view};
    ghost use Rattle.kp_kore.specs.Interpretation.{computed};
    ghost use Rattle.kp_kore.specs.Limits.{fits_number};

    /// The number that is computed, where it is within 128 bits.
    pub fn computes(self, left: i128, right: i128) -> Option<i128>
        ensures { MatchOption result (fits_number (computed (arithmetic_view self) left right) ≡ false) (λ n. n ≡ computed (arithmetic_view self) left right) }
    {
        match self {
            Arithmetic::Addition => left.checked_add(right),
            Arithmetic::Subtraction => left.checked_sub(right),
            Arithmetic::Multiplication => left.checked_mul(right),
        }
    }
}
