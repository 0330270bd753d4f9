use kp_kore::Pattern;

/// A weight that has a limit.
#[derive(Clone, Copy, Drop)]
pub enum Weight {
    /// The bits of the largest constant of the conditions.
    Bits,
    /// The literals of the conditions.
    Literals,
    /// The choices of one literal in each clause.
    Product,
    /// The levels of a term.
    Depth,
}

/// A limit that was passed.
#[derive(Drop)]
pub enum Limit {
    /// The number that the weight reached.
    Weighed {
        weight: Weight,
        number: u64,
    },
    /// A computed constant leaves signed 128 bits: the interpreted symbol, and its operands as decimal text.
    Number {
        first: String,
        second: String,
        symbol: String,
    },
}

/// What wasn't decided: a predicate (with the limit that its weight passes, if any), or a limit alone.
#[derive(Drop)]
pub enum Undecided {
    Predicate {
        predicate: Pattern,
        limit: Option<Limit>,
    },
    Limit {
        limit: Limit,
    },
}
