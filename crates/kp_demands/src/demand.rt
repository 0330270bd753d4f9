// What is asked of unknowns.

/// A demand on unknowns, each of which has a number among those of its kind. Whole number 0 is the number zero.
#[derive(Clone, Copy)]
pub enum Demand {
    /// One whole number less another is at most this.
    Bound {
        first: usize,
        second: usize,
        most: i128,
    },
    /// A truth value is this.
    Truth {
        name: usize,
        value: bool,
    },
    /// Two tokens are equal.
    Same {
        first: usize,
        second: usize,
    },
    /// Two tokens differ.
    Apart {
        first: usize,
        second: usize,
    },
}
