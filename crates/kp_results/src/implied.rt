use kp_kore::Pattern;

/// Whether an antecedent implies a consequent.
/// Source: the K Haskell backend's JSON-RPC documentation (implies: valid, and the condition's predicate and
/// substitution).
#[derive(Drop)]
pub enum Implied {
    NotValid,
    /// It does, where the consequent's variables are so.
    Valid {
        predicate: Pattern,
        substitution: Pattern,
    },
}
