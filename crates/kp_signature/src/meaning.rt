use crate::function::Function;

/// What the name at the head of an application means. `meaning_view` in specs/Meanings.antt says which meaning of
/// kp_kore/specs/Signature.antt each is.
#[derive(Clone, Copy)]
pub enum Meaning {
    /// `inj`, the identity on values.
    Injection,
    Constructor,
    Interpreted(Function),
    /// Any other symbol, an alias, or a name that isn't declared.
    Foreign,
}
