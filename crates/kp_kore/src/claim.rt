use crate::Pattern;

/// A reachability claim over all paths: from the left side each complete run meets the right side. A variable of the
/// right that the left hasn't counts as bound by `\exists`.
#[derive(Drop)]
pub struct Claim {
    pub left: Pattern,
    pub right: Pattern,
}
