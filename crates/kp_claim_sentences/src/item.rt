use kp_kore::{Claim, Name, Pattern, Sort};

/// A claim of a claims file: its label, the sort of its sides, its whole pattern, its sides, whether it is its own
/// circularity, and the labels of the claims that it depends on.
pub struct FiledClaim {
    pub label: Name,
    pub sort: Sort,
    pub pattern: Pattern,
    pub claim: Claim,
    pub circular: bool,
    pub depends: Vec<Name>,
}

// Written out: a derived one is proved again in each crate that owns such a value.
impl Drop for FiledClaim {
    fn drop(self) {
        let FiledClaim {
            label: _label,
            sort: _sort,
            pattern: _pattern,
            claim: _claim,
            circular: _circular,
            depends: _depends,
        } = self;
    }
}
