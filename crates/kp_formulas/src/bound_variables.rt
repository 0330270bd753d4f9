use kp_kore::{Name, Sort};

/// A variable that a quantifier binds.
#[derive(Clone, Copy)]
pub struct BoundVariable<'a> {
    pub name: &'a Name,
    pub sort: &'a Sort,
}
