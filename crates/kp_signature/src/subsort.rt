use kp_kore::Sort;

/// What an attribute `subsort{A,B}()` says.
#[derive(Drop)]
pub struct Subsort {
    pub lower: Sort,
    pub upper: Sort,
}
