/// How a proof stands.
#[derive(Clone, Copy, Debug, PartialEq, Eq)]
pub enum Status {
    /// Every leaf is a cover or vacuous.
    Passed,
    /// Some leaf is stuck or terminal.
    Failed,
    /// Neither.
    Pending,
}
