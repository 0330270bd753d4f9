// What gives a number: all the numbers that it needs.

/// A sort has a value where each of those that are needed has one, all by their numbers.
#[derive(Drop)]
pub struct Row {
    pub needs: Vec<usize>,
    pub gives: usize,
}
