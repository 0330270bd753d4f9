// In which order sorts are numbered. What the numbers mean doesn't rest on it, only how few spans there are: each sort
// stands behind those below it, and right behind them where the order is a tree, whatever pairs follow from others.

use std::alloc::{AllocError, Global};

/// A walk over edges: which numbers were met, how many edges of each were followed, those that are open, innermost last,
/// and those that are done.
#[derive(Drop)]
struct Walk {
    met: Vec<bool>,
    followed: Vec<usize>,
    open: Vec<usize>,
    done: Vec<usize>,
}

impl Walk {
    /// No number is met yet.
    fn new(alloc: Global, count: usize) -> Result<Walk, AllocError> {
        Ok(Walk {
            met: vec![in alloc; false; count]?,
            followed: vec![in alloc; 0; count]?,
            open: Vec::new(alloc),
            done: Vec::new(alloc),
        })
    }

    /// Opens a number that wasn't met.
    fn meet(&mut self, number: usize) -> Result<(), AllocError> {
        if number < self.met.len() && !self.met[number] {
            self.met[number] = true;
            self.open.push(number)?;
        }
        Ok(())
    }

    /// The number at the end of the next edge.
    fn follow(&mut self, edges: &[Vec<usize>], number: usize) -> Option<usize> {
        if number >= edges.len() || number >= self.followed.len() {
            return None;
        }
        let place = self.followed[number];
        if place >= edges[number].len() {
            return None;
        }
        self.followed[number] = place + 1;
        Some(edges[number][place])
    }

    /// One edge further, or back. Whether some number is open.
    fn step(&mut self, edges: &[Vec<usize>]) -> Result<bool, AllocError> {
        let Some(number) = self.open.pop() else {
            return Ok(false);
        };
        match self.follow(edges, number) {
            Some(next) => {
                self.open.push(number)?;
                self.meet(next)?;
            }
            None => self.done.push(number)?,
        }
        Ok(true)
    }

    /// Walks until no number is open.
    fn walk(&mut self, edges: &[Vec<usize>]) -> Result<(), AllocError> {
        for _step in 0..u64::MAX {
            if !self.step(edges)? {
                return Ok(());
            }
        }
        Ok(())
    }
}

/// All numbers that edges have, each behind those that it leads to; `starts` are met in their order.
fn walked(alloc: Global, edges: &[Vec<usize>], starts: &[usize]) -> Result<Vec<usize>, AllocError> {
    let mut walk = Walk::new(alloc, edges.len())?;
    for start in starts {
        walk.meet(*start)?;
        walk.walk(edges)?;
    }
    let Walk { done, .. } = walk;
    Ok(done)
}

/// The numbers in order.
fn all_numbers(alloc: Global, count: usize) -> Result<Vec<usize>, AllocError> {
    let mut numbers = Vec::new(alloc);
    for number in 0..count {
        numbers.push(number)?;
    }
    Ok(numbers)
}

/// No edges for each number.
fn no_edges(alloc: Global, count: usize) -> Result<Vec<Vec<usize>>, AllocError> {
    let mut edges = Vec::new(alloc);
    for _i in 0..count {
        edges.push(Vec::new(alloc))?;
    }
    Ok(edges)
}

/// Adds the edges that lead from a number, turned round.
fn add_turned(
    turned: &mut Vec<Vec<usize>>,
    edges: &[Vec<usize>],
    from: usize,
) -> Result<(), AllocError> {
    if from >= edges.len() {
        return Ok(());
    }
    for to in &edges[from] {
        if *to < turned.len() {
            turned[*to].push(from)?;
        }
    }
    Ok(())
}

/// The edges the other way round, those of each number in the order of these numbers.
fn turned(
    alloc: Global,
    edges: &[Vec<usize>],
    order: &[usize],
) -> Result<Vec<Vec<usize>>, AllocError> {
    let mut turned = no_edges(alloc, edges.len())?;
    for from in order {
        add_turned(&mut turned, edges, *from)?;
    }
    Ok(turned)
}

/// The numbers in the order in which their sorts are numbered, where edges lead upwards.
pub fn ranking(alloc: Global, above: &[Vec<usize>]) -> Result<Vec<usize>, AllocError> {
    let numbers = all_numbers(alloc, above.len())?;
    let downwards = walked(alloc, above, &numbers)?;
    let below = turned(alloc, above, &downwards)?;
    walked(alloc, &below, &downwards)
}
