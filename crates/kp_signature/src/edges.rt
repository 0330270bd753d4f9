// Numbers that are reached over edges.
ghost use Rattle.std.specs.Prelude.{◌≡◌, ◌⊎◌, ◌↔◌, ◌∷◌, [], ℕ, ◌<◌, IfOk, OnOk, IsTrue, get_or, length};
ghost use Rattle.std.specs.List.{Contains};
ghost use Rattle.kp_signature.specs.Edges.{Extended, HasEdge, IsReachedFrom, Reaches, edges_of};

use indexmap::IndexSet;
use std::alloc::{AllocError, Global};

/// Numbers, each once, in the order in which they were found.
pub type Numbers = IndexSet<usize>;

/// The number and all that is reached from it. `edges` has for each number those that it leads to.
pub fn reached_from(
    alloc: Global,
    edges: &[Vec<usize>],
    number: usize,
) -> Result<Numbers, AllocError>
    ensures { IfOk result (λ found. (j : ℕ) → Contains found.keys j ↔ Reaches (edges_of edges.now) number j) }
{
    let mut found = IndexSet::new(alloc);
    add(&mut found, number)?;
    close(edges, &mut found)?;
    Ok(found)
}

/// These numbers and all that is reached from them.
pub fn all_reached(
    alloc: Global,
    edges: &[Vec<usize>],
    numbers: &Numbers,
) -> Result<Numbers, AllocError>
    ensures { IfOk result (λ found. (j : ℕ) → Contains found.keys j ↔ IsReachedFrom (edges_of edges.now) numbers.now.keys j) }
{
    let mut found = IndexSet::new(alloc);
    add_all(&mut found, numbers.as_slice())?;
    close(edges, &mut found)?;
    Ok(found)
}

/// Adds all that is reached from the numbers that are there.
fn close(edges: &[Vec<usize>], found: &mut Numbers) -> Result<(), AllocError>
    ensures { OnOk result ((j : ℕ) → Contains found.new.keys j ↔ IsReachedFrom (edges_of edges.now) found.old.keys j) }
{
    let mut next: usize = 0;
    while next < found.len() {
        let number = found.as_slice()[next];
        add_next(edges, number, found)?;
        next += 1;
    }
    Ok(())
}

/// Adds what a number leads to.
fn add_next(edges: &[Vec<usize>], number: usize, found: &mut Numbers) -> Result<(), AllocError>
    ensures { OnOk result (Extended found.old.keys (get_or (edges_of edges.now) number []) found.new.keys) }
{
    if number < edges.len() {
        add_all(found, &edges[number])?;
    }
    Ok(())
}

/// Adds each of the numbers.
pub fn add_all(found: &mut Numbers, numbers: &[usize]) -> Result<(), AllocError>
    ensures { OnOk result (Extended found.old.keys numbers.now found.new.keys) }
{
    for number in numbers {
        add(found, *number)?;
    }
    Ok(())
}

/// Adds a number.
pub fn add(found: &mut Numbers, number: usize) -> Result<(), AllocError>
    ensures { OnOk result (Extended found.old.keys (number ∷ []) found.new.keys) }
{
    found.insert(number)?;
    Ok(())
}

/// Adds a number where it passes a test.
pub fn add_if(found: &mut Numbers, number: usize, passes: bool) -> Result<(), AllocError>
    ensures { OnOk result ((j : ℕ) → Contains found.new.keys j ↔ (Contains found.old.keys j ⊎ (IsTrue passes × (number ≡ j)))) }
{
    if !passes {
        return Ok(());
    }
    Ok(add(found, number)?)
}

/// Whether a number is there.
pub fn has(found: &Numbers, number: usize) -> bool
    ensures { IsTrue result ↔ Contains found.now.keys number }
{
    found.contains(&number)
}

/// Adds an edge.
pub fn add_edge(edges: &mut Vec<Vec<usize>>, from: usize, to: usize) -> Result<(), AllocError>
    ensures { from < length edges.old.items → OnOk result (HasEdge (edges_of edges.old.items) (edges_of edges.new.items) from to) }
{
    if from < edges.len() {
        edges[from].push(to)?;
    }
    Ok(())
}
