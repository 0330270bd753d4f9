// What rows give.
ghost use Rattle.std.specs.Prelude.{◌↔◌, ◌∷◌, [], ℕ, OnOk, IsTrue, get_or};
ghost use Rattle.std.specs.List.{Contains};
ghost use Rattle.kp_signature.specs.Edges.{edges_of};
ghost use Rattle.kp_heads.specs.Rows.{AreUsers, Began, IsGiven, Tried, Woken};

use crate::row::Row;
use indexmap::IndexSet;
use std::alloc::AllocError;

/// Numbers, each once, in the order in which they were found.
pub type Numbers = IndexSet<usize>;

/// Whether the number was found.
fn has(found: &Numbers, number: usize) -> bool
    ensures { IsTrue result ↔ Contains found.now.keys number }
{
    found.contains(&number)
}

/// Whether all of the numbers were found.
fn has_all(found: &Numbers, numbers: &[usize]) -> bool
    ensures { IsTrue result ↔ ((n : ℕ) → Contains numbers.now n → Contains found.now.keys n) }
{
    for number in numbers {
        if !has(found, *number) {
            return false;
        }
    }
    true
}

/// Adds what the row gives, where all that it needs is there.
fn try_row(row: &Row, found: &mut Numbers) -> Result<(), AllocError>
    ensures { OnOk result (Tried row.now found.old.keys found.new.keys) }
{
    if !has_all(found, &row.needs) {
        return Ok(());
    }
    found.insert(row.gives)?;
    Ok(())
}

/// Finds what the row at this place gives, where all that it needs was found.
fn try_place(rows: &[Row], place: usize, found: &mut Numbers) -> Result<(), AllocError>
    ensures { OnOk result (Woken rows.now (place ∷ []) found.old.keys found.new.keys) }
{
    if place < rows.len() {
        try_row(&rows[place], found)?;
    }
    Ok(())
}

/// Finds what the rows at these places give.
fn try_places(rows: &[Row], places: &[usize], found: &mut Numbers) -> Result<(), AllocError>
    ensures { OnOk result (Woken rows.now places.now found.old.keys found.new.keys) }
{
    for place in places {
        try_place(rows, *place, found)?;
    }
    Ok(())
}

/// Tries the rows that need a number.
fn wake(
    rows: &[Row],
    users: &[Vec<usize>],
    number: usize,
    found: &mut Numbers,
) -> Result<(), AllocError>
    ensures { OnOk result (Woken rows.now (get_or (edges_of users.now) number []) found.old.keys found.new.keys) }
{
    if number < users.len() {
        try_places(rows, &users[number], found)?;
    }
    Ok(())
}

/// Tries each row once.
fn begin(rows: &[Row], found: &mut Numbers) -> Result<(), AllocError>
    ensures { OnOk result (Began rows.now rows.now found.old.keys found.new.keys) }
{
    for row in rows {
        try_row(row, found)?;
    }
    Ok(())
}

/// Adds all that the rows give. Each row is tried when one of the numbers that it needs has been found.
pub fn spread(rows: &[Row], users: &[Vec<usize>], found: &mut Numbers) -> Result<(), AllocError>
    ensures { AreUsers rows.now users.now → OnOk result ((j : ℕ) → Contains found.new.keys j ↔ IsGiven rows.now found.old.keys j) }
{
    begin(rows, found)?;
    let mut next: usize = 0;
    while next < found.len() {
        let number = found.as_slice()[next];
        wake(rows, users, number, found)?;
        next += 1;
    }
    Ok(())
}
