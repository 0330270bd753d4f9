ghost use Rattle.std.specs.Prelude.{◌≡◌, ◌<◌, ◌≤◌, ℕ, pos, suc, length, get_or, IfOk, None, map};
ghost use Rattle.kp_diff.specs.Bounds.{no_bounds};
ghost use Rattle.kp_diff.specs.Rows.{rows_of, bound_in, value_in, IsSquare};

use std::alloc::{AllocError, Global};

/// No bound, but zero from a place to itself.
fn free_bound(x: usize, y: usize) -> Option<i128>
    ensures { result ≡ no_bounds x y }
{
    if x == y { Some(0) } else { None }
}

/// A row without bounds.
fn free_row(alloc: Global, size: usize, x: usize) -> Result<Vec<Option<i128>>, AllocError>
    ensures long { IfOk result (λ row. length row.items ≡ suc size) }
    ensures free { IfOk result (λ row. (y : ℕ) → y ≤ size → get_or row.items y None ≡ no_bounds x y) }
{
    let mut row = Vec::new(alloc);
    for y in 0..=size {
        row.push(free_bound(x, y))?;
    }
    Ok(row)
}

/// The rows of a matrix without bounds.
pub fn free_rows(alloc: Global, size: usize) -> Result<Vec<Vec<Option<i128>>>, AllocError>
    ensures square { IfOk result (λ rows. IsSquare (suc size) (rows_of rows.items)) }
    ensures free { IfOk result (λ rows. (x y : ℕ) → x ≤ size → y ≤ size → bound_in (rows_of rows.items) x y ≡ no_bounds x y) }
{
    let mut rows = Vec::new(alloc);
    for x in 0..=size {
        rows.push(free_row(alloc, size, x)?)?;
    }
    Ok(rows)
}

/// A zero for each variable, and for place 0.
pub fn zeros(alloc: Global, size: usize) -> Result<Vec<i128>, AllocError>
    ensures long { IfOk result (λ values. length values.items ≡ suc size) }
    ensures zero { IfOk result (λ values. (x : ℕ) → value_in values.items x ≡ pos 0) }
{
    let mut values = Vec::new(alloc);
    for _ in 0..=size {
        values.push(0)?;
    }
    Ok(values)
}

/// Takes a row's bounds away.
fn free_one(row: &mut [Option<i128>], x: usize)
    ensures { (y : ℕ) → y < length row.old → get_or row.new y None ≡ no_bounds x y }
{
    for y in 0..row.len() {
        row[y] = free_bound(x, y);
    }
}

/// Takes all bounds away.
pub fn free_all(rows: &mut [Vec<Option<i128>>], size: usize)
    requires { IsSquare (suc size) (rows_of rows.old) }
    ensures square { IsSquare (suc size) (rows_of rows.new) }
    ensures free { (x y : ℕ) → x ≤ size → y ≤ size → bound_in (rows_of rows.new) x y ≡ no_bounds x y }
{
    for x in 0..rows.len() {
        free_one(&mut rows[x], x);
    }
}

/// A row once more.
fn copied_row(alloc: Global, row: &[Option<i128>]) -> Result<Vec<Option<i128>>, AllocError>
    ensures { IfOk result (λ copy. copy.items ≡ row.now) }
{
    let mut copy = Vec::new(alloc);
    copy.extend_from_slice(row)?;
    Ok(copy)
}

/// All rows once more.
pub fn copied_rows(
    alloc: Global,
    rows: &[Vec<Option<i128>>],
) -> Result<Vec<Vec<Option<i128>>>, AllocError>
    ensures { IfOk result (λ copies. rows_of copies.items ≡ rows_of rows.now) }
{
    let mut copies = Vec::new(alloc);
    for row in rows {
        copies.push(copied_row(alloc, row)?)?;
    }
    Ok(copies)
}

/// The values once more.
pub fn copied_values(alloc: Global, values: &[i128]) -> Result<Vec<i128>, AllocError>
    ensures { IfOk result (λ copy. copy.items ≡ values.now) }
{
    let mut copy = Vec::new(alloc);
    copy.extend_from_slice(values)?;
    Ok(copy)
}

/// The bound at two places.
pub fn bound_at(rows: &[Vec<Option<i128>>], size: usize, x: usize, y: usize) -> Option<i128>
    requires square { IsSquare (suc size) (rows_of rows.now) }
    requires places { (x ≤ size) × (y ≤ size) }
    ensures { result ≡ bound_in (rows_of rows.now) x y }
{
    rows[x][y]
}
