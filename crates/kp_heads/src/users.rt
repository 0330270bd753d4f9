// The rows that need a number.
ghost use Rattle.std.specs.Prelude.{◌≡◌, ◌∷◌, [], IfOk, OnOk, length};
ghost use Rattle.kp_heads.specs.Rows.{AreUsers, HasUses, NeedBelow};

use crate::row::Row;
use kp_signature::edges::add_edge;
use std::alloc::{AllocError, Global};

/// As many sorts that no row needs.
fn no_users(alloc: Global, count: usize) -> Result<Vec<Vec<usize>>, AllocError>
    ensures { IfOk result (λ users. length users.items ≡ count) }
{
    let mut users = Vec::new(alloc);
    for _i in 0..count {
        users.push(Vec::new(alloc))?;
    }
    Ok(users)
}

/// Notes that a row needs a sort.
fn add_use(users: &mut Vec<Vec<usize>>, number: usize, place: usize) -> Result<(), AllocError>
    ensures { OnOk result (HasUses users.old.items users.new.items (number ∷ []) place) }
{
    if number < users.len() {
        add_edge(users, number, place)?;
    }
    Ok(())
}

/// Notes that a row needs these sorts.
fn add_uses(users: &mut Vec<Vec<usize>>, numbers: &[usize], place: usize) -> Result<(), AllocError>
    ensures { OnOk result (HasUses users.old.items users.new.items numbers.now place) }
{
    for number in numbers {
        add_use(users, *number, place)?;
    }
    Ok(())
}

/// For each number below the count the places of the rows that need it.
pub fn users_of(alloc: Global, rows: &[Row], count: usize) -> Result<Vec<Vec<usize>>, AllocError>
    ensures { NeedBelow rows.now count → IfOk result (λ users. AreUsers rows.now users.items) }
{
    let mut users = no_users(alloc, count)?;
    for place in 0..rows.len() {
        add_uses(&mut users, &rows[place].needs, place)?;
    }
    Ok(users)
}
