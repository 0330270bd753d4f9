ghost use Rattle.std.specs.Prelude.{◌≡◌, ◌⊎◌, ◌+◌, ◌≤ℤ◌, ◌-ℤ◌, ◌↔◌, ℕ, ℤ, suc, length, get_or, Some, None, FitsSigned};
ghost use Rattle.std.specs.Int.{w128};
ghost use Rattle.kp_diff.specs.Bounds.{Meets, IsWithin, IsClosed, HaveBits, IsWithinWeight};
ghost use Rattle.kp_diff.specs.Rows.{rows_of, bound_in, value_in, IsSquare, IsLeast};

use crate::elimination::close;
use crate::matrix::Feasibility;

/// The lesser of a number and a bound.
fn lesser(least: i128, bound: Option<i128>) -> i128
    ensures most { result ≤ℤ least }
    ensures within { IsWithin bound result }
    ensures is { (result ≡ least) ⊎ (bound ≡ Some result) }
{
    match bound {
        Some(c) => { if c < least { c } else { least } }
        None => least,
    }
}

/// The least of zero and a row's bounds.
fn least_of(row: &[Option<i128>]) -> i128
    ensures { IsLeast (length row.now) (λ y. get_or row.now y None) result }
{
    let mut least = 0;
    for bound in row {
        least = lesser(least, *bound);
    }
    least
}

/// A number less another.
fn difference(least: i128, first: i128) -> i128
    requires { FitsSigned w128 (least -ℤ first) }
    ensures { result ≡ least -ℤ first }
{
    least - first
}

/// Writes each row's least, less that of row 0.
pub fn write_values(rows: &[Vec<Option<i128>>], size: usize, values: &mut [i128])
    requires square { IsSquare (suc size) (rows_of rows.now) }
    requires long { length values.old ≡ suc size }
    requires bits { HaveBits 127 size (bound_in (rows_of rows.now)) }
    requires closed { IsClosed size (bound_in (rows_of rows.now)) }
    ensures long { length values.new ≡ suc size }
    ensures met { Meets size (bound_in (rows_of rows.now)) (value_in values.new) }
{
    let first = least_of(&rows[0]);
    for x in 0..values.len() {
        values[x] = difference(least_of(&rows[x]), first);
    }
}

/// Closes the bounds, and where some values meet them, writes such values.
pub fn solve(rows: &mut [Vec<Option<i128>>], size: usize, values: &mut [i128]) -> Feasibility
    requires square { IsSquare (suc size) (rows_of rows.old) }
    requires long { length values.old ≡ suc size }
    requires weight { IsWithinWeight size (bound_in (rows_of rows.old)) }
    ensures rows { length rows.new ≡ length rows.old }
    ensures square { IsSquare (suc size) (rows_of rows.new) }
    ensures same { (values : ℕ → ℤ) → Meets size (bound_in (rows_of rows.old)) values ↔ Meets size (bound_in (rows_of rows.new)) values }
    ensures bits { (bits : ℕ) → HaveBits bits size (bound_in (rows_of rows.old)) → HaveBits (suc (size + bits)) size (bound_in (rows_of rows.new)) }
    ensures closed { result ≡ Feasibility.Yes → IsClosed size (bound_in (rows_of rows.new)) }
    ensures yes { result ≡ Feasibility.Yes → Meets size (bound_in (rows_of rows.old)) (value_in values.new) }
    ensures kept { result ≡ Feasibility.No → values.new ≡ values.old }
    ensures no { result ≡ Feasibility.No → (values : ℕ → ℤ) → ¬ Meets size (bound_in (rows_of rows.old)) values }
{
    let outcome = close(rows, size);
    match outcome {
        Feasibility::Yes => {
            write_values(rows, size, values);
            Feasibility::Yes
        }
        Feasibility::No => Feasibility::No,
    }
}
