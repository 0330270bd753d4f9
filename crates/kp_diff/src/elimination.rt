ghost use Rattle.std.specs.Prelude.{◌≡◌, ◌↔◌, ◌<◌, ◌≤◌, ◌+◌, ℕ, ℤ, pos, suc, length, get_or, List, [], Some, None, set, IsTrue};
ghost use Rattle.kp_diff.specs.Bounds.{Meets, narrower, summed, IsClosed, HaveBits, IsWithinWeight};
ghost use Rattle.kp_diff.specs.Rows.{rows_of, bound_in, eliminated, IsSound, IsSquare, FitsSums, IsRowUpTo, IsRoundUpTo};

use crate::matrix::Feasibility;

/// The narrower of a bound and a number.
fn narrowed(bound: Option<i128>, number: i128) -> Option<i128>
    ensures { result ≡ narrower bound (Some number) }
{
    match bound {
        Some(c) => { if c <= number { Some(c) } else { Some(number) } }
        None => Some(number),
    }
}

/// Puts a number into a cell where it is narrower.
pub fn narrow(rows: &mut [Vec<Option<i128>>], x: usize, y: usize, number: i128)
    requires square { IsSquare (length rows.old) (rows_of rows.old) }
    requires places { (x < length rows.old) × (y < length rows.old) }
    ensures long { length rows.new ≡ length rows.old }
    ensures rows { rows_of rows.new ≡ set (rows_of rows.old) x (set (get_or (rows_of rows.old) x []) y (narrower (bound_in (rows_of rows.old) x y) (Some number))) }
{
    let bound = narrowed(rows[x][y], number);
    rows[x][y] = bound;
}

/// A bound, or the sum of two, whichever is narrower.
fn over(bound: Option<i128>, first: Option<i128>, second: Option<i128>) -> Option<i128>
    requires { FitsSums first second }
    ensures { result ≡ narrower bound (summed first second) }
{
    match first {
        Some(b) => match second {
            Some(c) => narrowed(bound, b + c),
            None => bound,
        },
        None => bound,
    }
}

/// Puts the sum of two bounds over a place into a cell where it is narrower.
fn lower(rows: &mut [Vec<Option<i128>>], k: usize, x: usize, y: usize)
    requires square { IsSquare (length rows.old) (rows_of rows.old) }
    requires places { (k < length rows.old) × (x < length rows.old) × (y < length rows.old) }
    requires fits { FitsSums (bound_in (rows_of rows.old) x k) (bound_in (rows_of rows.old) k y) }
    ensures { rows_of rows.new ≡ set (rows_of rows.old) x (set (get_or (rows_of rows.old) x []) y (eliminated (bound_in (rows_of rows.old)) k x y)) }
{
    let bound = over(rows[x][y], rows[x][k], rows[k][y]);
    rows[x][y] = bound;
}

/// Whether there is no bound.
fn is_free(bound: Option<i128>) -> bool
    ensures { IsTrue result → None ≡ bound }
{
    match bound {
        Some(_) => false,
        None => true,
    }
}

/// One row of a round over a place. Without a bound to the place it stays as it is.
fn lower_row(rows: &mut [Vec<Option<i128>>], k: usize, x: usize)
    requires square { IsSquare (length rows.old) (rows_of rows.old) }
    requires places { (k < length rows.old) × (x < length rows.old) }
    requires sound { IsSound (bound_in (rows_of rows.old) k k) }
    requires fits { (y : ℕ) → y < length rows.old → FitsSums (bound_in (rows_of rows.old) x k) (bound_in (rows_of rows.old) k y) }
    ensures long { length rows.new ≡ length rows.old }
    ensures row { IsRowUpTo (length rows.old) (rows_of rows.old) (rows_of rows.new) k x (length rows.old) }
{
    if is_free(rows[x][k]) {
        return;
    }
    for y in 0..rows.len() {
        lower(rows, k, x, y);
    }
}

/// A round over a place, in the rows themselves: with a sound bound at (k, k) row k and column k stay as they are.
fn round(rows: &mut [Vec<Option<i128>>], k: usize)
    requires square { IsSquare (length rows.old) (rows_of rows.old) }
    requires place { k < length rows.old }
    requires sound { IsSound (bound_in (rows_of rows.old) k k) }
    requires fits { (x y : ℕ) → x < length rows.old → y < length rows.old → FitsSums (bound_in (rows_of rows.old) x k) (bound_in (rows_of rows.old) k y) }
    ensures long { length rows.new ≡ length rows.old }
    ensures round { IsRoundUpTo (length rows.old) (rows_of rows.old) (rows_of rows.new) k (length rows.old) }
{
    for x in 0..rows.len() {
        lower_row(rows, k, x);
    }
}

/// Whether a bound isn't below zero.
fn is_sound(bound: Option<i128>) -> bool
    ensures { IsTrue result ↔ IsSound bound }
{
    match bound {
        Some(c) => 0 <= c,
        None => true,
    }
}

/// A round over each place. No as soon as a place is bounded below zero from itself.
pub fn close(rows: &mut [Vec<Option<i128>>], size: usize) -> Feasibility
    requires square { IsSquare (suc size) (rows_of rows.old) }
    requires weight { IsWithinWeight size (bound_in (rows_of rows.old)) }
    ensures long { length rows.new ≡ length rows.old }
    ensures square { IsSquare (suc size) (rows_of rows.new) }
    ensures same { (values : ℕ → ℤ) → Meets size (bound_in (rows_of rows.old)) values ↔ Meets size (bound_in (rows_of rows.new)) values }
    ensures bits { (bits : ℕ) → HaveBits bits size (bound_in (rows_of rows.old)) → HaveBits (suc (size + bits)) size (bound_in (rows_of rows.new)) }
    ensures yes { result ≡ Feasibility.Yes → IsClosed size (bound_in (rows_of rows.new)) }
    ensures no { result ≡ Feasibility.No → (values : ℕ → ℤ) → ¬ Meets size (bound_in (rows_of rows.old)) values }
{
    for k in 0..rows.len() {
        if !is_sound(rows[k][k]) {
            return Feasibility::No;
        }
        round(rows, k);
    }
    Feasibility::Yes
}

/// A round over one place, in a matrix of so many variables. No where the place is bounded below zero from itself.
pub fn pass_over(rows: &mut [Vec<Option<i128>>], size: usize, m: usize) -> Feasibility
    requires square { IsSquare (suc size) (rows_of rows.old) }
    requires place { m < length rows.old }
    requires bits { (bits : ℕ) × (bits < 127) × HaveBits bits size (bound_in (rows_of rows.old)) }
    ensures long { length rows.new ≡ length rows.old }
    ensures square { IsSquare (suc size) (rows_of rows.new) }
    ensures same { (values : ℕ → ℤ) → Meets size (bound_in (rows_of rows.old)) values ↔ Meets size (bound_in (rows_of rows.new)) values }
    ensures bits { (bits : ℕ) → HaveBits bits size (bound_in (rows_of rows.old)) → HaveBits (suc bits) size (bound_in (rows_of rows.new)) }
    ensures no { result ≡ Feasibility.No → (values : ℕ → ℤ) → ¬ Meets size (bound_in (rows_of rows.old)) values }
{
    if !is_sound(rows[m][m]) {
        return Feasibility::No;
    }
    round(rows, m);
    Feasibility::Yes
}
