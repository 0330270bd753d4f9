ghost use Rattle.std.specs.Prelude.{◌≡◌, ◌↔◌, ◌<◌, ◌≤◌, ◌^◌, ◌-◌, ℕ, suc, length, get_or, List, [], None, IsTrue};
ghost use Rattle.kp_diff.specs.Bounds.{HaveBits, IsBelow, IsWithinWeight};
ghost use Rattle.kp_diff.specs.Rows.{rows_of, bound_in, IsSquare};

/// Whether a bound, without its sign, is below a limit.
fn is_below(bound: Option<i128>, limit: u128) -> bool
    ensures { IsTrue result ↔ IsBelow limit bound }
{
    match bound {
        Some(c) => c.unsigned_abs() < limit,
        None => true,
    }
}

/// Whether all bounds of a row are below a limit.
fn is_row_below(row: &[Option<i128>], limit: u128) -> bool
    ensures { IsTrue result ↔ ((y : ℕ) → y < length row.now → IsBelow limit (get_or row.now y None)) }
{
    for bound in row {
        if !is_below(*bound, limit) {
            return false;
        }
    }
    true
}

/// Whether all bounds are below a limit.
fn are_rows_below(rows: &[Vec<Option<i128>>], limit: u128) -> bool
    ensures { let the_rows = rows_of rows.now in IsTrue result ↔ ((x : ℕ) → x < length rows.now → (y : ℕ) → y < length (get_or the_rows x []) → IsBelow limit (bound_in the_rows x y)) }
{
    for row in rows {
        if !is_row_below(row, limit) {
            return false;
        }
    }
    true
}

/// Whether the variables and the bits of the largest constant are together at most 126.
pub fn is_light(rows: &[Vec<Option<i128>>], size: usize) -> bool
    requires { IsSquare (suc size) (rows_of rows.now) }
    ensures { IsTrue result ↔ IsWithinWeight size (bound_in (rows_of rows.now)) }
{
    if size > 126 {
        return false;
    }
    are_rows_below(rows, 2u128.pow((126 - size) as u32))
}

/// Whether all bounds, without their signs, are numbers of so many bits.
pub fn have_bits(rows: &[Vec<Option<i128>>], size: usize, bits: u32) -> bool
    requires square { IsSquare (suc size) (rows_of rows.now) }
    requires few { bits < 128 }
    ensures { IsTrue result → HaveBits bits size (bound_in (rows_of rows.now)) }
{
    are_rows_below(rows, 2u128.pow(bits))
}
