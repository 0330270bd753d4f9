// Whole numbers: their bounds in a matrix of differences.
ghost use Rattle.std.specs.Prelude.{◌≡◌, ◌↔◌, ◌≤◌, ◌+◌, ℕ, ℤ, pos, true, false, IsTrue};
ghost use Rattle.std.specs.List.{AllByRecursion};
ghost use Rattle.kp_diff.specs.Bounds.{Meets, HaveBits};
ghost use Rattle.kp_diff.specs.Rows.{bounds_of, values_of};
ghost use Rattle.kp_demands.specs.Demands.{Sizes, IsSized, MeetsBound};
ghost use Rattle.kp_demands.specs.Known.{Follow};

use crate::demand::Demand;
use kp_diff::{Feasibility, Matrix};

/// Puts the bound that a demand asks into the matrix.
fn take(matrix: &mut Matrix, demand: Demand)
    requires { (s : Sizes) × (s.wholes ≡ matrix.old.size) × (s.wholes + s.bits ≤ 126) × IsSized s demand }
    ensures size { matrix.new.size ≡ matrix.old.size }
    ensures met { (values : ℕ → ℤ) → Meets matrix.old.size (bounds_of matrix.new) values ↔ (Meets matrix.old.size (bounds_of matrix.old) values × MeetsBound values demand) }
    ensures bits { (s : Sizes) → IsSized s demand → HaveBits s.bits matrix.old.size (bounds_of matrix.old) → HaveBits s.bits matrix.old.size (bounds_of matrix.new) }
{
    if let Demand::Bound {
        first,
        second,
        most,
    } = demand
    {
        matrix.bound(first, second, most);
    }
}

/// Puts all bounds that are asked into the matrix, in the place of those that it had.
fn fill(matrix: &mut Matrix, demands: &[Demand])
    requires { (s : Sizes) × (s.wholes ≡ matrix.old.size) × (s.wholes + s.bits ≤ 126) × AllByRecursion (IsSized s) demands.now }
    ensures size { matrix.new.size ≡ matrix.old.size }
    ensures met { (values : ℕ → ℤ) → values 0 ≡ pos 0 → Meets matrix.old.size (bounds_of matrix.new) values ↔ AllByRecursion (MeetsBound values) demands.now }
    ensures bits { (s : Sizes) → AllByRecursion (IsSized s) demands.now → HaveBits s.bits matrix.old.size (bounds_of matrix.new) }
{
    matrix.clear();
    for demand in demands {
        take(matrix, *demand);
    }
}

/// Whether some whole numbers meet all bounds that are asked. Where they do, the matrix has such numbers.
pub fn agree(matrix: &mut Matrix, demands: &[Demand]) -> bool
    requires { (s : Sizes) × (s.wholes ≡ matrix.old.size) × (s.wholes + s.bits ≤ 126) × AllByRecursion (IsSized s) demands.now }
    ensures size { matrix.new.size ≡ matrix.old.size }
    ensures zero { IsTrue result → values_of matrix.new 0 ≡ pos 0 }
    ensures yes { IsTrue result → AllByRecursion (MeetsBound (values_of matrix.new)) demands.now }
    ensures no { result ≡ false → (values : ℕ → ℤ) → values 0 ≡ pos 0 → ¬ AllByRecursion (MeetsBound values) demands.now }
    ensures follow { IsTrue result → Follow demands.now matrix.new }
{
    fill(matrix, demands);
    match matrix.feasible() {
        Feasibility::Yes => true,
        Feasibility::No => false,
    }
}
