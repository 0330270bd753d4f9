ghost use Rattle.std.specs.Prelude.{◌≡◌, ◌≢◌, ◌↔◌, ◌⊎◌, ◌<◌, ◌≤◌, ◌+◌, ℕ, ℤ, pos, suc, length, IfOk, IsTrue, Some};
ghost use Rattle.kp_diff.specs.Bounds.{Meets, no_bounds, narrower, IsClosed, HaveBits, IsWithinWeight};
ghost use Rattle.kp_diff.specs.Rows.{Differences, bounds_of, values_of, rows_of, IsMatrix};

use crate::elimination::{narrow, pass_over};
use crate::rows::{bound_at, copied_rows, copied_values, free_all, free_rows, zeros};
use crate::valuation::solve;
use crate::weight::{have_bits, is_light};
use std::alloc::{AllocError, Global};
use std::marker::Model;

/// Whether some values meet all bounds.
pub enum Feasibility {
    /// The matrix holds such values.
    Yes,
    /// There are none.
    No,
}

/// Bounds on the differences of `size` variables and the number zero, which is place 0, and a value for each.
#[derive(Drop)]
pub struct Matrix {
    size: usize,
    rows: Vec<Vec<Option<i128>>>,
    values: Vec<i128>,
}

impl Model for Matrix {
    ghost Value = { Differences };

    ghost view = { λ m. record { size = m.size; rows = rows_of m.rows.items; values = m.values.items } };

    ghost invariant = { λ m. IsMatrix m.size (rows_of m.rows.items) m.values.items };
}

impl Matrix {
    /// No bounds but that nothing differs from itself. All values are zero.
    pub fn new(alloc: Global, size: usize) -> Result<Matrix, AllocError>
        ensures size { IfOk result (λ m. m.size ≡ size) }
        ensures free { IfOk result (λ m. (x y : ℕ) → x ≤ size → y ≤ size → bounds_of m x y ≡ no_bounds x y) }
        ensures zero { IfOk result (λ m. (x : ℕ) → x ≤ size → values_of m x ≡ pos 0) }
    {
        let rows = free_rows(alloc, size)?;
        let values = zeros(alloc, size)?;
        Ok(Matrix { size, rows, values })
    }

    /// How many variables there are.
    pub fn size(&self) -> usize
        ensures { result ≡ self.now.size }
    {
        self.size
    }

    /// Adds `x - y <= c`. Of two bounds on one difference the narrower stays.
    pub fn bound(&mut self, x: usize, y: usize, c: i128)
        requires { (x ≤ self.old.size) × (y ≤ self.old.size) }
        ensures size { self.new.size ≡ self.old.size }
        ensures here { bounds_of self.new x y ≡ narrower (bounds_of self.old x y) (Some c) }
        ensures elsewhere { (i j : ℕ) → (i ≢ x) ⊎ (j ≢ y) → bounds_of self.new i j ≡ bounds_of self.old i j }
        ensures values { (i : ℕ) → values_of self.new i ≡ values_of self.old i }
    {
        narrow(&mut self.rows, x, y, c);
    }

    /// The bound of `x - y`, where there is one.
    pub fn between(&self, x: usize, y: usize) -> Option<i128>
        requires { (x ≤ self.now.size) × (y ≤ self.now.size) }
        ensures { result ≡ bounds_of self.now x y }
    {
        bound_at(&self.rows, self.size, x, y)
    }

    /// Takes all bounds away.
    pub fn clear(&mut self)
        ensures size { self.new.size ≡ self.old.size }
        ensures free { (x y : ℕ) → x ≤ self.old.size → y ≤ self.old.size → bounds_of self.new x y ≡ no_bounds x y }
        ensures values { (i : ℕ) → values_of self.new i ≡ values_of self.old i }
    {
        free_all(&mut self.rows, self.size);
    }

    /// Whether the variables and the bits of the largest constant are together at most 126, as `feasible` wants.
    pub fn is_within_weight(&self) -> bool
        ensures { IsTrue result ↔ IsWithinWeight self.now.size (bounds_of self.now) }
    {
        is_light(&self.rows, self.size)
    }

    /// Whether some values meet all bounds. Yes closes the bounds, and writes such values.
    pub fn feasible(&mut self) -> Feasibility
        requires { IsWithinWeight self.old.size (bounds_of self.old) }
        ensures size { self.new.size ≡ self.old.size }
        ensures yes { result ≡ Feasibility.Yes → Meets self.old.size (bounds_of self.old) (values_of self.new) }
        ensures closed { result ≡ Feasibility.Yes → IsClosed self.old.size (bounds_of self.new) }
        ensures kept { result ≡ Feasibility.No → (i : ℕ) → values_of self.new i ≡ values_of self.old i }
        ensures no { result ≡ Feasibility.No → (values : ℕ → ℤ) → ¬ Meets self.old.size (bounds_of self.old) values }
        ensures same { (values : ℕ → ℤ) → Meets self.old.size (bounds_of self.old) values ↔ Meets self.old.size (bounds_of self.new) values }
        ensures bits { (bits : ℕ) → HaveBits bits self.old.size (bounds_of self.old) → HaveBits (suc (self.old.size + bits)) self.old.size (bounds_of self.new) }
    {
        solve(&mut self.rows, self.size, &mut self.values)
    }

    /// Puts in what bounds are gained over one place. No where the place is bounded below zero from itself, so that
    /// no values meet the bounds. To closed bounds with one more between two places it is enough to go over the two.
    pub fn pass(&mut self, k: usize) -> Feasibility
        requires place { k ≤ self.old.size }
        requires bits { (bits : ℕ) × (bits < 127) × HaveBits bits self.old.size (bounds_of self.old) }
        ensures size { self.new.size ≡ self.old.size }
        ensures same { (values : ℕ → ℤ) → Meets self.old.size (bounds_of self.old) values ↔ Meets self.old.size (bounds_of self.new) values }
        ensures bits { (bits : ℕ) → HaveBits bits self.old.size (bounds_of self.old) → HaveBits (suc bits) self.old.size (bounds_of self.new) }
        ensures no { result ≡ Feasibility.No → (values : ℕ → ℤ) → ¬ Meets self.old.size (bounds_of self.old) values }
    {
        pass_over(&mut self.rows, self.size, k)
    }

    /// Whether all bounds, without their signs, are numbers of so many bits.
    pub fn has_bits(&self, bits: u32) -> bool
        requires { bits < 128 }
        ensures { IsTrue result → HaveBits bits self.now.size (bounds_of self.now) }
    {
        have_bits(&self.rows, self.size, bits)
    }

    /// A matrix of the same bounds and values.
    pub fn copy(&self, alloc: Global) -> Result<Matrix, AllocError>
        ensures { IfOk result (λ m. m ≡ self.now) }
    {
        let rows = copied_rows(alloc, &self.rows)?;
        let values = copied_values(alloc, &self.values)?;
        Ok(Matrix {
            size: self.size,
            rows,
            values,
        })
    }

    /// The value of a variable, or of place 0.
    pub fn value(&self, x: usize) -> i128
        requires { x ≤ self.now.size }
        ensures { result ≡ values_of self.now x }
    {
        self.values[x]
    }
}
