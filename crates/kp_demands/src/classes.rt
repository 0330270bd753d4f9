// Tokens: equal unknowns have one root, and no two that are to differ.
ghost use Rattle.std.specs.Prelude.{◌≡◌, ◌≢◌, ◌↔◌, ◌<◌, ◌≤◌, ℕ, true, false, length, IsTrue};
ghost use Rattle.std.specs.List.{AllByRecursion};
ghost use Rattle.kp_demands.specs.Demands.{Sizes, IsSized, MeetsSame, MeetsApart};
ghost use Rattle.kp_demands.specs.Classes.{AreFixed, root_in, renamed, HaveRoots, AreRoots};

use crate::demand::Demand;

/// Each unknown alone.
fn part(roots: &mut [usize])
    ensures long { length roots.new ≡ length roots.old }
    ensures alone { (x : ℕ) → root_in roots.new x ≡ x }
{
    for x in 0..roots.len() {
        roots[x] = x;
    }
}

/// A root, or what stands in its place.
fn renamed_root(root: usize, from: usize, to: usize) -> usize
    ensures { result ≡ renamed from to root }
{
    if root == from { to } else { root }
}

/// Puts a root in the place of another.
fn rename(roots: &mut [usize], from: usize, to: usize)
    ensures long { length roots.new ≡ length roots.old }
    ensures renamed { (x : ℕ) → x < length roots.old → root_in roots.new x ≡ renamed from to (root_in roots.old x) }
{
    for x in 0..roots.len() {
        roots[x] = renamed_root(roots[x], from, to);
    }
}

/// Gives two roots' unknowns the lesser root, unless both are among the first.
fn unite(roots: &mut [usize], fixed: usize, low: usize, high: usize) -> bool
    requires roots { AreRoots fixed roots.old }
    requires low { (low < high) × (high < length roots.old) × (root_in roots.old low ≡ low) × (root_in roots.old high ≡ high) }
    ensures long { length roots.new ≡ length roots.old }
    ensures roots { IsTrue result → AreRoots fixed roots.new }
    ensures yes { IsTrue result → (classes : ℕ → ℕ) → HaveRoots roots.new classes ↔ (HaveRoots roots.old classes × (classes low ≡ classes high)) }
    ensures no { result ≡ false → high < fixed }
{
    if high < fixed {
        return false;
    }
    rename(roots, high, low);
    true
}

/// The root of a class's tree that the class at this place lies in.
fn root_of(roots: &[usize], x: usize) -> usize
    requires { x < length roots.now }
    ensures { result ≡ root_in roots.now x }
{
    roots[x]
}

/// Makes two unknowns equal, unless they are equal to two of the first.
fn join(roots: &mut [usize], fixed: usize, x: usize, y: usize) -> bool
    requires roots { AreRoots fixed roots.old }
    requires places { (x < length roots.old) × (y < length roots.old) }
    ensures long { length roots.new ≡ length roots.old }
    ensures roots { IsTrue result → AreRoots fixed roots.new }
    ensures yes { IsTrue result → (classes : ℕ → ℕ) → HaveRoots roots.new classes ↔ (HaveRoots roots.old classes × (classes x ≡ classes y)) }
    ensures no { result ≡ false → (classes : ℕ → ℕ) → AreFixed fixed classes → HaveRoots roots.old classes → classes x ≢ classes y }
{
    let first = root_of(roots, x);
    let second = root_of(roots, y);
    if first < second {
        return unite(roots, fixed, first, second);
    }
    if second < first {
        return unite(roots, fixed, second, first);
    }
    true
}

/// Makes equal what a demand wants equal, unless they are equal to two of the first.
fn take(roots: &mut [usize], fixed: usize, demand: Demand) -> bool
    requires roots { AreRoots fixed roots.old }
    requires sized { (s : Sizes) × (s.classes ≡ length roots.old) × IsSized s demand }
    ensures long { length roots.new ≡ length roots.old }
    ensures roots { IsTrue result → AreRoots fixed roots.new }
    ensures yes { IsTrue result → (classes : ℕ → ℕ) → HaveRoots roots.new classes ↔ (HaveRoots roots.old classes × MeetsSame classes demand) }
    ensures no { result ≡ false → (classes : ℕ → ℕ) → AreFixed fixed classes → HaveRoots roots.old classes → ¬ MeetsSame classes demand }
{
    match demand {
        Demand::Same { first, second } => join(roots, fixed, first, second),
        _ => true,
    }
}

/// Finds the classes that the equations make. False where two of the first would be equal.
fn equate(roots: &mut [usize], fixed: usize, demands: &[Demand]) -> bool
    requires { (s : Sizes) × (s.classes ≡ length roots.old) × AllByRecursion (IsSized s) demands.now }
    ensures long { length roots.new ≡ length roots.old }
    ensures roots { IsTrue result → AreRoots fixed roots.new }
    ensures yes { IsTrue result → (classes : ℕ → ℕ) → HaveRoots roots.new classes ↔ AllByRecursion (MeetsSame classes) demands.now }
    ensures no { result ≡ false → (classes : ℕ → ℕ) → AreFixed fixed classes → ¬ AllByRecursion (MeetsSame classes) demands.now }
{
    part(roots);
    for demand in demands {
        if !take(roots, fixed, *demand) {
            return false;
        }
    }
    true
}

/// Whether what a demand wants apart has two roots.
fn is_apart(roots: &[usize], demand: Demand) -> bool
    requires { (s : Sizes) × (s.classes ≡ length roots.now) × IsSized s demand }
    ensures { IsTrue result ↔ MeetsApart (root_in roots.now) demand }
{
    match demand {
        Demand::Apart { first, second } => roots[first] != roots[second],
        _ => true,
    }
}

/// Whether all that the demands want apart has two roots.
fn are_apart(roots: &[usize], demands: &[Demand]) -> bool
    requires { (s : Sizes) × (s.classes ≡ length roots.now) × AllByRecursion (IsSized s) demands.now }
    ensures { IsTrue result ↔ AllByRecursion (MeetsApart (root_in roots.now)) demands.now }
{
    for demand in demands {
        if !is_apart(roots, *demand) {
            return false;
        }
    }
    true
}

/// Finds the classes that the equations make. False where two of the first would be equal, or two that are to differ.
pub fn agree(roots: &mut [usize], fixed: usize, demands: &[Demand]) -> bool
    requires { (s : Sizes) × (s.classes ≡ length roots.old) × AllByRecursion (IsSized s) demands.now }
    ensures long { length roots.new ≡ length roots.old }
    ensures fixed { IsTrue result → AreFixed fixed (root_in roots.new) }
    ensures same { IsTrue result → AllByRecursion (MeetsSame (root_in roots.new)) demands.now }
    ensures apart { IsTrue result → AllByRecursion (MeetsApart (root_in roots.new)) demands.now }
    ensures no { result ≡ false → (classes : ℕ → ℕ) → AreFixed fixed classes → AllByRecursion (MeetsSame classes) demands.now → ¬ AllByRecursion (MeetsApart classes) demands.now }
{
    equate(roots, fixed, demands) && are_apart(roots, demands)
}
