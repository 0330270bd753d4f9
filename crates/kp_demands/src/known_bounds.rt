// Bounds of differences that follow from chosen demands: a way that they stand against isn't walked.
ghost use Rattle.std.specs.Prelude.{◌≡◌, ◌↔◌, ◌<◌, ◌≤◌, ◌+◌, ◌^◌, ◌-ℤ◌, ◌≤ℤ◌, ℕ, ℤ, suc, true, false, unsigned_abs, IsTrue, IfOk, IfSome, IfNone};
ghost use Rattle.std.specs.List.{AllByRecursion};
ghost use Rattle.kp_diff.specs.Bounds.{Meets, IsWithin, HaveBits};
ghost use Rattle.kp_diff.specs.Rows.{bounds_of};
ghost use Rattle.kp_demands.specs.Demands.{Sizes, IsSized, MeetsBound};
ghost use Rattle.kp_demands.specs.Known.{HasRoom};

use crate::demand::Demand;
use kp_diff::{Feasibility, Matrix};
use std::alloc::{AllocError, Global};

/// Bounds that follow from demands, and for how many more there is room in 128 bits.
#[derive(Drop)]
pub struct Known {
    pub matrix: Matrix,
    pub room: usize,
}

/// Whether a bound beside the one that is known of the opposite difference leaves values.
fn is_left(back: Option<i128>, most: i128) -> bool
    ensures { result ≡ false → (a b : ℤ) → IsWithin back (b -ℤ a) → ¬ ((a -ℤ b) ≤ℤ most) }
{
    match back {
        Some(back) => match back.checked_add(most) {
            Some(sum) => 0 <= sum,
            None => true,
        },
        None => true,
    }
}

/// Whether known bounds leave values for the bound that a demand asks.
fn leaves(known: &Known, demand: Demand) -> bool
    requires { (s : Sizes) × (s.wholes ≡ known.now.matrix.size) × (s.wholes + s.bits ≤ 126) × IsSized s demand }
    ensures { result ≡ false → (values : ℕ → ℤ) → Meets known.now.matrix.size (bounds_of known.now.matrix) values → ¬ MeetsBound values demand }
{
    match demand {
        Demand::Bound {
            first,
            second,
            most,
        } => is_left(known.matrix.between(second, first), most),
        _ => true,
    }
}

/// Whether known bounds leave values for each bound that demands ask.
pub fn leave_all(known: &Known, demands: &[Demand]) -> bool
    requires { (s : Sizes) × (s.wholes ≡ known.now.matrix.size) × (s.wholes + s.bits ≤ 126) × AllByRecursion (IsSized s) demands.now }
    ensures { result ≡ false → (values : ℕ → ℤ) → Meets known.now.matrix.size (bounds_of known.now.matrix) values → ¬ AllByRecursion (MeetsBound values) demands.now }
{
    for demand in demands {
        if !leaves(known, *demand) {
            return false;
        }
    }
    true
}

/// Goes over a place. False where no values meet the bounds.
fn passes(matrix: &mut Matrix, place: usize) -> bool
    requires place { place ≤ matrix.old.size }
    requires bits { (bits : ℕ) × (bits < 127) × HaveBits bits matrix.old.size (bounds_of matrix.old) }
    ensures size { matrix.new.size ≡ matrix.old.size }
    ensures same { (values : ℕ → ℤ) → Meets matrix.old.size (bounds_of matrix.old) values ↔ Meets matrix.old.size (bounds_of matrix.new) values }
    ensures bits { (bits : ℕ) → HaveBits bits matrix.old.size (bounds_of matrix.old) → HaveBits (suc bits) matrix.old.size (bounds_of matrix.new) }
    ensures no { result ≡ false → (values : ℕ → ℤ) → ¬ Meets matrix.old.size (bounds_of matrix.old) values }
{
    match matrix.pass(place) {
        Feasibility::Yes => true,
        Feasibility::No => false,
    }
}

/// Puts a bound in and goes over its two places. False where no values meet all bounds then.
fn tighten(matrix: &mut Matrix, first: usize, second: usize, most: i128) -> bool
    requires places { (first ≤ matrix.old.size) × (second ≤ matrix.old.size) }
    requires bits { (bits : ℕ) × (bits + 2 ≤ 127) × (unsigned_abs most < 2 ^ bits) × HaveBits bits matrix.old.size (bounds_of matrix.old) }
    ensures size { matrix.new.size ≡ matrix.old.size }
    ensures met { let size = matrix.old.size in let bounds' = bounds_of matrix.old in let bounds'' = bounds_of matrix.new in (values : ℕ → ℤ) → Meets size bounds' values → (values first -ℤ values second) ≤ℤ most → IsTrue result → Meets size bounds'' values }
    ensures bits { let size = matrix.old.size in let bounds' = bounds_of matrix.old in let bounds'' = bounds_of matrix.new in IsTrue result → (bits : ℕ) → unsigned_abs most < 2 ^ bits → HaveBits bits size bounds' → HaveBits (suc (suc bits)) size bounds'' }
    ensures no { result ≡ false → (values : ℕ → ℤ) → Meets matrix.old.size (bounds_of matrix.old) values → ¬ ((values first -ℤ values second) ≤ℤ most) }
{
    matrix.bound(first, second, most);
    if !passes(matrix, first) {
        return false;
    }
    passes(matrix, second)
}

/// Whether a bound is a number of few bits, without its sign.
fn is_small(number: i128) -> bool
    ensures { IsTrue result → unsigned_abs number < 2 ^ 78 }
{
    number.unsigned_abs() < 2u128.pow(78)
}

/// Puts a bound in where there is room. False where no values meet all bounds then.
fn take_bound(known: &mut Known, first: usize, second: usize, most: i128) -> bool
    requires places { (first ≤ known.old.matrix.size) × (second ≤ known.old.matrix.size) }
    requires room { HasRoom known.old.room known.old.matrix }
    ensures size { known.new.matrix.size ≡ known.old.matrix.size }
    ensures room { IsTrue result → HasRoom known.new.room known.new.matrix }
    ensures met { let matrix' = known.old.matrix in let matrix'' = known.new.matrix in (values : ℕ → ℤ) → Meets matrix'.size (bounds_of matrix') values → (values first -ℤ values second) ≤ℤ most → IsTrue result → Meets matrix'.size (bounds_of matrix'') values }
    ensures no { result ≡ false → (values : ℕ → ℤ) → Meets known.old.matrix.size (bounds_of known.old.matrix) values → ¬ ((values first -ℤ values second) ≤ℤ most) }
{
    if known.room == 0 {
        return true;
    }
    if !is_small(most) {
        return true;
    }
    known.room -= 1;
    tighten(&mut known.matrix, first, second, most)
}

/// Puts the bound that a demand asks in where there is room. False where no values meet all bounds then.
fn take(known: &mut Known, demand: Demand) -> bool
    requires sized { (s : Sizes) × (s.wholes ≡ known.old.matrix.size) × (s.wholes + s.bits ≤ 126) × IsSized s demand }
    requires room { HasRoom known.old.room known.old.matrix }
    ensures size { known.new.matrix.size ≡ known.old.matrix.size }
    ensures room { IsTrue result → HasRoom known.new.room known.new.matrix }
    ensures met { let matrix' = known.old.matrix in let matrix'' = known.new.matrix in (values : ℕ → ℤ) → Meets matrix'.size (bounds_of matrix') values → MeetsBound values demand → IsTrue result → Meets matrix'.size (bounds_of matrix'') values }
    ensures no { result ≡ false → (values : ℕ → ℤ) → Meets known.old.matrix.size (bounds_of known.old.matrix) values → ¬ MeetsBound values demand }
{
    match demand {
        Demand::Bound {
            first,
            second,
            most,
        } => take_bound(known, first, second, most),
        _ => true,
    }
}

/// Puts the bounds that demands ask in where there is room. False where no values meet all bounds then.
fn take_all(known: &mut Known, demands: &[Demand]) -> bool
    requires sized { (s : Sizes) × (s.wholes ≡ known.old.matrix.size) × (s.wholes + s.bits ≤ 126) × AllByRecursion (IsSized s) demands.now }
    requires room { HasRoom known.old.room known.old.matrix }
    ensures size { known.new.matrix.size ≡ known.old.matrix.size }
    ensures room { IsTrue result → HasRoom known.new.room known.new.matrix }
    ensures met { let matrix' = known.old.matrix in let matrix'' = known.new.matrix in (values : ℕ → ℤ) → Meets matrix'.size (bounds_of matrix') values → AllByRecursion (MeetsBound values) demands.now → IsTrue result → Meets matrix'.size (bounds_of matrix'') values }
    ensures no { result ≡ false → (values : ℕ → ℤ) → Meets known.old.matrix.size (bounds_of known.old.matrix) values → ¬ AllByRecursion (MeetsBound values) demands.now }
{
    for demand in demands {
        if !take(known, *demand) {
            return false;
        }
    }
    true
}

/// For how many more bounds there is room.
fn room_for(matrix: &Matrix) -> usize
    ensures { HasRoom result matrix.now }
{
    if matrix.has_bits(78) {
        return 24;
    }
    0
}

/// Bounds once more, with room for those of twenty-four demands where all have few bits.
pub fn known_of(alloc: Global, matrix: &Matrix) -> Result<Known, AllocError>
    ensures same { IfOk result (λ k. k.matrix ≡ matrix.now) }
    ensures room { IfOk result (λ k. HasRoom k.room k.matrix) }
{
    let room = room_for(matrix);
    let matrix = matrix.copy(alloc)?;
    Ok(Known { matrix, room })
}

/// The same bounds once more.
fn copied(alloc: Global, known: &Known) -> Result<Known, AllocError>
    ensures same { IfOk result (λ k. k.matrix ≡ known.now.matrix) }
    ensures room { IfOk result (λ k. k.room ≡ known.now.room) }
{
    let matrix = known.matrix.copy(alloc)?;
    Ok(Known {
        matrix,
        room: known.room,
    })
}

/// The bounds with those that a way asks, none where no values meet them.
pub fn with_way(alloc: Global, known: &Known, way: &[Demand]) -> Result<Option<Known>, AllocError>
    requires sized { (s : Sizes) × (s.wholes ≡ known.now.matrix.size) × (s.wholes + s.bits ≤ 126) × AllByRecursion (IsSized s) way.now }
    requires room { HasRoom known.now.room known.now.matrix }
    ensures size { IfOk result (λ o. IfSome o (λ k. k.matrix.size ≡ known.now.matrix.size)) }
    ensures room { IfOk result (λ o. IfSome o (λ k. HasRoom k.room k.matrix)) }
    ensures met { let matrix' = known.now.matrix in IfOk result (λ o. IfSome o (λ k. (values : ℕ → ℤ) → Meets matrix'.size (bounds_of matrix') values → AllByRecursion (MeetsBound values) way.now → Meets matrix'.size (bounds_of k.matrix) values)) }
    ensures none { IfOk result (λ o. IfNone o ((values : ℕ → ℤ) → Meets known.now.matrix.size (bounds_of known.now.matrix) values → ¬ AllByRecursion (MeetsBound values) way.now)) }
{
    let mut own = copied(alloc, known)?;
    if !take_all(&mut own, way) {
        return Ok(None);
    }
    Ok(Some(own))
}
