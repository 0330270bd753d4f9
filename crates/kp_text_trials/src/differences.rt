use kp_diff::{Feasibility, Matrix};
use std::alloc::{AllocError, Global};
use std::test::Fail;

/// `x - y <= c`.
#[derive(Clone, Copy)]
struct Bound {
    x: usize,
    y: usize,
    c: i128,
}

/// Adds a bound, where its places are the matrix's.
fn add(matrix: &mut Matrix, bound: Bound) {
    if bound.x <= matrix.size() && bound.y <= matrix.size() {
        matrix.bound(bound.x, bound.y, bound.c);
    }
}

/// The matrix's answer, where the weight is within its limit.
fn ask(matrix: &mut Matrix) -> Option<bool> {
    if !matrix.is_within_weight() {
        return None;
    }
    match matrix.feasible() {
        Feasibility::Yes => Some(true),
        Feasibility::No => Some(false),
    }
}

/// The value at a place.
fn value(matrix: &Matrix, x: usize) -> Option<i128> {
    if x <= matrix.size() {
        Some(matrix.value(x))
    } else {
        None
    }
}

/// Whether the matrix's values meet a bound.
fn meets(matrix: &Matrix, bound: Bound) -> bool {
    if bound.x <= matrix.size() && bound.y <= matrix.size() {
        matrix.value(bound.x).saturating_sub(matrix.value(bound.y)) <= bound.c
    } else {
        false
    }
}

/// Whether they meet all bounds, place 0 being zero.
fn meets_all(matrix: &Matrix, bounds: &[Bound]) -> bool {
    for bound in bounds {
        if !meets(matrix, *bound) {
            return false;
        }
    }
    value(matrix, 0) == Some(0)
}

/// A matrix of these bounds.
fn matrix_of(alloc: Global, size: usize, bounds: &[Bound]) -> Result<Matrix, AllocError> {
    let mut matrix = Matrix::new(alloc, size)?;
    for bound in bounds {
        add(&mut matrix, *bound);
    }
    Ok(matrix)
}

/// Lowers the distance of x where it is shorter over a bound: whether it was.
fn relax(distances: &mut [i128], bound: Bound) -> bool {
    if bound.x >= distances.len() || bound.y >= distances.len() {
        return false;
    }
    let over = distances[bound.y].saturating_add(bound.c);
    let falls = over < distances[bound.x];
    if falls {
        distances[bound.x] = over;
    }
    falls
}

/// One pass over the bounds: whether some distance fell.
fn relax_all(distances: &mut [i128], bounds: &[Bound]) -> bool {
    let mut falls = false;
    for bound in bounds {
        falls = relax(distances, *bound) || falls;
    }
    falls
}

/// Whether the bounds have values: after a pass for each place no distance falls (Bellman, Ford).
fn has_values(alloc: Global, size: usize, bounds: &[Bound]) -> Result<bool, AllocError> {
    let mut distances = vec![in alloc; 0i128; size]?;
    distances.push(0)?;
    for _ in 0..=size {
        relax_all(&mut distances, bounds);
    }
    Ok(!relax_all(&mut distances, bounds))
}

/// The next of some random numbers (xorshift), below a limit.
fn next(seed: &mut u64, limit: u8) -> u64 {
    *seed ^= *seed << 13;
    *seed ^= *seed >> 7;
    *seed ^= *seed << 17;
    if limit == 0 { 0 } else { *seed % limit as u64 }
}

/// A random bound of a constant from -9 to 27.
fn some_bound(seed: &mut u64, size: u8) -> Bound {
    let places = size.saturating_add(1);
    let x = next(seed, places) as usize;
    let y = next(seed, places) as usize;
    let c = (next(seed, 37) as i128).saturating_sub(9);
    Bound { x, y, c }
}

/// So many random bounds.
fn some_bounds(
    alloc: Global,
    seed: &mut u64,
    size: u8,
    count: u64,
) -> Result<Vec<Bound>, AllocError> {
    let mut bounds = Vec::new(alloc);
    for _ in 0..count {
        bounds.push(some_bound(seed, size))?;
    }
    Ok(bounds)
}

/// From each place to the next, and from the last to place 0, the bound c.
fn circle(alloc: Global, size: usize, c: i128) -> Result<Vec<Bound>, AllocError> {
    let mut bounds = Vec::new(alloc);
    for x in 0..size {
        bounds.push(Bound { x, y: x + 1, c })?;
    }
    bounds.push(Bound { x: size, y: 0, c })?;
    Ok(bounds)
}

/// Whether bounds have values, which the matrix gives.
fn has_met(alloc: Global, size: usize, bounds: &[Bound]) -> Result<bool, AllocError> {
    let mut matrix = matrix_of(alloc, size, bounds)?;
    Ok(ask(&mut matrix) == Some(true) && meets_all(&matrix, bounds))
}

/// Whether bounds have no values.
fn has_none(alloc: Global, size: usize, bounds: &[Bound]) -> Result<bool, AllocError> {
    let mut matrix = matrix_of(alloc, size, bounds)?;
    Ok(ask(&mut matrix) == Some(false))
}

/// Whether a bound alone has values, and none with the one back.
fn is_circle_of_two(alloc: Global) -> Result<bool, AllocError> {
    let first = Bound { x: 1, y: 2, c: -1 };
    let second = Bound { x: 2, y: 1, c: 0 };
    Ok(has_met(alloc, 2, &[first])? && has_none(alloc, 2, &[first, second])?)
}

#[test]
fn two_places_in_a_circle(rt: HostRuntime) {
    assert_eq!(rt; is_circle_of_two(rt.alloc()), Ok(true));
}

const AT_LEAST_5: Bound = Bound { x: 0, y: 1, c: -5 };

const AT_MOST_5: Bound = Bound { x: 1, y: 0, c: 5 };

const AT_MOST_7: Bound = Bound { x: 1, y: 0, c: 7 };

const AT_MOST_4: Bound = Bound { x: 1, y: 0, c: 4 };

/// The answer with one more bound.
fn ask_with(matrix: &mut Matrix, bound: Bound) -> Option<bool> {
    add(matrix, bound);
    ask(matrix)
}

/// The answer to one bound alone, and whether the values meet it.
fn ask_alone(matrix: &mut Matrix, bound: Bound) -> (Option<bool>, bool) {
    matrix.clear();
    let answer = ask_with(matrix, bound);
    (answer, meets_all(matrix, &[bound]))
}

/// A bound from a place to itself that has no values.
const BELOW_ITSELF: Bound = Bound { x: 1, y: 1, c: -1 };

/// Whether the place is 5 by bounds from both sides, has no value with a third, and has one with that alone.
fn is_circle_through_zero(matrix: &mut Matrix) -> bool {
    ask(matrix) == Some(true)
        && value(matrix, 1) == Some(5)
        && ask_with(matrix, AT_MOST_4) == Some(false)
        && ask_alone(matrix, AT_MOST_4) == (Some(true), true)
        && ask_with(matrix, BELOW_ITSELF) == Some(false)
}

#[test]
fn a_circle_through_zero(rt: HostRuntime) -> Result<(), Fail> {
    let mut matrix = matrix_of(rt.alloc(), 1, &[AT_LEAST_5, AT_MOST_5, AT_MOST_7])?;
    assert!(rt; is_circle_through_zero(&mut matrix));
    Ok(())
}

/// Whether the matrix finds values for bounds, which it gives, or none, where there are none: whether there are values,
/// unless it is wrong.
fn is_right(alloc: Global, size: usize, bounds: &[Bound]) -> Result<Option<bool>, AllocError> {
    let wanted = has_values(alloc, size, bounds)?;
    let told = if wanted {
        has_met(alloc, size, bounds)?
    } else {
        has_none(alloc, size, bounds)?
    };
    Ok(if told { Some(wanted) } else { None })
}

/// The same of random bounds over so many places.
fn is_right_at(alloc: Global, seed: &mut u64, size: u8) -> Result<Option<bool>, AllocError> {
    let count = next(seed, size.saturating_mul(3).saturating_add(2));
    let bounds = some_bounds(alloc, seed, size, count)?;
    is_right(alloc, size as usize, &bounds)
}

#[test]
fn a_thousand_random_systems(rt: HostRuntime) -> Result<(), Fail> {
    let mut seed = 20_261_128;
    let mut yes = 0u32;
    for size in 0..13u8 {
        for _ in 0..77 {
            let told = is_right_at(rt.alloc(), &mut seed, size)?;
            assert!(rt; told.is_some(), "{size}");
            if told == Some(true) {
                yes = yes.saturating_add(1);
            }
        }
    }
    assert!(rt; 250 < yes && yes < 750, "{yes}");
    Ok(())
}

/// Whether a circle of a constant downward has no values.
fn is_no_circle(alloc: Global, size: usize, most: i128) -> Result<bool, AllocError> {
    let downward = circle(alloc, size, 0i128.saturating_sub(most))?;
    has_none(alloc, size, &downward)
}

/// Whether a circle of a constant upward has values.
fn is_circle(alloc: Global, size: usize, most: i128) -> Result<bool, AllocError> {
    let upward = circle(alloc, size, most)?;
    has_met(alloc, size, &upward)
}

/// What the last place is without the circle's end, and the answer with a bound beyond the limit.
fn open_circle(
    alloc: Global,
    size: usize,
    most: i128,
) -> Result<(Option<i128>, Option<bool>), AllocError> {
    let mut downward = circle(alloc, size, 0i128.saturating_sub(most))?;
    let _ = downward.pop();
    let mut matrix = matrix_of(alloc, size, &downward)?;
    if ask(&mut matrix) != Some(true) {
        return Ok((None, None));
    }
    let last = value(&matrix, size);
    let lowest = Bound {
        x: size,
        y: 0,
        c: i128::MIN,
    };
    Ok((last, ask_with(&mut matrix, lowest)))
}

/// Numbers of places and the largest constants that they may have: 2^(126 - size) - 1; from 2^(126 - size) on the weight
/// is 127.
static LARGEST: [(usize, i128); 4] = [
    (1, i128::MAX >> 2),
    (5, i128::MAX >> 6),
    (62, i128::MAX >> 63),
    (125, 1),
];

/// Whether so many places with these constants are told right.
fn is_largest(alloc: Global, size: usize, most: i128) -> Result<bool, AllocError> {
    let last = most.saturating_mul(size as i128);
    Ok(
        is_circle(alloc, size, most)?
            && is_no_circle(alloc, size, most)?
            && open_circle(alloc, size, most)? == (Some(last), None),
    )
}

/// The first number of places of which something else is told.
fn largest_failing(alloc: Global) -> Result<Option<usize>, AllocError> {
    for (size, most) in &LARGEST {
        if !is_largest(alloc, *size, *most)? {
            return Ok(Some(*size));
        }
    }
    Ok(None)
}

#[test]
fn a_weight_of_126_with_the_largest_constants(rt: HostRuntime) {
    assert_eq!(rt; largest_failing(rt.alloc()), Ok(None));
}
