use kp_demands::{Demand, Limits, Tables, can_be_met};
use std::alloc::{AllocError, Global};
use std::test::Fail;

/// Two whole numbers from -4 to 4, two truth values, and the classes of two tokens beside two that are written out.
#[derive(Clone, Copy)]
pub(crate) struct Values {
    pub(crate) first: i128,
    pub(crate) second: i128,
    pub(crate) left: bool,
    pub(crate) right: bool,
    pub(crate) third: usize,
    pub(crate) fourth: usize,
}

/// The values at a place, of which there are 5,184.
fn values_at(n: u64) -> Values {
    Values {
        first: ((n % 9) as i128).saturating_sub(4),
        second: ((n / 9 % 9) as i128).saturating_sub(4),
        left: n / 81 % 2 == 0,
        right: n / 162 % 2 == 0,
        third: (n / 324 % 4) as usize,
        fourth: (n / 1296 % 4) as usize,
    }
}

fn whole(values: Values, x: usize) -> i128 {
    match x {
        0 => 0,
        1 => values.first,
        _ => values.second,
    }
}

fn truth(values: Values, x: usize) -> bool {
    if x == 0 { values.left } else { values.right }
}

fn class(values: Values, x: usize) -> usize {
    match x {
        0 => 0,
        1 => 1,
        2 => values.third,
        _ => values.fourth,
    }
}

fn meets(values: Values, demand: Demand) -> bool {
    match demand {
        Demand::Bound {
            first,
            second,
            most,
        } => whole(values, first).saturating_sub(whole(values, second)) <= most,
        Demand::Truth { name, value } => truth(values, name) == value,
        Demand::Same { first, second } => class(values, first) == class(values, second),
        Demand::Apart { first, second } => class(values, first) != class(values, second),
    }
}

fn meets_all(values: Values, demands: &[Demand]) -> bool {
    for demand in demands {
        if !meets(values, *demand) {
            return false;
        }
    }
    true
}

/// What the tables say, where the demands are on unknowns that they have.
fn ask(alloc: Global, demands: &[Demand]) -> Result<Option<bool>, AllocError> {
    let limits = Limits {
        wholes: 2,
        truths: 2,
        classes: 4,
        bound: 4,
    };
    if !limits.allow_all(demands) {
        return Ok(None);
    }
    let mut tables = Tables::new(alloc, 2, 2, 4, 2)?;
    Ok(Some(tables.meet(demands)))
}

/// The next of some random numbers (xorshift), below a limit.
fn next(seed: &mut u64, limit: u8) -> u64 {
    *seed ^= *seed << 13;
    *seed ^= *seed >> 7;
    *seed ^= *seed << 17;
    if limit == 0 { 0 } else { *seed % limit as u64 }
}

/// A random demand, of a constant from -2 to 2.
fn some_demand(seed: &mut u64) -> Demand {
    let kind = next(seed, 6);
    let first = next(seed, 4) as usize;
    let second = next(seed, 4) as usize;
    let number = next(seed, 5) as i128;
    match kind {
        0 => Demand::Truth {
            name: first % 2,
            value: second < 2,
        },
        1 | 2 => Demand::Same { first, second },
        3 => Demand::Apart { first, second },
        _ => Demand::Bound {
            first: first % 3,
            second: second % 3,
            most: number.saturating_sub(2),
        },
    }
}

fn some_demands(alloc: Global, seed: &mut u64) -> Result<Vec<Demand>, AllocError> {
    let mut demands = Vec::new(alloc);
    for _ in 0..next(seed, 9) {
        demands.push(some_demand(seed))?;
    }
    Ok(demands)
}

#[test]
fn five_thousand_random_conditions(rt: HostRuntime) -> Result<(), Fail> {
    let mut seed = 20_261_128;
    let mut yes = 0u32;
    for _ in 0..5000 {
        let demands = some_demands(rt.alloc(), &mut seed)?;
        let wanted = some_meet_each(&[], &demands);
        assert_eq!(rt; ask(rt.alloc(), &demands)?, Some(wanted));
        if wanted {
            yes = yes.saturating_add(1);
        }
    }
    assert!(rt; 1000 < yes && yes < 4000, "{yes}");
    Ok(())
}

/// Whether the values meet one of the ways.
pub(crate) fn meets_one(values: Values, ways: &[Vec<Demand>]) -> bool {
    for way in ways {
        if meets_all(values, way) {
            return true;
        }
    }
    false
}

/// Whether the values meet one way of each choice.
fn meets_each(values: Values, choices: &[Vec<Vec<Demand>>]) -> bool {
    for ways in choices {
        if !meets_one(values, ways) {
            return false;
        }
    }
    true
}

/// Whether some values meet all demands and one way of each choice, by trying all.
fn some_meet_each(choices: &[Vec<Vec<Demand>>], demands: &[Demand]) -> bool {
    for n in 0..5184 {
        let values = values_at(n);
        if meets_all(values, demands) && meets_each(values, choices) {
            return true;
        }
    }
    false
}

/// What is said of choices beside demands, where all are on unknowns that the tables have.
fn ask_choices(
    alloc: Global,
    choices: &[Vec<Vec<Demand>>],
    demands: &mut Vec<Demand>,
) -> Result<Option<bool>, AllocError> {
    let limits = Limits {
        wholes: 2,
        truths: 2,
        classes: 4,
        bound: 4,
    };
    if !limits.allow_all(demands) || !limits.allow_choices(choices) {
        return Ok(None);
    }
    let mut tables = Tables::new(alloc, 2, 2, 4, 2)?;
    Ok(Some(can_be_met(alloc, choices, demands, &mut tables)?))
}

/// Up to three ways of up to eight demands each.
fn some_ways(alloc: Global, seed: &mut u64) -> Result<Vec<Vec<Demand>>, AllocError> {
    let mut ways = Vec::new(alloc);
    for _ in 0..next(seed, 4) {
        ways.push(some_demands(alloc, seed)?)?;
    }
    Ok(ways)
}

/// Up to three choices.
fn some_choices(alloc: Global, seed: &mut u64) -> Result<Vec<Vec<Vec<Demand>>>, AllocError> {
    let mut choices = Vec::new(alloc);
    for _ in 0..next(seed, 4) {
        choices.push(some_ways(alloc, seed)?)?;
    }
    Ok(choices)
}

#[test]
fn a_thousand_random_choices(rt: HostRuntime) -> Result<(), Fail> {
    let mut seed = 20_261_129;
    let mut yes = 0u32;
    for _ in 0..1000 {
        let choices = some_choices(rt.alloc(), &mut seed)?;
        let mut demands = some_demands(rt.alloc(), &mut seed)?;
        let wanted = some_meet_each(&choices, &demands);
        let answer = ask_choices(rt.alloc(), &choices, &mut demands)?;
        assert_eq!(rt; answer, Some(wanted));
        if wanted {
            yes = yes.saturating_add(1);
        }
    }
    assert!(rt; 100 < yes && yes < 900, "{yes}");
    Ok(())
}
