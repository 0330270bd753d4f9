use crate::demands::{Values, meets_one};
use kp_clause_demands::{ComparedPart, comparison_ways};
use kp_demands::Demand;
use kp_kore::Comparison;
use std::alloc::{AllocError, Global};
use std::test::Fail;

/// Whether the comparison holds of two numbers.
fn holds(comparison: Comparison, first: i128, second: i128) -> bool {
    match comparison {
        Comparison::Equal => first == second,
        Comparison::Different => first != second,
        Comparison::Less => first < second,
        Comparison::AtMost => first <= second,
        Comparison::Greater => first > second,
        Comparison::AtLeast => first >= second,
    }
}

/// The ways for x + 3 and y - 2 to compare so.
fn ways(alloc: Global, comparison: Comparison) -> Result<Vec<Vec<Demand>>, AllocError> {
    let first = ComparedPart {
        place: 1,
        constant: 3,
    };
    let second = ComparedPart {
        place: 2,
        constant: -2,
    };
    comparison_ways(alloc, comparison, first, second)
}

/// The numbers at a place of 225 pairs, from -7 to 7.
fn pair_at(n: u64) -> Values {
    Values {
        first: ((n % 15) as i128).saturating_sub(7),
        second: ((n / 15 % 15) as i128).saturating_sub(7),
        left: false,
        right: false,
        third: 0,
        fourth: 0,
    }
}

/// Whether one way is met exactly where the comparison holds, of all pairs.
fn are_right(comparison: Comparison, ways: &[Vec<Demand>]) -> bool {
    for n in 0..225 {
        let pair = pair_at(n);
        let first = pair.first.saturating_add(3);
        let second = pair.second.saturating_sub(2);
        if meets_one(pair, ways) != holds(comparison, first, second) {
            return false;
        }
    }
    true
}

/// The comparisons.
const COMPARISONS: [(Comparison, &str); 6] = [
    (Comparison::Equal, "="),
    (Comparison::Different, "/="),
    (Comparison::Less, "<"),
    (Comparison::AtMost, "<="),
    (Comparison::Greater, ">"),
    (Comparison::AtLeast, ">="),
];

#[test]
fn one_way_is_met_where_a_comparison_holds(rt: HostRuntime) -> Result<(), Fail> {
    for (comparison, name) in COMPARISONS {
        let ways = ways(rt.alloc(), comparison)?;
        assert!(rt; are_right(comparison, &ways), "{name}");
    }
    Ok(())
}
