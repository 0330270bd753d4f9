use crate::decided::SMALL;
use crate::deciding::STATE;
use crate::rows::{Asked, first_failed};
use std::alloc::{AllocError, Global};
use std::test::Fail;

/// Whether the literal of a row holds.
fn holds(row: usize, x: u8, y: u8, p: bool) -> bool {
    match row {
        0 | 2 => x < y,
        1 => x >= y,
        3 => x > 1,
        4 => x <= 1,
        5 => y > 0,
        6 => y >= 2,
        7 => x == y,
        8 => x != y,
        9 => x == 1,
        10 => x != 1,
        11 => (x == 0 && y == 1) || (x == 1 && y == 2),
        12 => y == 0,
        13 => y < x,
        14 => p,
        _ => !p,
    }
}

/// The numbers of the rows: a clause of two, and two of one each.
#[derive(Clone, Copy)]
struct Drawn {
    first: usize,
    second: usize,
    third: usize,
    fourth: usize,
}

/// Whether all clauses hold.
fn all_hold(drawn: Drawn, x: u8, y: u8, p: bool) -> bool {
    (holds(drawn.first, x, y, p) || holds(drawn.second, x, y, p))
        && holds(drawn.third, x, y, p)
        && holds(drawn.fourth, x, y, p)
}

/// Whether all clauses hold for some values.
fn can_hold(drawn: Drawn) -> bool {
    for n in 0u8..9 {
        if all_hold(drawn, n / 3, n % 3, true) || all_hold(drawn, n / 3, n % 3, false) {
            return true;
        }
    }
    false
}

/// The letter of a row.
fn letter(row: usize) -> char {
    (65 + (row % 16) as u8) as char
}

/// Adds the row of the clauses, and those of the ranges of X and Y, with what enumeration gives.
fn add_row(table: &mut String, drawn: Drawn) -> Result<(), AllocError> {
    table.push(letter(drawn.first))?;
    table.push(letter(drawn.second))?;
    table.push(';')?;
    table.push(letter(drawn.third))?;
    table.push(';')?;
    table.push(letter(drawn.fourth))?;
    table.push_str(";v;w;x;y -> ")?;
    table.push_str(if can_hold(drawn) { "some\n" } else { "none\n" })
}

/// The rows that a number draws.
fn draw(number: u64) -> Drawn {
    Drawn {
        first: (number % 16) as usize,
        second: (number / 16 % 16) as usize,
        third: (number / 256 % 16) as usize,
        fourth: (number / 4096 % 16) as usize,
    }
}

/// The rows of 5,000 random conditions, by linear congruences (Knuth).
fn rows(alloc: Global) -> Result<String, AllocError> {
    let mut table = String::new(alloc);
    let mut number: u64 = 32;
    for _i in 0..5_000 {
        number = number
            .wrapping_mul(6364136223846793005)
            .wrapping_add(1442695040888963407);
        add_row(&mut table, draw(number >> 40))?;
    }
    Ok(table)
}

#[test]
fn random_conditions_are_decided_as_by_enumeration(rt: HostRuntime) -> Result<(), Fail> {
    let table = rows(rt.alloc())?;
    assert_eq!(rt;
        first_failed(
            rt.alloc(),
            SMALL,
            &[(Asked::Decided(STATE), table.as_str())]
        ),
        None
    );
    Ok(())
}
