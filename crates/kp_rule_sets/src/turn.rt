// The turns of rules.
ghost use Rattle.std.specs.Prelude.{◌≡◌, ◌+◌, ◌*◌, ◌^◌, ◌%◌, ◌<◌, IfOk, length, map, true};
ghost use Rattle.kp_rule_sets.specs.Turns.{AreInTurn};
ghost use Rattle.kp_rule_sets.specs.Keys.{keys_from};

use kp_rules::Rule;
use std::alloc::{AllocError, Global};

/// More than any place.
const PLACES: u128 = 18446744073709551616;

/// A number by which rules are in turn: the priority number, and behind it the place.
fn key_of(priority: u32, place: usize) -> u128
    ensures { result ≡ priority * 2 ^ 64 + place }
{
    priority as u128 * PLACES + place as u128
}

/// The place of a key.
fn place_of(key: u128) -> usize
    ensures { result ≡ key % 2 ^ 64 }
{
    (key % PLACES) as usize
}

/// The keys of these rules.
fn keys_of(alloc: Global, rules: &[Rule]) -> Result<Vec<u128>, AllocError>
    ensures keys { IfOk result (λ keys. keys.items ≡ keys_from 0 rules.now) }
    ensures small { length rules.now < 2 ^ 64 }
{
    let mut keys = Vec::new(alloc);
    for place in 0..rules.len() {
        keys.push(key_of(rules[place].priority, place))?;
    }
    Ok(keys)
}

/// The places of these keys.
fn places_of(alloc: Global, keys: &[u128]) -> Result<Vec<usize>, AllocError>
    ensures { IfOk result (λ places. places.items ≡ map (λ k. k % 2 ^ 64) keys.now) }
{
    let mut places = Vec::new(alloc);
    for key in keys {
        places.push(place_of(*key))?;
    }
    Ok(places)
}

/// The places of all rules: by priority number, and of one number in order.
pub fn turn_order(alloc: Global, rules: &[Rule]) -> Result<Vec<usize>, AllocError>
    ensures { IfOk result (λ order. AreInTurn rules.now (λ _. true) order.items) }
{
    let mut keys = keys_of(alloc, rules)?;
    keys.sort_unstable();
    let places = places_of(alloc, &keys)?;
    Ok(places)
}
