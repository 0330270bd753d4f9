use kp_kore::{Pattern, Sort};

/// No value: `\bottom`.
pub(crate) const NOTHING: u64 = 0;

/// Every value: `\top`.
const ALL: u64 = 1;

/// The code of the truth value `false`.
pub(crate) const FALSE: u64 = 2;

/// That of `true`.
const TRUE: u64 = 3;

/// The code of the number 0. Numbers near it have the codes near it.
pub(crate) const ZERO: u64 = 1_000;

/// A code of a part that stands under a mark.
pub(crate) fn marked(mark: u64, part: u64) -> u64 {
    let mixed = part
        .wrapping_mul(0x9e37_79b9_7f4a_7c15)
        .wrapping_add(mark.wrapping_mul(0xbf58_476d_1ce4_e5b9));
    (mixed ^ (mixed >> 31)) | (1 << 63)
}

/// The place of a variable's value, by the last byte of its name.
pub(crate) fn place_of(name: &str) -> usize {
    match name.as_bytes() {
        [.., last] => (*last % 64) as usize,
        [] => 0,
    }
}

/// The code of a number.
fn number(text: &str) -> u64 {
    let mut found: u64 = 0;
    for byte in text.as_bytes() {
        if b'0' <= *byte {
            found = found
                .wrapping_mul(10)
                .wrapping_add((*byte as u64).wrapping_sub(48));
        }
    }
    match text.as_bytes() {
        [b'-', ..] => ZERO.wrapping_sub(found),
        _ => ZERO.wrapping_add(found),
    }
}

/// The code of a literal of a sort.
fn literal(sort: &Sort, text: &str) -> u64 {
    match name_of(sort) {
        "I" => number(text),
        "B" => truth(text == "true"),
        _ => marked(7, number(text)),
    }
}

/// The code of a truth value.
fn truth(holds: bool) -> u64 {
    if holds { TRUE } else { FALSE }
}

/// Whether a code is that of `true`.
fn is_true(code: u64) -> bool {
    code == TRUE
}

/// The code of a predicate.
fn fact(holds: bool) -> u64 {
    if holds { ALL } else { NOTHING }
}

/// The name of a sort.
fn name_of(sort: &Sort) -> &str {
    match sort {
        Sort::App { name, .. } | Sort::Variable { name } => name.as_str(),
    }
}

/// What two patterns have in common.
fn meet(left: Option<u64>, right: Option<u64>) -> Option<u64> {
    let left = left?;
    let right = right?;
    if left == ALL {
        return Some(right);
    }
    Some(if right == ALL || left == right {
        left
    } else {
        NOTHING
    })
}

/// What is in one of two predicates.
fn join(left: Option<u64>, right: Option<u64>) -> Option<u64> {
    let left = left?;
    let right = right?;
    if ALL < left || ALL < right {
        return None;
    }
    Some(left.max(right))
}

/// The opposite of a predicate.
fn opposite(code: Option<u64>) -> Option<u64> {
    match code {
        Some(NOTHING) => Some(ALL),
        Some(ALL) => Some(NOTHING),
        _ => None,
    }
}

/// Whether two patterns stand for the same.
fn same(left: Option<u64>, right: Option<u64>) -> Option<u64> {
    let left = left?;
    let right = right?;
    Some(fact(left == right))
}

/// Whether a pattern stands for something.
fn defined(code: Option<u64>) -> Option<u64> {
    let code = code?;
    Some(fact(code != NOTHING))
}

/// Whether a pattern stands for everything.
fn total(code: Option<u64>) -> Option<u64> {
    let code = code?;
    Some(fact(code == ALL))
}

/// What a symbol without arguments stands for.
fn constant(symbol: &str) -> Option<u64> {
    match symbol {
        "a" => Some(marked(8, 0)),
        "b" => Some(marked(8, 1)),
        "nil" => Some(marked(9, 0)),
        _ => None,
    }
}

/// What a symbol makes of one value. `inj` keeps it, since the codes of all sorts differ.
fn of_one(symbol: &str, part: Option<u64>) -> Option<u64> {
    let part = part?;
    match symbol {
        "inj" => Some(part),
        "f" => Some(marked(1, part)),
        "g" => Some(marked(2, part)),
        "e" => Some(marked(3, part)),
        "t" => Some(marked(4, part)),
        "h" => Some(marked(5, part)),
        "no" => Some(truth(!is_true(part))),
        _ => None,
    }
}

/// What a symbol makes of two values.
fn of_two(symbol: &str, left: Option<u64>, right: Option<u64>) -> Option<u64> {
    let left = left?;
    let right = right?;
    match symbol {
        "pair" => Some(marked(6, marked(left, right))),
        "add" => Some(left.wrapping_add(right).wrapping_sub(ZERO)),
        "sub" => Some(left.wrapping_sub(right).wrapping_add(ZERO)),
        "lt" => Some(truth(left < right)),
        "ge" => Some(truth(left >= right)),
        "eq" | "same" => Some(truth(left == right)),
        "ne" => Some(truth(left != right)),
        "both" => Some(truth(is_true(left) && is_true(right))),
        "either" => Some(truth(is_true(left) || is_true(right))),
        _ => None,
    }
}

/// How many values of a sort a quantifier goes over.
fn count_of(sort: &Sort) -> u64 {
    match name_of(sort) {
        "P" | "B" => 2,
        _ => 8,
    }
}

/// One of them.
fn value_at(sort: &Sort, at: u64) -> u64 {
    let near = ZERO.wrapping_sub(2).wrapping_add(at);
    match name_of(sort) {
        "P" => marked(8, at),
        "B" => FALSE.wrapping_add(at),
        "I" => near,
        _ => marked(1, near),
    }
}

/// The value of a variable.
fn named(name: &str, values: &[u64]) -> Option<u64> {
    match values.get(place_of(name)) {
        Some(value) => Some(*value),
        None => None,
    }
}

/// Gives a variable a value, and tells the one that it had.
pub(crate) fn put(values: &mut [u64], place: usize, value: u64) -> u64 {
    if place < values.len() {
        let old = values[place];
        values[place] = value;
        return old;
    }
    NOTHING
}

/// What a pattern stands for under values of its variables: nothing, everything or one value; none where this isn't known.
#[cycle(instance)]
pub(crate) fn instance(pattern: &Pattern, values: &mut [u64]) -> Option<u64> {
    match pattern {
        Pattern::Variable { name, .. } => named(name, values),
        Pattern::Literal { sort, text } => Some(literal(sort, text)),
        Pattern::Application {
            symbol,
            arguments,
            ..
        } => applied(arguments, symbol, values),
        Pattern::Top { .. } => Some(ALL),
        Pattern::Bottom { .. } => Some(NOTHING),
        Pattern::Not { pattern, .. } => opposite(instance(pattern, values)),
        Pattern::And { patterns, .. } => conjoined(patterns, values),
        Pattern::Or { patterns, .. } => disjoined(patterns, values),
        Pattern::Implies { left, right, .. } => {
            let left = opposite(instance(left, values));
            join(left, instance(right, values))
        }
        Pattern::Iff { left, right, .. }
        | Pattern::Equals { left, right, .. }
        | Pattern::In { left, right, .. } => {
            let left = instance(left, values);
            same(left, instance(right, values))
        }
        Pattern::Ceil { pattern, .. } => defined(instance(pattern, values)),
        Pattern::Floor { pattern, .. } => total(instance(pattern, values)),
        Pattern::Exists {
            name,
            name_sort,
            pattern,
            ..
        } => some_of(pattern, name, name_sort, ALL, values),
        Pattern::Forall {
            name,
            name_sort,
            pattern,
            ..
        } => opposite(some_of(pattern, name, name_sort, NOTHING, values)),
        _ => None,
    }
}

/// A symbol over its arguments.
#[cycle(instance)]
fn applied(arguments: &[Pattern], symbol: &str, values: &mut [u64]) -> Option<u64> {
    match arguments {
        [] => constant(symbol),
        [part] => of_one(symbol, instance(part, values)),
        [left, right] => {
            let left = instance(left, values);
            of_two(symbol, left, instance(right, values))
        }
        _ => None,
    }
}

/// What all have in common.
#[cycle(instance)]
fn conjoined(patterns: &[Pattern], values: &mut [u64]) -> Option<u64> {
    let mut found = Some(ALL);
    for pattern in patterns {
        found = meet(found, instance(pattern, values));
    }
    found
}

/// What is in one of them.
#[cycle(instance)]
fn disjoined(patterns: &[Pattern], values: &mut [u64]) -> Option<u64> {
    let mut found = Some(NOTHING);
    for pattern in patterns {
        found = join(found, instance(pattern, values));
    }
    found
}

/// Whether the predicate is this for some value of a variable.
#[cycle(instance)]
fn some_of(
    pattern: &Pattern,
    name: &str,
    sort: &Sort,
    wanted: u64,
    values: &mut [u64],
) -> Option<u64> {
    let place = place_of(name);
    let old = put(values, place, NOTHING);
    let mut found = Some(NOTHING);
    for at in 0..count_of(sort) {
        put(values, place, value_at(sort, at));
        found = join(found, same(Some(wanted), instance(pattern, values)));
    }
    put(values, place, old);
    found
}
