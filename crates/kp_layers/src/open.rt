// Which claims have a layer already. A claim that there isn't counts as one that has.
ghost use Rattle.std.specs.Prelude.{◌≡◌, ◌<◌, ◌≤◌, ◌==◌, ℕ, true, false, max, length, get_or, IfSome, IfNone};
ghost use Rattle.std.specs.List.{list_any};
ghost use Rattle.kp_layers.specs.Layers.{highest as highest_of, is_open as open_test};

/// Whether there is such a claim, and it has no layer yet.
pub fn is_open(layers: &[usize], claim: usize) -> bool
    ensures { result ≡ open_test layers.now claim }
{
    if claim < layers.len() {
        layers[claim] == 0
    } else {
        false
    }
}

/// The place of the first of these claims that is open.
pub fn first_open(layers: &[usize], claims: &[usize]) -> Option<usize>
    ensures found { IfSome result (λ k. k < length claims.now) }
    ensures open { IfSome result (λ k. open_test layers.now (get_or claims.now k 0) ≡ true) }
    ensures none { IfNone result (list_any (open_test layers.now) claims.now ≡ false) }
{
    for k in 0..claims.len() {
        if is_open(layers, claims[k]) {
            return Some(k);
        }
    }
    None
}

/// The place of one of these claims that is open, the first from a place on; None says nothing.
fn open_from(layers: &[usize], claims: &[usize], from: usize) -> Option<usize>
    ensures found { IfSome result (λ k. k < length claims.now) }
    ensures open { IfSome result (λ k. open_test layers.now (get_or claims.now k 0) ≡ true) }
{
    for k in from..claims.len() {
        if is_open(layers, claims[k]) {
            return Some(k);
        }
    }
    None
}

/// The place of an open one, looked for from a place on and then from the first.
pub fn any_open(layers: &[usize], claims: &[usize], from: usize) -> Option<usize>
    ensures found { IfSome result (λ k. k < length claims.now) }
    ensures open { IfSome result (λ k. open_test layers.now (get_or claims.now k 0) ≡ true) }
    ensures none { IfNone result (list_any (open_test layers.now) claims.now ≡ false) }
{
    match open_from(layers, claims, from) {
        Some(place) => Some(place),
        None => first_open(layers, claims),
    }
}

/// The layer of a claim; 0 where it has none.
fn layer_of(layers: &[usize], claim: usize) -> usize
    ensures { result ≡ get_or layers.now claim 0 }
{
    if claim < layers.len() {
        layers[claim]
    } else {
        0
    }
}

/// The highest layer of these claims; 0 where none has one.
pub fn highest(layers: &[usize], claims: &[usize]) -> usize
    ensures is { result ≡ highest_of layers.now claims.now }
    ensures bound { (most : ℕ) → ((j : ℕ) → get_or layers.now j 0 ≤ most) → result ≤ most }
{
    let mut most = 0;
    for claim in claims {
        most = larger(most, layer_of(layers, *claim));
    }
    most
}

/// The larger of two.
fn larger(a: usize, b: usize) -> usize
    ensures { result ≡ max a b }
{
    if a < b { b } else { a }
}

/// The place of the first claim without a layer.
fn first_unknown(layers: &[usize]) -> Option<usize>
    ensures none { IfNone result (list_any (λ l. l == 0) layers.now ≡ false) }
{
    for k in 0..layers.len() {
        if layers[k] == 0 {
            return Some(k);
        }
    }
    None
}

/// The place of some claim without a layer, from this one on; None says nothing.
fn unknown_from(layers: &[usize], from: usize) -> Option<usize> {
    for k in from..layers.len() {
        if layers[k] == 0 {
            return Some(k);
        }
    }
    None
}

/// The place of some claim without a layer, looked for from a place on and then from the first.
pub fn any_unknown(layers: &[usize], from: usize) -> Option<usize>
    ensures none { IfNone result (list_any (λ l. l == 0) layers.now ≡ false) }
{
    match unknown_from(layers, from) {
        Some(place) => Some(place),
        None => first_unknown(layers),
    }
}
