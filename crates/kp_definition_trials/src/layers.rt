use crate::rows::{Asked, NONE, first_failed};
use kp_layers::{Layering, layers_of};
use std::alloc::{AllocError, Global};
use std::test::Fail;

/// Adds numbers, each ended by a semicolon.
fn add_numbers(alloc: Global, numbers: &[usize], told: &mut String) -> Result<(), AllocError> {
    for number in numbers {
        let text = format!(in alloc; "{number};")?;
        told.push_str(text.as_str())?;
    }
    Ok(())
}

/// Adds the layers, or `cycle`.
fn needs_told(alloc: Global, needs: &[Vec<usize>], told: &mut String) -> Result<(), AllocError> {
    match layers_of(alloc, needs)? {
        Layering::Layers(layers) => add_numbers(alloc, &layers, told),
        Layering::Cycle(_) => told.push_str("cycle"),
    }
}

/// The places whose digits stand in a text.
fn places(alloc: Global, text: &str) -> Result<Vec<usize>, AllocError> {
    let mut places = Vec::new(alloc);
    for byte in text.bytes() {
        if byte != 44 {
            places.push(byte as usize % 16)?;
        }
    }
    Ok(places)
}

/// Adds the layers of what `"1,2;;0"` says: the first claim depends on the second and the third, the third on the first.
pub(crate) fn layers_told(alloc: Global, text: &str, told: &mut String) -> Result<(), AllocError> {
    let mut needs = Vec::new(alloc);
    for part in text.split(';') {
        needs.push(places(alloc, part)?)?;
    }
    needs_told(alloc, &needs, told)
}

/// Claims stand above those that they depend on.
const LAYERS: &str = ";; -> 1;1;1;
1; -> 2;1;
;0 -> 1;2;
1,2;3;3; -> 3;2;2;1;
3;0;1; -> 2;3;4;1;
0 -> cycle
1;0 -> cycle
;2;1 -> cycle
1;2;3;1 -> cycle";

#[test]
fn claims_stand_above_those_that_they_depend_on(rt: HostRuntime) {
    assert_eq!(rt;
        first_failed(rt.alloc(), NONE, &[(Asked::Layers, LAYERS)]),
        None
    );
}

/// Each claim depends on the next one, and the last on these.
fn chain(alloc: Global, count: usize, last: Vec<usize>) -> Result<Vec<Vec<usize>>, AllocError> {
    let mut needs = Vec::new(alloc);
    for next in 1..count {
        let mut places = Vec::new(alloc);
        places.push(next)?;
        needs.push(places)?;
    }
    needs.push(last)?;
    Ok(needs)
}

/// The first and the last of layers.
fn first_and_last(layers: &[usize]) -> (usize, usize) {
    if layers.is_empty() {
        return (0, 0);
    }
    (layers[0], layers[layers.len() - 1])
}

/// The layers of the first and of the last claim; two zeros of a cycle.
fn ends(alloc: Global, needs: &[Vec<usize>]) -> Result<(usize, usize), AllocError> {
    match layers_of(alloc, needs)? {
        Layering::Layers(layers) => Ok(first_and_last(&layers)),
        Layering::Cycle(_) => Ok((0, 0)),
    }
}

#[test]
fn a_hundred_thousand_claims_in_a_chain(rt: HostRuntime) -> Result<(), Fail> {
    let needs = chain(rt.alloc(), 100_000, Vec::new(rt.alloc()))?;
    assert_eq!(rt; ends(rt.alloc(), &needs)?, (100_000, 1));
    Ok(())
}

#[test]
fn fifty_thousand_claims_in_a_ring(rt: HostRuntime) -> Result<(), Fail> {
    let needs = chain(rt.alloc(), 50_000, places(rt.alloc(), "0")?)?;
    assert_eq!(rt; ends(rt.alloc(), &needs)?, (0, 0));
    Ok(())
}
