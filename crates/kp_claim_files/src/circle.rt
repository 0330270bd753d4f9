// Claims that depend on themselves.
ghost use Rattle.std.specs.Prelude.{◌≡◌, ◌<◌, ◌++◌, ℕ, [], List, IfOk, IfErr, OnOk, map, length, get_or, option_to_list, string_bytes};
ghost use Rattle.std.specs.List.{AllZip, filter_map};
ghost use Rattle.indexmap.specs.IndexMap.{get_by_text};
ghost use Rattle.kp_kore.specs.Signature.{KoreSignature};
ghost use Rattle.kp_kore.specs.Syntax.{KoreSentence};
ghost use Rattle.kp_kore.specs.View.{names_view};
ghost use Rattle.kp_layers.specs.Layers.{DependsOn};
ghost use Rattle.kp_layers.specs.Walks.{numbers_of};
ghost use Rattle.kp_signature.specs.Names.{Indexes};
ghost use Rattle.kp_claims.specs.Faults.{circle, labels_of, TellsOf};
ghost use Rattle.kp_claim_sentences.specs.Claims.{IsStatedBy};
ghost use Rattle.kp_claim_sentences.specs.Faults.{AreFaultless, file_labels, IsCircle, needs_of as stated_needs};
ghost use Rattle.kp_claim_sentences.specs.Items.{items_view};

use crate::labels::LabelPlaces;
use kp_claim_sentences::FiledClaim;
use kp_claims::{ClaimError, ClaimFault};
use kp_kore::Name;
use kp_layers::{Layering, layers_of};
use std::alloc::{AllocError, Global};

/// C5 of a claim that depends on itself, at once or over others.
pub fn check_circles(
    alloc: Global,
    places: &LabelPlaces,
    items: &[FiledClaim],
) -> Result<(), ClaimError>
    ensures ok { (ss : List KoreSentence) → let needs = stated_needs ss in Indexes (labels_of ss) places.now → AllZip IsStatedBy ss (items_view items.now) → OnOk result ((i : ℕ) → ¬ DependsOn needs i i) }
    ensures err { (g : KoreSignature) (ss : List KoreSentence) → let it' = items_view items.now in Indexes (labels_of ss) places.now → AllZip IsStatedBy ss it' → AreFaultless g (file_labels ss) [] ss → IfErr result (TellsOf (IsCircle g ss)) }
{
    let needs = needs_of(alloc, places, items)?;
    match layers_of(alloc, &needs)? {
        Layering::Layers(_) => Ok(()),
        Layering::Cycle(place) => Err(circle_at(items, place)?),
    }
}

/// C5 of the claim at a place.
fn circle_at(items: &[FiledClaim], place: usize) -> Result<ClaimError, AllocError>
    requires { place < length items.now }
    ensures { IfOk result (TellsOf (λ f. f ≡ circle (get_or (map (λ i. i.label) (items_view items.now)) place []))) }
{
    Ok(ClaimError::Fault(ClaimFault::Circle(items[place].label.clone()?)))
}

/// For each claim the places of those that it depends on.
fn needs_of(
    alloc: Global,
    places: &LabelPlaces,
    items: &[FiledClaim],
) -> Result<Vec<Vec<usize>>, AllocError>
    ensures { IfOk result (λ needs. numbers_of needs.items ≡ map (λ i. filter_map (get_by_text places.now) i.depends) (items_view items.now)) }
{
    let mut needs = Vec::new(alloc);
    for item in items {
        needs.push(places_among(alloc, places, &item.depends)?)?;
    }
    Ok(needs)
}

/// The places of these labels, of those that have one.
fn places_among(
    alloc: Global,
    places: &LabelPlaces,
    labels: &[Name],
) -> Result<Vec<usize>, AllocError>
    ensures { IfOk result (λ found. found.items ≡ filter_map (get_by_text places.now) (names_view labels.now)) }
{
    let mut found = Vec::new(alloc);
    for label in labels {
        add_place(places, &mut found, label)?;
    }
    Ok(found)
}

/// Adds the place of a label, where it has one.
fn add_place(places: &LabelPlaces, found: &mut Vec<usize>, label: &Name) -> Result<(), AllocError>
    ensures { OnOk result (found.new.items ≡ found.old.items ++ option_to_list (get_by_text places.now (string_bytes label.now))) }
{
    match places.get(label.as_str()).copied() {
        Some(place) => Ok(found.push(place)?),
        None => Ok(()),
    }
}
