// The walk along dependencies, depth first: down to a claim whose dependencies all have layers, which then gets its own.
ghost use Rattle.std.specs.Prelude.{◌≡◌, ◌<◌, ◌+◌, ◌^◌, IfOk, replicate, set, get_or};

use crate::open::{any_open, any_unknown, highest};
use std::alloc::{AllocError, Global};

/// What a step of a walk finds.
pub enum Step {
    More,
    /// The claim depends on itself.
    Cycle(usize),
    /// Each claim has a layer.
    Over,
}

/// Where a walk stands.
#[derive(Drop)]
pub struct Walk {
    /// The layer of each claim; 0 where it isn't known yet.
    pub layers: Vec<usize>,
    /// The claims that have got their layers, in that order.
    pub settled: Vec<usize>,
    /// Claims that wait for their layers, each of which needs the next one.
    pub path: Vec<usize>,
    /// For each claim where it was last put on the path. What this says is tested.
    pub places: Vec<usize>,
    /// For each claim how many of those that it needs were seen to have layers. What this says is tested.
    pub seen: Vec<usize>,
    /// The number of claims before which all were seen to have layers. What this says is tested.
    pub next: usize,
}

impl Walk {
    ghost use Rattle.std.specs.Prelude.{◌≡◌, ◌<◌, ◌⊎◌, ◌++◌, ◌∷◌, ℕ, List, [], false, true, IfOk, OnOk, length, get_or};
    ghost use Rattle.std.specs.List.{list_any, Contains};
    ghost use Rattle.kp_layers.specs.Layers.{is_open, DependsOn};
    ghost use Rattle.kp_layers.specs.Walks.{numbers_of, IsWalk, IsLast, Finds, work_left};

    /// At the begin, with no claim on the path.
    pub fn start(alloc: Global, claims: usize) -> Result<Walk, AllocError>
        ensures { (needs : List (List ℕ)) → length needs ≡ claims → IfOk result (IsWalk needs) }
    {
        Ok(Walk {
            layers: zeros(alloc, claims)?,
            settled: Vec::new(alloc),
            path: Vec::new(alloc),
            places: zeros(alloc, claims)?,
            seen: zeros(alloc, claims)?,
            next: 0,
        })
    }

    /// One step on.
    pub fn step(&mut self, needs: &[Vec<usize>]) -> Result<Step, AllocError>
        ensures { IsWalk (numbers_of needs.now) self.old → IfOk result (Finds (numbers_of needs.now) self.old self.new) }
    {
        if self.path.is_empty() {
            return self.begin();
        }
        let claim = self.path[self.path.len() - 1];
        if claim < needs.len() {
            return self.go_on(claim, &needs[claim]);
        }
        self.go_on(claim, &[])
    }

    /// The step where no claim is on the path.
    fn begin(&mut self) -> Result<Step, AllocError>
        ensures { (needs : List (List ℕ)) → IsWalk needs self.old → length self.old.path.items ≡ 0 → IfOk result (Finds needs self.old self.new) }
    {
        match any_unknown(&self.layers, self.next) {
            Some(claim) => {
                self.next = claim;
                self.put(claim)
            }
            None => Ok(Step::Over),
        }
    }

    /// The step at the last claim of the path, which needs these.
    fn go_on(&mut self, claim: usize, needed: &[usize]) -> Result<Step, AllocError>
        ensures { (needs : List (List ℕ)) → IsLast needs self.old claim needed.now → IfOk result (Finds needs self.old self.new) }
    {
        match any_open(&self.layers, needed, number_at(&self.seen, claim)) {
            Some(place) => {
                set_number(&mut self.seen, claim, place);
                self.enter(needed[place])
            }
            None => self.settle(claim, needed),
        }
    }

    /// The step to a claim that the last one needs.
    fn enter(&mut self, other: usize) -> Result<Step, AllocError>
        ensures { (needs : List (List ℕ)) (claim : ℕ) (needed : List ℕ) → IsLast needs self.old claim needed → Contains needed other → IfOk result (Finds needs self.old self.new) }
    {
        if self.is_on_path(other) {
            return Ok(Step::Cycle(other));
        }
        self.put(other)
    }

    /// Whether a claim is found on the path; false says nothing.
    fn is_on_path(&self, claim: usize) -> bool
        ensures { result ≡ true → Contains self.now.path.items claim }
    {
        let place = number_at(&self.places, claim);
        if place < self.path.len() {
            self.path[place] == claim
        } else {
            false
        }
    }

    /// Puts a claim on the path.
    fn put(&mut self, claim: usize) -> Result<Step, AllocError>
        ensures { let path' = self.old.path.items in (needs : List (List ℕ)) → IsWalk needs self.old → ((i : ℕ) → i < length path' → DependsOn needs (get_or path' i 0) claim) → IfOk result (Finds needs self.old self.new) }
    {
        set_number(&mut self.places, claim, self.path.len());
        self.path.push(claim)?;
        Ok(Step::More)
    }

    /// Gives the last claim of the path its layer, and takes it from the path.
    fn settle(&mut self, claim: usize, needed: &[usize]) -> Result<Step, AllocError>
        ensures { let layers' = self.old.layers.items in (needs : List (List ℕ)) → IsLast needs self.old claim needed.now → list_any (is_open layers') needed.now ≡ false → IfOk result (Finds needs self.old self.new) }
    {
        let layer = above(highest(&self.layers, needed));
        self.settled.push(claim)?;
        set_number(&mut self.layers, claim, layer);
        self.path.pop();
        Ok(Step::More)
    }
}

/// The next layer.
fn above(layer: usize) -> usize
    ensures { layer + 1 < 2 ^ 64 → result ≡ layer + 1 }
{
    layer.saturating_add(1)
}

/// So many zeros.
fn zeros(alloc: Global, count: usize) -> Result<Vec<usize>, AllocError>
    ensures { IfOk result (λ numbers. numbers.items ≡ replicate count 0) }
{
    let mut numbers = Vec::new(alloc);
    numbers.resize(count, 0)?;
    Ok(numbers)
}

/// The number at a place; 0 where there is none.
fn number_at(numbers: &[usize], place: usize) -> usize
    ensures { result ≡ get_or numbers.now place 0 }
{
    if place < numbers.len() {
        numbers[place]
    } else {
        0
    }
}

/// Changes the number at a place, where there is one.
fn set_number(numbers: &mut Vec<usize>, place: usize, number: usize)
    ensures { numbers.new.items ≡ set numbers.old.items place number }
{
    if place < numbers.len() {
        numbers[place] = number;
    }
}
