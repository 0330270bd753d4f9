// The places of a history: it begins with one pass that has all of them; a pass is split off, and taken in again.
ghost use Rattle.std.specs.Prelude.{◌≡◌, ◌≤◌, ◌<◌, ◌+◌, ◌++◌, [], IfOk, OnErr};
ghost use mathlib.Core.List.{IsPrefix};
ghost use Rattle.kp_history.specs.Passes.{IsPass, positions, seen};
ghost use Rattle.kp_history.specs.Views.{longer, most_seats};

use crate::archive::Archive;
use crate::history::{History, TICKET};
use crate::pass::HistoryPass;
use crate::plays::{Joins, Settles, Spares};
use crate::view::Terms;
use atomic_table::Table;
use std::alloc::{AllocError, Global};

/// All places are taken.
#[derive(Clone, Copy, PartialEq, Eq, Debug)]
pub struct Full;

impl<B: Archive<E, K> + Drop, E, K: Drop> History<B, E, K> {
    /// A history of this value, which has no entries, with a pass that has all places.
    pub fn begin(
        alloc: Global,
        seats: u64,
        about: K,
        value: B,
    ) -> Result<(History<B, E, K>, HistoryPass<B, E, K>), AllocError>
        requires seats { (0 < seats) × (seats ≤ most_seats) }
        requires value { (B.entries value ≡ []) × B.sound value × B.legal about [] }
        ensures pass { IfOk result (λ begun. IsPass begun.0 begun.1) }
        ensures begun { IfOk result (λ begun. (seen begun.1 ≡ []) × (positions begun.1 ≡ []) × (begun.1.spare + 1 ≡ seats)) }
        ensures about { IfOk result (λ begun. (begun.0.terms.about ≡ about) × (begun.0.terms.seats ≡ seats)) }
    {
        let terms = Terms { seats, about };
        let mut slots = Vec::new(alloc);
        slots.push(Some(value))?;
        let made = Table::new(alloc, &[0, 0, 0], slots, &terms);
        match made {
            Ok((table, seat)) => {
                let pass = HistoryPass {
                    seat,
                    spare: seats - 1,
                };
                Ok((History { terms, table }, pass))
            }
            Err(_) => Err(AllocError),
        }
    }
}

impl<B: Archive<E, K> + Drop, E, K> History<B, E, K> {
    /// What it is about.
    pub fn about(&self) -> &K
        ensures { result.now ≡ self.now.terms.about }
    {
        &self.terms.about
    }

    /// A pass more, where there is a spare place.
    pub fn split(&self, pass: &mut HistoryPass<B, E, K>) -> Result<HistoryPass<B, E, K>, Full>
        requires pass { IsPass self.now pass.old }
        ensures pass { IsPass self.now pass.new × (seen pass.new ≡ seen pass.old) × (positions pass.new ≡ positions pass.old) }
        ensures new { IfOk result (λ new. IsPass self.now new × (seen new ≡ seen pass.old) × (positions new ≡ []) × (new.spare ≡ 0)) }
        ensures spare { IfOk result (λ new. pass.new.spare + 1 ≡ pass.old.spare) }
        ensures full { OnErr result ((pass.old.spare ≡ 0) × (pass.new ≡ pass.old)) }
    {
        if pass.spare == 0 {
            return Err(Full);
        }
        let seat = self.table.shared.split_seat::<Spares>(&mut pass.seat);
        pass.spare -= 1;
        Ok(HistoryPass { seat, spare: 0 })
    }

    /// One pass takes in another: it has seen what both had, and has the positions and the places of both.
    pub fn join(&self, pass: &mut HistoryPass<B, E, K>, other: HistoryPass<B, E, K>)
        requires pass { IsPass self.now pass.old }
        requires other { IsPass self.now other }
        ensures pass { IsPass self.now pass.new }
        ensures seen { IsPrefix (seen pass.old) (seen pass.new) × IsPrefix (seen other) (seen pass.new) }
        ensures longer { seen pass.new ≡ longer (seen pass.old) (seen other) }
        ensures own { (positions pass.new ≡ positions pass.old ++ positions other) × (pass.new.spare ≡ pass.old.spare + other.spare + 1) }
    {
        let HistoryPass { seat, spare } = other;
        self.table.shared.join_seat::<Joins>(&mut pass.seat, seat);
        self.table.shared.load::<Settles>(&mut pass.seat, TICKET);
        pass.spare += spare + 1;
    }
}
