// The turn: it is waited for, and with it the value taken; the value is put back, and the turn passed on.
ghost use Rattle.std.specs.Prelude.{◌≡◌, ◌≤◌, ◌<◌, ◌++◌, ◌∷◌, [], List, length, IfOk, OnErr, OnOk};
ghost use mathlib.Core.List.{IsPrefix};
ghost use Rattle.std.specs.List.{AllByRecursion};
ghost use Rattle.kp_history.specs.Passes.{HasTurn, IsPass, IsWaiting, Keeps, MayAdd, hand, positions, seen};
ghost use Rattle.kp_history.specs.Views.{most_entries, positions_from};

use crate::archive::Archive;
use crate::history::{COUNT, History, SERVING, TICKET, VALUE};
use crate::pass::HistoryPass;
use crate::plays::{Adding, Counts, Draws, Passes, Watches};
use std::marker::Brand;
use std::sync::Wait;

impl<B: Archive<E, K> + Drop, E, K> History<B, E, K> {
    /// Waits for the turn, and takes the value, whose entries begin with what the pass has seen.
    pub fn take<R: Wait>(&self, rt: &R, pass: &mut HistoryPass<B, E, K>) -> B
        requires pass { IsPass self.now pass.old }
        ensures turn { HasTurn self.now pass.new }
        ensures same { Keeps pass.old pass.new × (seen pass.new ≡ seen pass.old) }
        ensures hand { (B.entries result ≡ hand pass.new) × IsPrefix (seen pass.old) (hand pass.new) }
        ensures good { B.sound result × B.legal self.now.terms.about (hand pass.new) }
        ensures room { length (hand pass.new) ≤ most_entries }
        ensures own { AllByRecursion (λ p. p ≤ length (hand pass.new)) (positions pass.new) }
    {
        let ticket = self.draw(pass);
        self.wait_for(rt, pass, ticket)
    }

    /// Draws a ticket.
    fn draw(&self, pass: &mut HistoryPass<B, E, K>) -> u64
        requires pass { IsPass self.now pass.old }
        ensures waiting { IsWaiting self.now result pass.new }
        ensures same { Keeps pass.old pass.new × (seen pass.new ≡ seen pass.old) }
    {
        self.table
            .shared
            .fetch_add::<Draws>(&mut pass.seat, TICKET, 1)
    }

    /// Sleeps until the ticket has the turn, and takes the value.
    fn wait_for<R: Wait>(&self, rt: &R, pass: &mut HistoryPass<B, E, K>, ticket: u64) -> B
        requires waiting { IsWaiting self.now ticket pass.old }
        ensures turn { HasTurn self.now pass.new }
        ensures same { Keeps pass.old pass.new × (seen pass.new ≡ seen pass.old) }
        ensures hand { (B.entries result ≡ hand pass.new) × IsPrefix (seen pass.old) (hand pass.new) }
        ensures good { B.sound result × B.legal self.now.terms.about (hand pass.new) }
        ensures room { length (hand pass.new) ≤ most_entries }
        ensures own { AllByRecursion (λ p. p ≤ length (hand pass.new)) (positions pass.new) }
    {
        for _ in rt.forever() {
            match self.watch(pass, ticket) {
                Ok(value) => return value,
                Err(serving) => self
                    .table
                    .shared
                    .park(rt, SERVING, (serving % (1 << 32)) as u32),
            }
        }
        unreachable!()
    }

    /// The value, where the ticket has the turn; else the ticket that has it.
    fn watch(&self, pass: &mut HistoryPass<B, E, K>, ticket: u64) -> Result<B, u64>
        requires waiting { IsWaiting self.now ticket pass.old }
        ensures turn { OnOk result (HasTurn self.now pass.new) }
        ensures same { Keeps pass.old pass.new × (seen pass.new ≡ seen pass.old) }
        ensures hand { IfOk result (λ b. (B.entries b ≡ hand pass.new) × IsPrefix (seen pass.old) (hand pass.new)) }
        ensures good { IfOk result (λ b. B.sound b × B.legal self.now.terms.about (hand pass.new)) }
        ensures room { OnOk result (length (hand pass.new) ≤ most_entries) }
        ensures own { OnOk result (AllByRecursion (λ p. p ≤ length (hand pass.new)) (positions pass.new)) }
        ensures waiting { OnErr result (IsWaiting self.now ticket pass.new) }
    {
        let serving = self.table.shared.load::<Watches>(&mut pass.seat, SERVING);
        if serving != ticket {
            return Err(serving);
        }
        match self.table.shared.exchange(&mut pass.seat, VALUE, None) {
            Some(value) => Ok(value),
            None => unreachable!(),
        }
    }

    /// Puts the value back as it was taken, and passes the turn on.
    pub fn put_back(&self, pass: &mut HistoryPass<B, E, K>, value: B)
        requires turn { HasTurn self.now pass.old }
        requires value { (B.entries value ≡ hand pass.old) × B.sound value }
        ensures pass { IsPass self.now pass.new }
        ensures seen { seen pass.new ≡ hand pass.old }
        ensures own { Keeps pass.old pass.new }
    {
        self.put::<Brand>(pass, value, 0);
    }

    /// Puts the value back with one entry more, which is the pass's own, and passes the turn on.
    pub fn put_longer(&self, pass: &mut HistoryPass<B, E, K>, value: B)
        requires turn { HasTurn self.now pass.old }
        requires value { B.sound value }
        requires longer { (e : E) × (B.entries value ≡ hand pass.old ++ e ∷ []) }
        requires room { length (hand pass.old) < most_entries }
        requires legal { B.legal self.now.terms.about (B.entries value) }
        ensures pass { IsPass self.now pass.new }
        ensures seen { seen pass.new ≡ B.entries value }
        ensures own { (positions pass.new ≡ positions pass.old ++ length (seen pass.new) ∷ []) × (pass.new.spare ≡ pass.old.spare) }
    {
        self.put::<Brand>(pass, value, 1);
    }

    /// Counts the entries that N adds, puts the value back, passes the turn on and wakes those who wait.
    fn put<N: Adding<E>>(&self, pass: &mut HistoryPass<B, E, K>, value: B, more: u64)
        requires turn { HasTurn self.now pass.old }
        requires value { (B.entries value ≡ hand pass.old ++ N.added) × B.sound value }
        requires more { more ≡ length N.added }
        requires may { MayAdd (B.legal self.now.terms.about) (hand pass.old) N.added }
        ensures pass { IsPass self.now pass.new }
        ensures seen { seen pass.new ≡ hand pass.old ++ N.added }
        ensures own { (positions pass.new ≡ positions pass.old ++ positions_from (length (hand pass.old)) N.added) × (pass.new.spare ≡ pass.old.spare) }
    {
        let shared = &self.table.shared;
        shared.fetch_add::<Counts<N>>(&mut pass.seat, COUNT, more);
        let _empty = shared.exchange(&mut pass.seat, VALUE, Some(value));
        shared.fetch_add::<Passes>(&mut pass.seat, SERVING, 1);
        shared.wake_all(SERVING);
    }
}
