// The service.
ghost use Rattle.kp_registry.specs.Registries.{IsPassOf};
ghost use Rattle.kp_service.specs.Answers.{IsAnswer, IsBegun};
ghost use Rattle.kp_additions.specs.Served.{HasSeenAt};
ghost use Rattle.kp_service.specs.Ready.{IsReadyFor};

use crate::batch::answered_batch;
use crate::member::{answered, text_of};
use kp_conn::Answerer;
use kp_methods::Prepared;
use kp_modules::ModuleTable;
use kp_registry::{Pass, Registry};
use kp_requests::{Parsed, request_of};
use kp_rpc::{Id, refusal_text};
use std::alloc::{AllocError, Global};
use std::sync::Wait;

/// Answers frames over a book of modules: each call at one book that begins with the one that the pass had seen; the
/// modules that calls add stand in it as entries of the pass's own. What requests ask of the one signature of all modules is looked up once.
#[derive(Drop)]
pub struct Service {
    pub registry: Registry,
    pub prepared: Prepared,
}

impl Service {
    ghost use Rattle.std.specs.Prelude.{◌≡◌, ◌≤◌, IfOk};
    ghost use Rattle.kp_book.specs.Books.{Opening};
    ghost use Rattle.kp_modules.specs.Openings.{IsTableOf};
    ghost use Rattle.kp_registry.specs.Registries.{IsPassOf, seats_of};
    ghost use Rattle.kp_additions.specs.Served.{HasSeenAt, nothing_seen};
    ghost use Rattle.kp_service.specs.Ready.{IsReadyFor};

    /// A service over a table's modules, with a pass that has seen no added ones.
    pub fn begin(
        alloc: Global,
        table: ModuleTable,
        seats: usize,
    ) -> Result<(Service, Pass), AllocError>
        requires seats { (1 ≤ seats) × (seats ≤ 64) }
        ensures pass { IfOk result (λ out. IsPassOf out.0.registry out.1 × IsReadyFor out.0.registry out.0.prepared) }
        ensures seen { (o : Opening) → IsTableOf o table → IfOk result (λ out. HasSeenAt out.0.registry out.1 o nothing_seen) }
        ensures seats { IfOk result (λ out. seats_of out.0.registry ≡ seats) }
    {
        let prepared = Prepared::new(alloc, table.rule_set().signature.clone()?)?;
        let (registry, pass) = Registry::begin(alloc, table, seats)?;
        Ok((Service { registry, prepared }, pass))
    }
}

impl Answerer for Service {
    type Pass = Pass;

    ghost has_seen = { λ s pass o seen. HasSeenAt s.registry pass o seen };

    ghost is_pass = { λ s pass. IsPassOf s.registry pass × IsReadyFor s.registry s.prepared };

    ghost answers = { λ s o before frame reply after. IsAnswer o before frame reply after };

    ghost begins = { λ s o before frame after. IsBegun o before frame after };

    fn answer<R: Wait>(
        &self,
        rt: &R,
        alloc: Global,
        pass: &mut Pass,
        frame: &[u8],
    ) -> Result<Option<Vec<u8>>, AllocError> {
        match request_of(alloc, frame)? {
            Parsed::Single(call) => answered(rt, alloc, &self.registry, &self.prepared, pass, call),
            Parsed::Batch(calls) => {
                answered_batch(rt, alloc, &self.registry, &self.prepared, pass, calls)
            }
            Parsed::Refused(refusal) => {
                let line = refusal_text(alloc, &Id::Null, refusal)?;
                Ok(Some(text_of(line)))
            }
        }
    }
}
