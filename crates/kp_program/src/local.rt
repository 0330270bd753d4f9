// A link to the program's service in the same process.
ghost use Rattle.std.specs.Prelude.{◌≡◌, ◌++◌, ◌∷◌, [], IfOk, option_map};
ghost use Rattle.kp_book.specs.Books.{Opening};
ghost use Rattle.kp_modules.specs.Openings.{IsTableOf};
ghost use Rattle.kp_program.specs.LocalTold.{IsAnsweredBy, IsPassOver, IsReadyService, state_over, table_of};
ghost use Rattle.kp_program.specs.Proofs.{IsRepliedBy};

use kp_client::{Link, LinkError};
use kp_conn::Answerer;
use kp_registry::Pass;
use kp_service::Service;
use std::alloc::{AllocError, Global};
use std::marker::Model;
use std::sync::Wait;

/// A link to a service in the same process, with a pass of its own. It never fails. It is seen as the service's table.
#[derive(Drop)]
pub struct LocalLink<'a, R: Wait> {
    rt: &'a R,
    service: &'a Service,
    pass: Pass,
}

impl<'a, R: Wait> Model for LocalLink<'a, R> {
    ghost use Rattle.kp_modules.specs.contracts.table.ModuleTable.{the_row};
    ghost use Rattle.kp_modules.specs.declared.table.ModuleTable.{ModuleTable};
    ghost use Rattle.kp_program.specs.LocalTold.{IsPassOver, table_of};

    ghost Value = { ModuleTable };

    ghost coded = { the_row.coded };

    ghost view = { λ l. table_of l.service.now };

    ghost invariant = { λ l. IsPassOver l.service.now l.pass };
}

impl<'a, R: Wait> LocalLink<'a, R> {
    ghost use Rattle.kp_registry.specs.Registries.{IsPassOf};

    /// A link to a service, with this pass of it.
    pub fn new(rt: &'a R, service: &'a Service, pass: Pass) -> LocalLink<'a, R>
        requires pass { IsPassOf service.now.registry pass }
        requires ready { IsReadyService service.now }
        ensures { result ≡ table_of service.now }
    {
        LocalLink { rt, service, pass }
    }
}

/// A text as a line.
fn line_with(text: Vec<u8>) -> Result<Vec<u8>, AllocError>
    ensures { IfOk result (λ line. line.items ≡ text.items ++ 10 ∷ []) }
{
    let mut line = text;
    line.push(b'\n')?;
    Ok(line)
}

/// The text with which a service answers a frame.
fn text_to<R: Wait>(
    rt: &R,
    alloc: Global,
    service: &Service,
    pass: &mut Pass,
    frame: &[u8],
) -> Result<Option<Vec<u8>>, AllocError>
    requires pass { IsPassOver service.now pass.old }
    ensures pass { IsPassOver service.now pass.new }
    ensures answered { (o : Opening) → IsTableOf o (table_of service.now) → IfOk result (λ reply. IsAnsweredBy o frame.now (option_map (λ text. text.items) reply)) }
{
    service.answer(rt, alloc, pass, frame)
}

/// The line that replies to a frame: an empty one where there is no reply.
fn line_to<R: Wait>(
    rt: &R,
    alloc: Global,
    service: &Service,
    pass: &mut Pass,
    frame: &[u8],
) -> Result<Vec<u8>, AllocError>
    requires pass { IsPassOver service.now pass.old }
    ensures pass { IsPassOver service.now pass.new }
    ensures replied { (o : Opening) → IsTableOf o (table_of service.now) → IfOk result (λ line. IsRepliedBy o (record { frame = frame.now; reply = line.items })) }
{
    match text_to(rt, alloc, service, pass, frame)? {
        Some(text) => line_with(text),
        None => Ok(Vec::new(alloc)),
    }
}

impl<'a, R: Wait> Link for LocalLink<'a, R> {
    ghost told = { λ l. state_over l };

    fn faults(&self) -> u64 {
        0
    }

    fn ask(&mut self, alloc: Global, frame: &[u8]) -> Result<Vec<u8>, LinkError> {
        Ok(line_to(self.rt, alloc, self.service, &mut self.pass, frame)?)
    }
}
