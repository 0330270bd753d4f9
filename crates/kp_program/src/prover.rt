// The proofs of a claims' file, and their report.
ghost use Rattle.std.specs.Prelude.{◌≡◌, ◌<◌, ◌≤◌, ◌⊎◌, ℕ, IfErr, IfOk, List, OnErr, OnOk, Some, length, map, slice_get};
ghost use Rattle.std.specs.List.{AllZip, list_all, list_any};
ghost use Rattle.std.specs.Io.KnownBytes.{Appends};
ghost use Rattle.kp_kore.specs.Theory.{Theory};
ghost use Rattle.kp_book.specs.Books.{Opening};
ghost use Rattle.kp_modules.specs.Openings.{IsTableOf, opening_of};
ghost use Rattle.kp_io.specs.Outside.{Rose};
ghost use Rattle.kp_claim_sentences.specs.Claims.{StatedClaim};
ghost use Rattle.kp_claim_sentences.specs.Items.{items_view};
ghost use Rattle.kp_report.specs.Report.{IsReport};
ghost use Rattle.kp_client.specs.View.{outcome_view};
ghost use Rattle.kp_report.specs.View.{line_view};
ghost use Rattle.kp_program.specs.ClaimFiles.{AreGround, IsGroundClaim};
ghost use Rattle.kp_command.specs.Commands.{prove_view};
ghost use Rattle.kp_methods.specs.ServedTheory.{IsServedTheoryOf};
ghost use Rattle.kp_program.specs.Loaded.{IsLoaded};
ghost use Rattle.kp_program.specs.Does.{MayProve};
ghost use Rattle.kp_program.specs.LocalTold.{IsLinkOver, IsTheoryOver};
ghost use Rattle.kp_program.specs.Proofs.{AreReported, IsLineFor, Proved, has_failed, has_passed, proof_status};
ghost use Rattle.kp_program.specs.Served.{GainsFront};
ghost use Rattle.kp_program.specs.Statuses.{exit_status as trouble_status};
ghost use Rattle.kp_program.specs.Troubles.{HasCause, IsLate, ending_of};
ghost use Rattle.kp_command.specs.Words.{SpellsProve};

use crate::claims::load_claims;
use crate::definition::load_table;
use crate::local::LocalLink;
use crate::output::put_line;
use crate::trouble::Trouble;
use kp_claim_sentences::FiledClaim;
use kp_client::{ProofEnd, ProveOptions, prove};
use kp_command::Prove;
use kp_io::{Shelf, Sink};
use kp_modules::ModuleTable;
use kp_report::{Line, report_text};
use kp_service::Service;
use std::alloc::{AllocError, Global};
use std::sync::Wait;

/// Proves the claims of a file over a definition's main module, and writes their report. The status: 0 where each
/// passed, 1 where some failed, else 2.
pub fn prove_file<R: Wait, H: Shelf, O: Sink>(
    rt: &R,
    alloc: Global,
    command: &Prove,
    shelf: &mut H,
    out: &mut O,
) -> Result<u8, Trouble>
    ensures proved { IfOk result (Proved (H.names shelf.old) (Appends (O.held out.old) (O.held out.new)) (prove_view command.now)) }
    ensures cause { let Failed = Rose (H.fault_count shelf.old) (H.fault_count shelf.new) ⊎ Rose (O.fault_count out.old) (O.fault_count out.new) in
        (words : List (List ℕ)) → let command' = prove_view command.now in SpellsProve words command' → IfErr result (HasCause (H.names shelf.old) words Failed) }
    ensures untouched { IfErr result (λ trouble. trouble_status (ending_of trouble) ≤ 5 → O.held out.new ≡ O.held out.old) }
    ensures front { let command' = prove_view command.now in OnErr result (MayProve (H.names shelf.old) (O.held out.old) (O.held out.new) command') }
    ensures files_kept { H.names shelf.new ≡ H.names shelf.old }
    ensures shelf_count { H.fault_count shelf.old ≤ H.fault_count shelf.new }
    ensures out_count { O.fault_count out.old ≤ O.fault_count out.new }
{
    match load_table(alloc, shelf, command.definition, command.module_name) {
        Ok(table) => prove_over(rt, alloc, command, table, shelf, out),
        Err(trouble) => Err(trouble),
    }
}

/// Proves the claims of a file over a table, and writes their report.
fn prove_over<R: Wait, H: Shelf, O: Sink>(
    rt: &R,
    alloc: Global,
    command: &Prove,
    table: ModuleTable,
    shelf: &mut H,
    out: &mut O,
) -> Result<u8, Trouble>
    ensures proved { let names = H.names shelf.old in let command' = prove_view command.now in
        (l : IsLoaded names command'.definition command'.main) → IsServedTheoryOf l.setting table → IsTableOf (opening_of l.definition command'.main) table → IfOk result (Proved names (Appends (O.held out.old) (O.held out.new)) command') }
    ensures cause { let Failed = Rose (H.fault_count shelf.old) (H.fault_count shelf.new) ⊎ Rose (O.fault_count out.old) (O.fault_count out.new) in
        let command' = prove_view command.now in
        (words : List (List ℕ)) (l : IsLoaded (H.names shelf.old) command'.definition command'.main) → IsServedTheoryOf l.setting table → IsTableOf (opening_of l.definition command'.main) table → SpellsProve words command' → IfErr result (HasCause (H.names shelf.old) words Failed) }
    ensures untouched { IfErr result (λ trouble. trouble_status (ending_of trouble) ≤ 5 → O.held out.new ≡ O.held out.old) }
    ensures front { let names = H.names shelf.old in let command' = prove_view command.now in
        (l : IsLoaded names command'.definition command'.main) → IsServedTheoryOf l.setting table → IsTableOf (opening_of l.definition command'.main) table → OnErr result (MayProve names (O.held out.old) (O.held out.new) command') }
    ensures files_kept { H.names shelf.new ≡ H.names shelf.old }
    ensures shelf_count { H.fault_count shelf.old ≤ H.fault_count shelf.new }
    ensures out_count { O.fault_count out.old ≤ O.fault_count out.new }
{
    match load_claims(alloc, shelf, command.claims, &table) {
        Ok(claims) => report_claims(rt, alloc, table, &claims, command.max_depth, out),
        Err(trouble) => Err(trouble),
    }
}

/// Proves claims, and writes their report.
fn report_claims<R: Wait, O: Sink>(
    rt: &R,
    alloc: Global,
    table: ModuleTable,
    claims: &[FiledClaim],
    max_depth: u64,
    out: &mut O,
) -> Result<u8, Trouble>
    ensures reported { (o : Opening) (t : Theory) → let claims' = items_view claims.now in IsTheoryOver table o t → AreGround claims' → IfOk result (AreReported o t max_depth claims' (Appends (O.held out.old) (O.held out.new))) }
    ensures late { IfErr result (IsLate (Rose (O.fault_count out.old) (O.fault_count out.new))) }
    ensures front { (o : Opening) (t : Theory) → let claims' = items_view claims.now in IsTheoryOver table o t → AreGround claims' → OnErr result ((O.held out.new ≡ O.held out.old) ⊎ ((status : ℕ) × AreReported o t max_depth claims' (GainsFront (O.held out.old) (O.held out.new)) status)) }
    ensures count { O.fault_count out.old ≤ O.fault_count out.new }
{
    let lines = lines_over(rt, alloc, table, claims, max_depth)?;
    let report = report_text(alloc, &lines)?;
    let status = status_of(&lines);
    match put_line(out, &report) {
        Ok(()) => Ok(status),
        Err(trouble) => Err(trouble),
    }
}

/// The lines of claims, in order, over the service of a table.
fn lines_over<R: Wait>(
    rt: &R,
    alloc: Global,
    table: ModuleTable,
    claims: &[FiledClaim],
    max_depth: u64,
) -> Result<Vec<Line>, AllocError>
    ensures { (o : Opening) (t : Theory) → let claims' = items_view claims.now in IsTheoryOver table o t → AreGround claims' → IfOk result (λ lines. AllZip (IsLineFor o t max_depth) claims' (map line_view lines.items)) }
{
    let (service, pass) = Service::begin(alloc, table, 1)?;
    let mut link = LocalLink::new(rt, &service, pass);
    prove_all(alloc, &mut link, claims, max_depth)
}

/// The lines of claims, in order.
fn prove_all<R: Wait>(
    alloc: Global,
    link: &mut LocalLink<'_, R>,
    claims: &[FiledClaim],
    max_depth: u64,
) -> Result<Vec<Line>, AllocError>
    ensures { (o : Opening) (t : Theory) → let claims' = items_view claims.now in IsLinkOver link.old o t → AreGround claims' → IfOk result (λ lines. AllZip (IsLineFor o t max_depth) claims' (map line_view lines.items)) }
{
    let mut lines = Vec::new(alloc);
    for place in 0..claims.len() {
        lines.push(prove_at(alloc, link, claims, place, max_depth)?)?;
    }
    Ok(lines)
}

/// The line of the claim at a place, from 0. A link in the same process doesn't fail: that it did would be told as want
/// of memory.
fn prove_at<R: Wait>(
    alloc: Global,
    link: &mut LocalLink<'_, R>,
    claims: &[FiledClaim],
    place: usize,
    max_depth: u64,
) -> Result<Line, AllocError>
    requires place { place < length claims.now }
    ensures line { (o : Opening) (t : Theory) (c : StatedClaim) → let claims' = items_view claims.now in IsLinkOver link.old o t → slice_get claims' place ≡ Some c → IsGroundClaim c → IfOk result (λ line. IsLineFor o t max_depth c (line_view line)) }
    ensures link { (o : Opening) (t : Theory) → IsLinkOver link.old o t → OnOk result (IsLinkOver link.new o t) }
{
    let label = claims[place].label.clone()?;
    let options = ProveOptions { max_depth };
    match prove(alloc, link, claims, place, &options) {
        Ok((outcome, _tree)) => Ok(Line {
            label,
            result: outcome,
        }),
        Err(_) => Err(AllocError),
    }
}

/// The status of proofs with these lines.
fn status_of(lines: &[Line]) -> u8
    ensures { result ≡ proof_status (map line_view lines.now) }
{
    if each_passed(lines) {
        return 0;
    }
    if some_failed(lines) {
        return 1;
    }
    2
}

/// Whether each claim passed.
fn each_passed(lines: &[Line]) -> bool
    ensures { result ≡ list_all (λ l. has_passed l.outcome) (map line_view lines.now) }
{
    for line in lines {
        if !is_passed(&line.result) {
            return false;
        }
    }
    true
}

/// Whether some claim failed.
fn some_failed(lines: &[Line]) -> bool
    ensures { result ≡ list_any (λ l. has_failed l.outcome) (map line_view lines.now) }
{
    for line in lines {
        if is_failed(&line.result) {
            return true;
        }
    }
    false
}

/// Whether a claim passed.
fn is_passed(outcome: &ProofEnd) -> bool
    ensures { result ≡ has_passed (outcome_view outcome.now) }
{
    matches!(outcome, ProofEnd::Passed)
}

/// Whether a claim failed.
fn is_failed(outcome: &ProofEnd) -> bool
    ensures { result ≡ has_failed (outcome_view outcome.now) }
{
    matches!(outcome, ProofEnd::Failed { .. })
}
