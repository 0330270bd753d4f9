ghost use Rattle.std.specs.Prelude.{◌≡◌, ◌≤◌, IfErr, IfOk, length};
ghost use Rattle.kp_io.specs.Outside.{Rose, load_limit};
ghost use Rattle.kp_program.specs.ClaimFiles.{AreClaimsAt, AreClaimsIn, IsClaimsTrouble};
ghost use Rattle.kp_methods.specs.ServedTheory.{IsServedTheoryOf, ServedTheory};
ghost use Rattle.kp_program.specs.Troubles.{AreFaulty};

use crate::trouble::{FileFault, Trouble, claim_trouble, file_trouble, no_file};
use kp_claim_files::read_plain_claims;
use kp_claim_sentences::FiledClaim;
use kp_io::{LoadFault, Shelf};
use kp_methods::rules_of;
use kp_modules::ModuleTable;
use std::alloc::Global;

/// The claims in the file of this name, over a table's signature, where prove goes by each.
pub fn load_claims<H: Shelf>(
    alloc: Global,
    shelf: &mut H,
    name: &str,
    table: &ModuleTable,
) -> Result<Vec<FiledClaim>, Trouble>
    ensures loaded { (s : ServedTheory) → IsServedTheoryOf s table.now → IfOk result (λ claims. AreClaimsAt (H.names shelf.old) name.now s.theory.signature claims.items) }
    ensures trouble { let Failed = Rose (H.fault_count shelf.old) (H.fault_count shelf.new) in
        (s : ServedTheory) → IsServedTheoryOf s table.now → IfErr result (IsClaimsTrouble (H.names shelf.old) name.now s.theory.signature Failed) }
    ensures kept { H.names shelf.new ≡ H.names shelf.old }
    ensures never_falls { H.fault_count shelf.old ≤ H.fault_count shelf.new }
{
    match shelf.load(alloc, name) {
        Ok(Some(bytes)) => claims_of(alloc, name, &bytes, table),
        Ok(None) => Err(no_file(alloc, name)),
        Err(LoadFault::TooLong) => Err(file_trouble(alloc, name, FileFault::TooLong)),
        Err(LoadFault::Failed) => Err(Trouble::Outside),
        Err(LoadFault::Memory) => Err(Trouble::Memory),
    }
}

/// The claims in a file, of this name, with these bytes.
fn claims_of(
    alloc: Global,
    name: &str,
    bytes: &[u8],
    table: &ModuleTable,
) -> Result<Vec<FiledClaim>, Trouble>
    ensures claims { (s : ServedTheory) → IsServedTheoryOf s table.now → IfOk result (λ claims. AreClaimsIn s.theory.signature bytes.now claims.items) }
    ensures fault { (s : ServedTheory) → IsServedTheoryOf s table.now → length bytes.now ≤ load_limit → IfErr result (AreFaulty s.theory.signature bytes.now name.now) }
{
    match read_plain_claims(alloc, bytes, &rules_of(table).signature) {
        Ok(claims) => Ok(claims),
        Err(error) => Err(claim_trouble(alloc, name, error)),
    }
}
