ghost use Rattle.std.specs.Prelude.{◌≡◌, ◌≤◌, ◌++◌, codes, ℕ, IfErr, IfOk, List, length, string_bytes};
ghost use Rattle.std.specs.Fmt.{decimal};
ghost use Rattle.kp_io.specs.Outside.{Rose, load_limit};
ghost use Rattle.kp_claim_files.specs.Ground.{IsErrorForProve};
ghost use Rattle.kp_kore.specs.Signature.{KoreSignature};
ghost use Rattle.kp_kore.specs.Syntax.{KoreDefinition};
ghost use Rattle.kp_imports.specs.Faults.{TellsFirst};
ghost use Rattle.kp_text.specs.Errors.{IsErrorOf};
ghost use Rattle.kp_text.specs.Spelling.{IsDefinitionText, SpellsDefinition};
ghost use Rattle.kp_program.specs.Faults.{IsClaimsFault, IsFileFault};
ghost use Rattle.kp_program.specs.Statuses.{Tells, faulty, line_of, memory, no_file};
ghost use Rattle.kp_program.specs.Troubles.{AreFaulty, EndsAs, IsFileAbsent, IsFaulty, ending_of, file_fault_view};

use kp_claims::{ClaimError, ClaimFault};
use kp_imports::{LoadError, ModuleFault};
use kp_io::{Sink, put_all};
use kp_text::{ReadError, TextFault};
use std::alloc::{AllocError, Global};

/// What is wrong with a file.
#[derive(Drop)]
pub enum FileFault {
    TooLong,
    Text(TextFault),
    Module(ModuleFault),
    Claim(ClaimFault),
}

/// Why the program ends, with a command, otherwise than by doing what it says.
#[derive(Drop)]
pub enum Trouble {
    /// A file has a fault.
    File { name: String, fault: FileFault },
    /// There is no such file.
    NoFile { name: String },
    /// A count of faults of the shelf, the input or the output rose.
    Outside,
    Memory,
}

impl From<AllocError> for Trouble {
    ghost use Rattle.std.specs.Prelude.{◌≡◌};
    ghost use Rattle.kp_program.specs.declared.trouble.Trouble.TheVariants as trouble;

    ghost from_gives = { λ _ e. e ≡ trouble.Memory };

    fn from(_error: AllocError) -> Self {
        Trouble::Memory
    }
}

/// The line where memory ran out.
pub const MEMORY_LINE: &str = "kprove: memory\n";

/// Writes why the program ends, and answers its status: 7 where the line can't be made.
pub fn ended<E: Sink>(alloc: Global, err: &mut E, trouble: &Trouble) -> u8
    ensures ended { EndsAs (ending_of trouble.now) (Rose (E.fault_count err.old) (E.fault_count err.new)) (E.held err.old) (E.held err.new) result }
    ensures count { E.fault_count err.old ≤ E.fault_count err.new }
{
    match trouble {
        Trouble::File { name, fault } => told_if_made(err, fault_line(alloc, name, fault), 4),
        Trouble::NoFile { name } => told_if_made(err, no_file_line(alloc, name), 5),
        Trouble::Outside => told(err, "kprove: fault\n", 6),
        Trouble::Memory => told(err, MEMORY_LINE, 7),
    }
}

/// Writes a line, and answers the status. What fails in writing it changes no status.
pub fn told<E: Sink>(err: &mut E, line: &str, status: u8) -> u8
    ensures status { result ≡ status }
    ensures told { Tells (Rose (E.fault_count err.old) (E.fault_count err.new)) (E.held err.old) (E.held err.new) line.now }
    ensures count { E.fault_count err.old ≤ E.fault_count err.new }
{
    let _ = put_all(err, line.as_bytes());
    status
}

/// The same of a line, or of want of memory where it couldn't be made.
fn told_if_made<E: Sink>(err: &mut E, line: Result<String, AllocError>, status: u8) -> u8
    ensures made { IfOk line (λ made. (result ≡ status) × Tells (Rose (E.fault_count err.old) (E.fault_count err.new)) (E.held err.old) (E.held err.new) (string_bytes made)) }
    ensures lost { IfErr line (λ _. (result ≡ 7) × Tells (Rose (E.fault_count err.old) (E.fault_count err.new)) (E.held err.old) (E.held err.new) (line_of memory)) }
    ensures count { E.fault_count err.old ≤ E.fault_count err.new }
{
    match line {
        Ok(line) => told(err, line.as_str(), status),
        Err(_) => told(err, MEMORY_LINE, 7),
    }
}

/// `kprove: NAME: FAULT`.
fn fault_line(alloc: Global, name: &str, fault: &FileFault) -> Result<String, AllocError>
    ensures { IfOk result (λ line. string_bytes line ≡ line_of (faulty name.now (file_fault_view fault.now))) }
{
    match fault {
        FileFault::TooLong => format!(in alloc; "kprove: {name}: too long\n"),
        FileFault::Text(fault) => text_line(alloc, name, fault.kind.number(), fault.at),
        FileFault::Module(fault) => code_line(alloc, name, fault.code()),
        FileFault::Claim(fault) => code_line(alloc, name, fault.code()),
    }
}

/// `kprove: NAME: CODE`.
fn code_line(alloc: Global, name: &str, code: &str) -> Result<String, AllocError>
    ensures { IfOk result (λ line. string_bytes line ≡ codes "kprove: " ++ name.now ++ codes ": " ++ code.now ++ codes "\n") }
{
    format!(in alloc; "kprove: {name}: {code}\n")
}

/// `kprove: NAME: text KIND at OFFSET`.
fn text_line(alloc: Global, name: &str, kind: u8, at: usize) -> Result<String, AllocError>
    ensures { IfOk result (λ line. string_bytes line ≡ codes "kprove: " ++ name.now ++ codes ": text " ++ decimal kind ++ codes " at " ++ decimal at ++ codes "\n") }
{
    format!(in alloc; "kprove: {name}: text {kind} at {at}\n")
}

/// `kprove: no file NAME`.
fn no_file_line(alloc: Global, name: &str) -> Result<String, AllocError>
    ensures { IfOk result (λ line. string_bytes line ≡ line_of (no_file name.now)) }
{
    format!(in alloc; "kprove: no file {name}\n")
}

/// A fault of a file.
pub fn file_trouble(alloc: Global, name: &str, fault: FileFault) -> Trouble
    ensures definition { (file main : List ℕ) → IsFileFault file main (file_fault_view fault) → IsFaulty file name.now main result }
    ensures claims { (g : KoreSignature) (file : List ℕ) → IsClaimsFault g file (file_fault_view fault) → AreFaulty g file name.now result }
{
    match String::from_str(alloc, name) {
        Ok(name) => Trouble::File { name, fault },
        Err(_) => Trouble::Memory,
    }
}

/// That a file isn't there.
pub fn no_file(alloc: Global, name: &str) -> Trouble
    ensures { IsFileAbsent name.now result }
{
    match String::from_str(alloc, name) {
        Ok(name) => Trouble::NoFile { name },
        Err(_) => Trouble::Memory,
    }
}

/// Why a file's text wasn't read.
pub fn read_trouble(alloc: Global, name: &str, error: ReadError) -> Trouble
    ensures { (file main : List ℕ) → length file ≤ load_limit → IsErrorOf IsDefinitionText file error → IsFaulty file name.now main result }
{
    match error {
        ReadError::Memory => Trouble::Memory,
        ReadError::Fault(fault) => file_trouble(alloc, name, FileFault::Text(fault)),
    }
}

/// Why a definition's modules weren't loaded.
pub fn module_trouble(alloc: Global, name: &str, error: LoadError) -> Trouble
    ensures { (file main : List ℕ) (d : KoreDefinition) → length file ≤ load_limit → SpellsDefinition file d → TellsFirst d main error → IsFaulty file name.now main result }
{
    match error {
        LoadError::Memory => Trouble::Memory,
        LoadError::Fault(fault) => file_trouble(alloc, name, FileFault::Module(fault)),
    }
}

/// Why no claims were read of a file.
pub fn claim_trouble(alloc: Global, name: &str, error: ClaimError) -> Trouble
    ensures { (g : KoreSignature) (file : List ℕ) → length file ≤ load_limit → IsErrorForProve g file error → AreFaulty g file name.now result }
{
    match error {
        ClaimError::Memory => Trouble::Memory,
        ClaimError::Text(fault) => file_trouble(alloc, name, FileFault::Text(fault)),
        ClaimError::Fault(fault) => file_trouble(alloc, name, FileFault::Claim(fault)),
    }
}
