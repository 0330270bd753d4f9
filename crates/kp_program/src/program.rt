ghost use Rattle.std.specs.Prelude.{◌≡◌, ◌≤◌, ◌⊎◌, ℕ, IfErr, IfOk, IfSome, List, OnErr, OnOk, Option, map, string_bytes};
ghost use Rattle.kp_io.specs.Outside.{Names, Rose};
ghost use Rattle.kp_book.specs.Books.{Opening};
ghost use Rattle.kp_modules.specs.Openings.{IsTableOf};
ghost use Rattle.kp_conn.specs.declared.served.Served.TheVariants.{ReadFault, WriteFault, Memory as OutOfMemory};
ghost use Rattle.kp_command.specs.Commands.{IsCommand, IsErrorOf};
ghost use Rattle.kp_program.specs.Does.{DoesWords, MayBegin};
ghost use Rattle.kp_program.specs.Headline.{PassedHolds};
ghost use Rattle.kp_program.specs.Served.{BreaksOff, GainsFront, IsWhole, MayBreakFile, ServesFile, ServesInput};
ghost use Rattle.kp_program.specs.Statuses.{IsEnded, IsPossible, IsRefusedAs, SomeRose, exit_status};
ghost use Rattle.kp_program.specs.Troubles.{HasCause, IsLate, ending_of};
ghost use Rattle.kp_command.specs.Words.{AreFaultless, AreWritten, AskHelp, NamesDefinition, ProveWords, SpellsProve, SpellsSome};

use crate::definition::load_table;
use crate::output::put_line;
use crate::prover::prove_file;
use crate::trouble::{MEMORY_LINE, Trouble, ended, told};
use kp_command::{Command, Stdio, WordsError, command_of};
use kp_conn::{Served, serve};
use kp_io::{Shelf, Sink, Source};
use kp_modules::ModuleTable;
use kp_service::Service;
use std::alloc::Global;
use std::sync::Wait;

/// The line where the words spell no command.
const USAGE_LINE: &str = "kprove: usage\n";

/// Does all that the program does, and answers its status: 0 where the input was served, or where each claim passed, 1
/// where a claim failed, 2 where none failed and some are pending or refused, 3 where the words spell no
/// command, 4 where a file has a fault, 5 where a file isn't there, 6 where a count of faults of the shelf, the input
/// or the output rose, 7 where memory ran out. From status 3 on `err` gets a line that says why.
pub fn run<R: Wait, H: Shelf, I: Source, O: Sink, E: Sink>(
    rt: &R,
    alloc: Global,
    words: &[String],
    shelf: &mut H,
    input: &mut I,
    out: &mut O,
    err: &mut E,
) -> u8
    // what the command says
    ensures done { result ≤ 2 → DoesWords (H.names shelf.old) (I.left input.old) (I.left input.new) (O.held out.old) (O.held out.new) (map string_bytes words.now) result }
    // each line that tells a claim as passed is of a claim that holds
    ensures headline { result ≤ 2 → PassedHolds (H.names shelf.old) (map string_bytes words.now) (O.held out.old) (O.held out.new) }
    // why it is another status, and what standard error got; 3 where clap finds a fault in the words, a call for help too
    ensures ended { let Failed = SomeRose (H.fault_count shelf.old) (H.fault_count shelf.new) (I.fault_count input.old) (I.fault_count input.new) (O.fault_count out.old) (O.fault_count out.new) in
        let Untold = Rose (E.fault_count err.old) (E.fault_count err.new) in
        3 ≤ result → IsEnded (H.names shelf.old) (map string_bytes words.now) Failed (E.held err.old) (E.held err.new) Untold result }
    ensures usage { (result ≡ 3) → ¬ AreFaultless (map string_bytes words.now) }
    ensures spelled { SpellsSome (map string_bytes words.now) → ¬ (result ≡ 3) }
    ensures written { AreWritten (map string_bytes words.now) → ¬ (result ≡ 3) }
    ensures refused { ¬ AreFaultless (map string_bytes words.now) → IsRefusedAs (map string_bytes words.now) result }
    ensures complete { let Failed = SomeRose (H.fault_count shelf.old) (H.fault_count shelf.new) (I.fault_count input.old) (I.fault_count input.new) (O.fault_count out.old) (O.fault_count out.new) in
        IfSome (H.names shelf.old) (λ held. IsPossible (map string_bytes words.now) held → ¬ Failed → (result ≤ 2) ⊎ (result ≡ 7)) }
    ensures untold { result ≤ 2 → E.held err.new ≡ E.held err.old }
    ensures untouched { let Kept = (O.held out.new ≡ O.held out.old) ⊎ AskHelp (map string_bytes words.now) in 3 ≤ result → result ≤ 5 → (I.left input.new ≡ I.left input.old) × Kept }
    ensures unread { (c : ProveWords) → SpellsProve (map string_bytes words.now) c → I.left input.new ≡ I.left input.old }
    ensures front { let words' = map string_bytes words.now in 3 ≤ result → MayBegin (H.names shelf.old) (I.left input.old) (I.left input.new) (O.held out.old) (O.held out.new) words' }
    ensures files_kept { H.names shelf.new ≡ H.names shelf.old }
    ensures shelf_count { H.fault_count shelf.old ≤ H.fault_count shelf.new }
    ensures input_count { I.fault_count input.old ≤ I.fault_count input.new }
    ensures out_count { O.fault_count out.old ≤ O.fault_count out.new }
    ensures err_count { E.fault_count err.old ≤ E.fault_count err.new }
{
    match command_of(alloc, words) {
        Err(error) => refused(alloc, out, err, error),
        Ok(command) => obeyed(rt, alloc, &command, shelf, input, out, err),
    }
}

/// Tells that the words spell no command, with the help that they ask for, and answers the status.
fn refused<O: Sink, E: Sink>(alloc: Global, out: &mut O, err: &mut E, error: WordsError) -> u8
    ensures ended { let Untold = Rose (E.fault_count err.old) (E.fault_count err.new) in
        (names : Option Names) (words : List (List ℕ)) → IsErrorOf words error → IsEnded names words (Rose (O.fault_count out.old) (O.fault_count out.new)) (E.held err.old) (E.held err.new) Untold result }
    ensures status { (words : List (List ℕ)) → IsErrorOf words error → IsRefusedAs words result }
    ensures gained { let Kept = O.held out.new ≡ O.held out.old in
        (words : List (List ℕ)) → IsErrorOf words error → Kept ⊎ (AskHelp words × (text : List ℕ) × GainsFront (O.held out.old) (O.held out.new) text) }
    ensures out_count { O.fault_count out.old ≤ O.fault_count out.new }
    ensures err_count { E.fault_count err.old ≤ E.fault_count err.new }
{
    match error {
        WordsError::Help(text) => helped(alloc, out, err, text.as_str()),
        WordsError::Usage => told(err, USAGE_LINE, 3),
        WordsError::Memory => told(err, MEMORY_LINE, 7),
    }
}

/// Writes help on the output, tells that the words spell no command, and answers the status.
fn helped<O: Sink, E: Sink>(alloc: Global, out: &mut O, err: &mut E, text: &str) -> u8
    ensures ended { let Failed = Rose (O.fault_count out.old) (O.fault_count out.new) in let Untold = Rose (E.fault_count err.old) (E.fault_count err.new) in
        (names : Option Names) (words : List (List ℕ)) → ¬ AreFaultless words → IsEnded names words Failed (E.held err.old) (E.held err.new) Untold result }
    ensures status { (words : List (List ℕ)) → AskHelp words → IsRefusedAs words result }
    ensures gained { GainsFront (O.held out.old) (O.held out.new) text.now }
    ensures out_count { O.fault_count out.old ≤ O.fault_count out.new }
    ensures err_count { E.fault_count err.old ≤ E.fault_count err.new }
{
    match put_line(out, text.as_bytes()) {
        Ok(()) => told(err, USAGE_LINE, 3),
        Err(trouble) => ended(alloc, err, &trouble),
    }
}

/// Does what a command says, and answers the status.
fn obeyed<R: Wait, H: Shelf, I: Source, O: Sink, E: Sink>(
    rt: &R,
    alloc: Global,
    command: &Command,
    shelf: &mut H,
    input: &mut I,
    out: &mut O,
    err: &mut E,
) -> u8
    ensures done { let names = H.names shelf.old in
        (words : List (List ℕ)) → IsCommand words command.now → result ≤ 2 → DoesWords names (I.left input.old) (I.left input.new) (O.held out.old) (O.held out.new) words result }
    ensures ended { let Failed = SomeRose (H.fault_count shelf.old) (H.fault_count shelf.new) (I.fault_count input.old) (I.fault_count input.new) (O.fault_count out.old) (O.fault_count out.new) in
        let Untold = Rose (E.fault_count err.old) (E.fault_count err.new) in
        (words : List (List ℕ)) → IsCommand words command.now → 3 ≤ result → IsEnded (H.names shelf.old) words Failed (E.held err.old) (E.held err.new) Untold result }
    ensures status { (words : List (List ℕ)) → IsCommand words command.now → ¬ (result ≡ 3) }
    ensures complete { let Failed = SomeRose (H.fault_count shelf.old) (H.fault_count shelf.new) (I.fault_count input.old) (I.fault_count input.new) (O.fault_count out.old) (O.fault_count out.new) in
        (words : List (List ℕ)) → IsCommand words command.now → IfSome (H.names shelf.old) (λ held. IsPossible words held → ¬ Failed → (result ≤ 2) ⊎ (result ≡ 7)) }
    ensures untold { (words : List (List ℕ)) → IsCommand words command.now → result ≤ 2 → E.held err.new ≡ E.held err.old }
    ensures untouched { let Untouched = (I.left input.new ≡ I.left input.old) × (O.held out.new ≡ O.held out.old) in
        (words : List (List ℕ)) → IsCommand words command.now → 3 ≤ result → result ≤ 5 → Untouched }
    ensures unread { (words : List (List ℕ)) (c : ProveWords) → IsCommand words command.now → SpellsProve words c → I.left input.new ≡ I.left input.old }
    ensures front { let names = H.names shelf.old in
        (words : List (List ℕ)) → IsCommand words command.now → 3 ≤ result → MayBegin names (I.left input.old) (I.left input.new) (O.held out.old) (O.held out.new) words }
    ensures files_kept { H.names shelf.new ≡ H.names shelf.old }
    ensures shelf_count { H.fault_count shelf.old ≤ H.fault_count shelf.new }
    ensures input_count { I.fault_count input.old ≤ I.fault_count input.new }
    ensures out_count { O.fault_count out.old ≤ O.fault_count out.new }
    ensures err_count { E.fault_count err.old ≤ E.fault_count err.new }
{
    match obey(rt, alloc, command, shelf, input, out) {
        Ok(status) => status,
        Err(trouble) => ended(alloc, err, &trouble),
    }
}

/// Does what a command says.
fn obey<R: Wait, H: Shelf, I: Source, O: Sink>(
    rt: &R,
    alloc: Global,
    command: &Command,
    shelf: &mut H,
    input: &mut I,
    out: &mut O,
) -> Result<u8, Trouble>
    ensures done { let names = H.names shelf.old in
        (words : List (List ℕ)) → IsCommand words command.now → IfOk result (λ status. (status ≤ 2) × DoesWords names (I.left input.old) (I.left input.new) (O.held out.old) (O.held out.new) words status) }
    ensures cause { let Failed = SomeRose (H.fault_count shelf.old) (H.fault_count shelf.new) (I.fault_count input.old) (I.fault_count input.new) (O.fault_count out.old) (O.fault_count out.new) in
        (words : List (List ℕ)) → IsCommand words command.now → IfErr result (HasCause (H.names shelf.old) words Failed) }
    ensures untouched { let Untouched = (I.left input.new ≡ I.left input.old) × (O.held out.new ≡ O.held out.old) in IfErr result (λ trouble. exit_status (ending_of trouble) ≤ 5 → Untouched) }
    ensures unread { (words : List (List ℕ)) (c : ProveWords) → IsCommand words command.now → SpellsProve words c → I.left input.new ≡ I.left input.old }
    ensures front { let names = H.names shelf.old in
        (words : List (List ℕ)) → IsCommand words command.now → OnErr result (MayBegin names (I.left input.old) (I.left input.new) (O.held out.old) (O.held out.new) words) }
    ensures files_kept { H.names shelf.new ≡ H.names shelf.old }
    ensures shelf_count { H.fault_count shelf.old ≤ H.fault_count shelf.new }
    ensures input_count { I.fault_count input.old ≤ I.fault_count input.new }
    ensures out_count { O.fault_count out.old ≤ O.fault_count out.new }
{
    match command {
        Command::Stdio(stdio) => match serve_input(rt, alloc, stdio, shelf, input, out) {
            Ok(()) => Ok(0),
            Err(trouble) => Err(trouble),
        },
        Command::Prove(prove) => prove_file(rt, alloc, prove, shelf, out),
    }
}

/// Serves the input over the modules of a definition.
fn serve_input<R: Wait, H: Shelf, I: Source, O: Sink>(
    rt: &R,
    alloc: Global,
    command: &Stdio,
    shelf: &mut H,
    input: &mut I,
    out: &mut O,
) -> Result<(), Trouble>
    ensures served { let definition' = command.now.definition.now in let main' = command.now.module_name.now in
        OnOk result (ServesFile (H.names shelf.old) (I.left input.old) (I.left input.new) (O.held out.old) (O.held out.new) definition' main') }
    ensures cause { let Failed = SomeRose (H.fault_count shelf.old) (H.fault_count shelf.new) (I.fault_count input.old) (I.fault_count input.new) (O.fault_count out.old) (O.fault_count out.new) in
        let definition' = command.now.definition.now in let main' = command.now.module_name.now in
        (words : List (List ℕ)) → NamesDefinition words definition' main' → IfErr result (HasCause (H.names shelf.old) words Failed) }
    ensures untouched { let Untouched = (I.left input.new ≡ I.left input.old) × (O.held out.new ≡ O.held out.old) in IfErr result (λ trouble. exit_status (ending_of trouble) ≤ 5 → Untouched) }
    ensures front { let definition' = command.now.definition.now in let main' = command.now.module_name.now in
        OnErr result (MayBreakFile (H.names shelf.old) (I.left input.old) (I.left input.new) (O.held out.old) (O.held out.new) definition' main') }
    ensures files_kept { H.names shelf.new ≡ H.names shelf.old }
    ensures shelf_count { H.fault_count shelf.old ≤ H.fault_count shelf.new }
    ensures input_count { I.fault_count input.old ≤ I.fault_count input.new }
    ensures out_count { O.fault_count out.old ≤ O.fault_count out.new }
{
    match load_table(alloc, shelf, command.definition, command.module_name) {
        Ok(table) => serve_table(rt, alloc, table, input, out),
        Err(trouble) => Err(trouble),
    }
}

/// Serves the input over the modules of a table, and those that it adds.
fn serve_table<R: Wait, I: Source, O: Sink>(
    rt: &R,
    alloc: Global,
    table: ModuleTable,
    input: &mut I,
    out: &mut O,
) -> Result<(), Trouble>
    ensures served { (o : Opening) → IsTableOf o table → OnOk result (ServesInput o (I.left input.old) (I.left input.new) (O.held out.old) (O.held out.new)) }
    ensures late { IfErr result (IsLate (Rose (I.fault_count input.old) (I.fault_count input.new) ⊎ Rose (O.fault_count out.old) (O.fault_count out.new))) }
    ensures front { let Untouched = (I.left input.new ≡ I.left input.old) × (O.held out.new ≡ O.held out.old) in
        (o : Opening) → IsTableOf o table → OnErr result (Untouched ⊎ BreaksOff o (I.left input.old) (I.left input.new) (O.held out.old) (O.held out.new)) }
    ensures input_count { I.fault_count input.old ≤ I.fault_count input.new }
    ensures out_count { O.fault_count out.old ≤ O.fault_count out.new }
{
    let (service, pass) = Service::begin(alloc, table, 1)?;
    let mut seen = pass;
    outcome(serve(rt, alloc, &service, &mut seen, input, out))
}

/// What the end of a connection comes to.
fn outcome(end: Served) -> Result<(), Trouble>
    ensures whole { OnOk result (IsWhole end) }
    ensures broken { OnErr result ((end ≡ ReadFault) ⊎ (end ≡ WriteFault) ⊎ (end ≡ OutOfMemory)) }
    ensures late { IfErr result (IsLate ((end ≡ ReadFault) ⊎ (end ≡ WriteFault))) }
{
    match end {
        Served::ReadFault => Err(Trouble::Outside),
        Served::WriteFault => Err(Trouble::Outside),
        Served::Memory => Err(Trouble::Memory),
        Served::Truncated => Ok(()),
        Served::TooLong => Ok(()),
        Served::Spent => Ok(()),
        Served::Ended { .. } => Ok(()),
    }
}
