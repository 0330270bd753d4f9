// What clap found in the words, read as a command.
ghost use Rattle.std.specs.Prelude.{◌≡◌, IfErr, IfOk, IfSome, Some, codes, map, string_bytes};
ghost use Rattle.clap.specs.Words.{found_of, rows_of, subcommand_rows_of};
ghost use Rattle.clap.specs.Walk.{Text, first_of, one_of};
ghost use Rattle.kp_command.specs.Commands.{IsCommand, IsReadAs, IsErrorOf, prove_view};
ghost use Rattle.kp_command.specs.Words.{AreOfProve, AreOfStdio, WritesDepth};

use crate::command::{Command, Prove, Stdio};
use crate::described::command_line;
use crate::error::{WordsError, error_of};
use clap::ArgMatches;
use std::alloc::Global;

/// The command that the words spell, of which the first is the program's name; else why they spell none.
pub fn command_of(alloc: Global, words: &[String]) -> Result<Command<'_>, WordsError>
    ensures found { IfOk result (IsCommand (map string_bytes words.now)) }
    ensures refused { IfErr result (IsErrorOf (map string_bytes words.now)) }
{
    let line = command_line(alloc)?;
    let matches = match line.try_get_matches_from(words) {
        Ok(matches) => matches,
        Err(error) => return Err(error_of(alloc, &error)),
    };
    match command_in(&matches) {
        Some(command) => Ok(command),
        None => Err(WordsError::Memory),
    }
}

/// The command that was found.
fn command_in<'a>(matches: &ArgMatches<'a>) -> Option<Command<'a>>
    ensures { IfSome result (IsReadAs (subcommand_rows_of matches.now)) }
{
    match matches.subcommand() {
        Some((name, given)) => command_named(name, given),
        None => None,
    }
}

/// The command of this name, with what was given to it.
fn command_named<'a>(name: &str, given: &ArgMatches<'a>) -> Option<Command<'a>>
    ensures { IfSome result (IsReadAs (Some (name.now, rows_of (found_of given.now)))) }
{
    if name == "stdio" {
        return match stdio_in(given) {
            Some(stdio) => Some(Command::Stdio(stdio)),
            None => None,
        };
    }
    if name == "prove" {
        return match prove_in(given) {
            Some(prove) => Some(Command::Prove(prove)),
            None => None,
        };
    }
    None
}

/// What was given to `stdio`.
fn stdio_in<'a>(given: &ArgMatches<'a>) -> Option<Stdio<'a>>
    ensures { IfSome result (λ c. AreOfStdio (rows_of (found_of given.now)) c.definition.now c.module_name.now) }
{
    Some(Stdio {
        definition: value_of(given, "definition")?,
        module_name: value_of(given, "module")?,
    })
}

/// What was given to `prove`.
fn prove_in<'a>(given: &ArgMatches<'a>) -> Option<Prove<'a>>
    ensures { IfSome result (λ c. AreOfProve (rows_of (found_of given.now)) (prove_view c)) }
{
    Some(Prove {
        definition: value_of(given, "definition")?,
        module_name: value_of(given, "module")?,
        claims: value_of(given, "claims")?,
        max_depth: depth_in(given)?,
    })
}

/// The value that was given to an argument.
fn value_of<'a>(given: &ArgMatches<'a>, id: &str) -> Option<&'a str>
    ensures { IfSome result (λ value. first_of id.now (rows_of (found_of given.now)) ≡ Some value.now) }
{
    given.get_str(id)
}

/// The number of steps that was given to `prove`. Its parser lets no other number through.
fn depth_in(given: &ArgMatches<'_>) -> Option<u64>
    ensures { IfSome result (λ n. (number : Text) × (one_of (codes "max-depth") (rows_of (found_of given.now)) ≡ Some number) × WritesDepth number n) }
{
    let depth = given.get_one::<u64>("max-depth")?;
    if 1 <= depth && depth <= 10_000 {
        Some(depth)
    } else {
        None
    }
}
