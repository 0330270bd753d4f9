// The command line, described for clap.
ghost use Rattle.std.specs.Prelude.{◌≡◌, IfOk, codes, false};
ghost use Rattle.clap.specs.Words.{app_of, new_app, rule_of, with_rule, with_subcommand};
ghost use Rattle.clap.specs.declared.builder.command.Command.TheViews.{out-Command as fields_of};
ghost use Rattle.kp_command.specs.Described.{app_over_module, depth_rule, placed, prove_app, stdio_app, top_app, wanted, whole_app};

use clap::{Arg, Command, value_parser};
use std::alloc::{AllocError, Global};

/// The program's command line.
pub fn command_line<'a>(alloc: Global) -> Result<Command<'a>, AllocError>
    ensures { IfOk result (λ c. app_of c ≡ whole_app) }
{
    let prove = prove_command(alloc)?;
    let line = line_to_stdio(alloc)?;
    line.subcommand(prove)
}

/// The program's command line, with `stdio` alone.
fn line_to_stdio<'a>(alloc: Global) -> Result<Command<'a>, AllocError>
    ensures { IfOk result (λ c. app_of c ≡ with_subcommand top_app stdio_app.top) }
{
    let stdio = command_over_module(alloc, "stdio", "Serves requests on standard input")?;
    top_command(alloc).subcommand(stdio)
}

/// The program, without its commands.
fn top_command<'a>(alloc: Global) -> Command<'a>
    ensures { app_of result ≡ top_app }
{
    Command::new(alloc, "kprove")
        .about(
            "Executes symbolic configurations of a K definition over JSON-RPC, and proves reachability claims",
        )
        .subcommand_required(true)
}

/// `prove DEF --module M --claims FILE [--max-depth K]`.
fn prove_command<'a>(alloc: Global) -> Result<Command<'a>, AllocError>
    ensures app { IfOk result (λ c. app_of c ≡ prove_app) }
    ensures local { IfOk result (λ c. (fields_of c).has_globals ≡ false) }
{
    let command = command_over_claims(alloc)?;
    command.arg(depth_argument(alloc))
}

/// `prove DEF --module M --claims FILE`.
fn command_over_claims<'a>(alloc: Global) -> Result<Command<'a>, AllocError>
    ensures app { IfOk result (λ c. app_of c ≡ with_rule (app_over_module (codes "prove")) (wanted (codes "claims"))) }
    ensures local { IfOk result (λ c. (fields_of c).has_globals ≡ false) }
{
    let command = command_over_module(alloc, "prove", "Proves the claims of a file")?;
    command.arg(wanted_argument(alloc, "claims", "FILE", "The file with the claims"))
}

/// `NAME DEF --module M`.
fn command_over_module<'a>(
    alloc: Global,
    name: &'a str,
    about: &'a str,
) -> Result<Command<'a>, AllocError>
    ensures app { IfOk result (λ c. app_of c ≡ app_over_module name.entry.now) }
    ensures local { IfOk result (λ c. (fields_of c).has_globals ≡ false) }
{
    let command = command_over_definition(alloc, name, about)?;
    command.arg(wanted_argument(alloc, "module", "M", "The main module"))
}

/// `NAME DEF`.
fn command_over_definition<'a>(
    alloc: Global,
    name: &'a str,
    about: &'a str,
) -> Result<Command<'a>, AllocError>
    ensures app { IfOk result (λ c. app_of c ≡ with_rule (new_app name.entry.now) (placed (codes "definition"))) }
    ensures local { IfOk result (λ c. (fields_of c).has_globals ≡ false) }
{
    Command::new(alloc, name).about(about).arg(placed_argument(
        alloc,
        "definition",
        "DEF",
        "The file with the definition",
    ))
}

/// A value by its place, which has to be there.
fn placed_argument<'a>(alloc: Global, id: &'a str, value: &'a str, help: &'a str) -> Arg<'a>
    ensures rule { rule_of result ≡ placed id.entry.now }
    ensures local { result.global ≡ false }
{
    Arg::new(alloc, id)
        .value_name(value)
        .help(help)
        .required(true)
}

/// An option with a value, which has to be there.
fn wanted_argument<'a>(alloc: Global, id: &'a str, value: &'a str, help: &'a str) -> Arg<'a>
    ensures rule { rule_of result ≡ wanted id.entry.now }
    ensures local { result.global ≡ false }
{
    Arg::new(alloc, id)
        .long(id)
        .value_name(value)
        .help(help)
        .required(true)
}

/// `--max-depth K`, from 1 to 10,000, and 1 where it is left out.
fn depth_argument<'a>(alloc: Global) -> Arg<'a>
    ensures rule { rule_of result ≡ depth_rule }
    ensures local { result.global ≡ false }
{
    Arg::new(alloc, "max-depth")
        .long("max-depth")
        .value_name("K")
        .help("The most steps of an edge, from 1 to 10000")
        .value_parser(value_parser!(u64).range(1..=10_000))
        .default_value("1")
}
