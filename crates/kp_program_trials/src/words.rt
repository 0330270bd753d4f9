use crate::running::is_told;
use std::alloc::{AllocError, Global};
use std::sync::Wait;
use std::test::Fail;

/// A definition without sentences.
const EMPTY: &str = "[] module M endmodule []";

/// A file without claims.
const NONE: &str = "module M-SPEC endmodule []";

/// What is told of words that are no command.
const USAGE: &str = "status 3: kprove: usage\n";

/// A command line, a blank behind each of its words but the last, and what is told.
type Row = (&'static str, &'static str);

/// Each command with its options in several orders. Where a file or the main module is another, it is that which is told.
static COMMANDS: [Row; 14] = [
    ("kprove stdio d.kore --module M", ""),
    ("kprove stdio --module M d.kore", ""),
    ("kprove stdio --module=M d.kore", ""),
    (
        "kprove stdio --module N d.kore",
        "status 4: kprove: d.kore: M8\n",
    ),
    (
        "kprove stdio --module M x.kore",
        "status 5: kprove: no file x.kore\n",
    ),
    ("kprove prove d.kore --module M --claims c.kore", ""),
    (
        "kprove prove --max-depth 2 --claims c.kore --module M d.kore",
        "",
    ),
    (
        "kprove prove --claims=c.kore d.kore --max-depth=+07 --module=M",
        "",
    ),
    (
        "kprove prove --claims y.kore --module M d.kore",
        "status 5: kprove: no file y.kore\n",
    ),
    (
        "kprove prove --claims c.kore --module M x.kore",
        "status 5: kprove: no file x.kore\n",
    ),
    (
        "kprove prove --claims c.kore --module N d.kore",
        "status 4: kprove: d.kore: M8\n",
    ),
    // an empty word is a value, and behind `=` one may begin with a hyphen; behind `--` each word is a value
    ("kprove stdio  --module M", "status 5: kprove: no file \n"),
    (
        "kprove stdio d.kore --module=-M",
        "status 4: kprove: d.kore: M8\n",
    ),
    (
        "kprove stdio --module M -- --help",
        "status 5: kprove: no file --help\n",
    ),
];

/// Words that are no command, of each kind.
static REFUSED: [Row; 23] = [
    // no command, and another
    ("kprove", USAGE),
    ("kprove ", USAGE),
    ("kprove serve d.kore --module M", USAGE),
    ("kprove d.kore --module M stdio", USAGE),
    ("kprove --module M stdio d.kore", USAGE),
    // a value that is missing, or one too many
    ("kprove stdio", USAGE),
    ("kprove stdio d.kore", USAGE),
    ("kprove stdio --module M", USAGE),
    ("kprove stdio d.kore --module", USAGE),
    ("kprove stdio d.kore d.kore --module M", USAGE),
    ("kprove prove d.kore --module M", USAGE),
    ("kprove prove --module M --claims c.kore", USAGE),
    (
        "kprove prove d.kore --module M --claims --max-depth 2",
        USAGE,
    ),
    (
        "kprove prove d.kore --module M --claims c.kore --max-depth",
        USAGE,
    ),
    // an option that is unknown, another command's, or there twice
    ("kprove stdio d.kore --module M --main M", USAGE),
    ("kprove stdio d.kore -m M", USAGE),
    ("kprove stdio d.kore --mod M", USAGE),
    ("kprove stdio d.kore --module M --claims c.kore", USAGE),
    ("kprove stdio d.kore --module M --module M", USAGE),
    // a value that begins with a hyphen
    ("kprove stdio d.kore --module -M", USAGE),
    ("kprove stdio -d --module M", USAGE),
    // a version, and help of no command
    ("kprove --version", USAGE),
    ("kprove help serve", USAGE),
];

/// The program's help.
const HELP: &str =
    "Executes symbolic configurations of a K definition over JSON-RPC, and proves reachability claims

Usage: kprove <COMMAND>

Commands:
  stdio  Serves requests on standard input
  prove  Proves the claims of a file
  help   Print this message or the help of the given subcommand(s)

Options:
  -h, --help  Print help
status 3: kprove: usage
";

/// That of `stdio`.
const STDIO_HELP: &str = "Serves requests on standard input

Usage: kprove stdio --module <M> <DEF>

Arguments:
  <DEF>  The file with the definition

Options:
      --module <M>  The main module
  -h, --help        Print help
status 3: kprove: usage
";

/// That of `prove`.
const PROVE_HELP: &str = "Proves the claims of a file

Usage: kprove prove [OPTIONS] --module <M> --claims <FILE> <DEF>

Arguments:
  <DEF>  The file with the definition

Options:
      --module <M>     The main module
      --claims <FILE>  The file with the claims
      --max-depth <K>  The most steps of an edge, from 1 to 10000 [default: 1]
  -h, --help           Print help
status 3: kprove: usage
";

/// Words that ask for help.
static HELPED: [Row; 8] = [
    ("kprove --help", HELP),
    ("kprove -h", HELP),
    ("kprove help", HELP),
    ("kprove stdio -h", STDIO_HELP),
    ("kprove help stdio", STDIO_HELP),
    ("kprove prove --help", PROVE_HELP),
    ("kprove help prove", PROVE_HELP),
    ("kprove prove d.kore --max-depth 2 --help", PROVE_HELP),
];

/// Whether this is told of a row's command line.
fn is_row<R: Wait>(rt: &R, alloc: Global, row: &Row) -> Result<bool, AllocError> {
    let (line, wanted) = *row;
    let words: Vec<&str> = line.split(' ').collect(alloc)?;
    let files: (&[u8], &str) = (EMPTY.as_bytes(), NONE);
    Ok(is_told(rt, alloc, (&words, &[]), files, "", wanted))
}

/// Refuses the first row of which something else is told.
fn are_told<R: Wait>(rt: &R, alloc: Global, rows: &[Row]) -> Result<(), Fail> {
    for row in rows {
        match is_row(rt, alloc, row) {
            Ok(true) => {}
            _ => return Err(Fail::new(row.0)),
        }
    }
    Ok(())
}

#[test]
fn commands_are_obeyed(rt: HostRuntime) -> Result<(), Fail> {
    are_told(&rt, rt.alloc(), &COMMANDS)
}

#[test]
fn other_words_are_refused(rt: HostRuntime) -> Result<(), Fail> {
    are_told(&rt, rt.alloc(), &REFUSED)
}

#[test]
fn help_is_told(rt: HostRuntime) -> Result<(), Fail> {
    are_told(&rt, rt.alloc(), &HELPED)
}
