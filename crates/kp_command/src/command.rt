/// A command of the program.
#[derive(Clone, Copy)]
pub enum Command<'a> {
    Stdio(Stdio<'a>),
    Prove(Prove<'a>),
}

/// `stdio DEF --module M`: serve standard input over the main module M of the definition in the file DEF.
#[derive(Clone, Copy)]
pub struct Stdio<'a> {
    pub definition: &'a str,
    pub module_name: &'a str,
}

/// `prove DEF --module M --claims FILE [--max-depth K]`: prove the claims in FILE over the main module M of the
/// definition in the file DEF, by edges of at most K steps (1 to 10,000; 1 where none is said).
#[derive(Clone, Copy)]
pub struct Prove<'a> {
    pub definition: &'a str,
    pub module_name: &'a str,
    pub claims: &'a str,
    pub max_depth: u64,
}
