//! The options that words give, and why words are refused.

ghost use Rattle.std.specs.Prelude.{◌≡◌, map, string_bytes};
ghost use Rattle.cp_words.specs.Words.{is_command};

use cp_logic::{Form, Opts};

/// Why words are refused.
#[derive(Clone, Copy, Debug, PartialEq, Eq)]
pub enum UsageKind {
    /// There is no word, or the first is not the command.
    Command,
    /// The words behind the command are not options of it, or a number is out of its range, or help is asked for.
    Words,
    /// The value of `--only` has no letter, or one that is not that of a technique.
    Choice,
    /// The value of `--proof-form` is neither `text` nor `binary`.
    Form,
    /// Two roles have one name.
    Names,
}

/// Why there are no options.
#[derive(Clone, Copy, Debug, PartialEq, Eq)]
pub enum WordsRefusal {
    /// The words are refused.
    Usage { kind: UsageKind },
    /// There is no memory to read them.
    NoMemory,
}

/// What a run of `simplify` is asked for. Each name is that of a role's file, or `std`, or `none`.
#[derive(Clone, Copy, Debug, PartialEq, Eq)]
pub struct SimplifyOptions<'a> {
    /// At most 64 workers and 16 rounds, a `hood` from 1 to 4096, a bound of at most 1000, and a budget of at most 2^40.
    pub opts: Opts,
    pub form: Form,
    pub cnf: &'a str,
    pub reduced: &'a str,
    pub stack: &'a str,
    pub proof: &'a str,
    pub summary: &'a str,
}

/// What a run of `extend` is asked for. Each name is that of a role's file, or `std`, or `none`.
#[derive(Clone, Copy, Debug, PartialEq, Eq)]
pub struct ExtendOptions<'a> {
    pub stack: &'a str,
    pub model: &'a str,
    pub full: &'a str,
}

/// What a run of `generate` is asked for.
#[derive(Clone, Copy, Debug, PartialEq, Eq)]
pub struct GenerateOptions<'a> {
    /// Below 2^31.
    pub seed: u32,
    /// The number of variables, from 1 to 2,000,000.
    pub vars: u32,
    /// The number of clauses, at most 8,000,000.
    pub clauses: u32,
    /// The name of the summary's file, or `std`, or `none`.
    pub summary: &'a str,
}

/// Whether there is a word, and the first is the command `name`, letter for letter.
pub fn is_command(name: &str, words: &[String]) -> bool
    ensures { result ≡ is_command name.now (map string_bytes words.now) }
{
    match words {
        [] => false,
        [word, ..] => word.as_str() == name,
    }
}
