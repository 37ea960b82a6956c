//! The words of `generate`.

ghost use Rattle.std.specs.Prelude.{◌≡◌, IfOk, map, string_bytes};
ghost use Rattle.clap.specs.Words.{app_of, found_of, rows_of};
ghost use Rattle.cp_words.specs.Answers.{Answers, HasGenerateLimits, generate_seen};
ghost use Rattle.cp_words.specs.Commands.{HasGenerateNumbers, generate_command, number_at, text_at};
ghost use Rattle.cp_words.specs.Words.{generate_at, generate_options};

use crate::command::{number_32_at, number_option, numbers_32, parse, text_at, text_option};
use crate::words::{GenerateOptions, UsageKind, WordsRefusal, is_command};
use clap::{ArgMatches, Command};
use std::alloc::{AllocError, Global};

/// What a run of `generate` is asked for by the words of a command line, the program's name left out. Want of memory isn't answered
/// where the first word is not the command; the kinds of refusal are `Command` and `Words`.
pub fn read_generate_words<'a>(
    alloc: Global,
    words: &'a [String],
) -> Result<GenerateOptions<'a>, WordsRefusal>
    ensures answer { Answers generate_seen (generate_options (map string_bytes words.entry.now)) result }
    ensures limits { IfOk result HasGenerateLimits }
{
    if !is_command("generate", words) {
        return Err(WordsRefusal::Usage {
            kind: UsageKind::Command,
        });
    }
    let Ok(command) = generate_command(alloc) else {
        return Err(WordsRefusal::NoMemory);
    };
    let matches = parse(command, words)?;
    Ok(generate_options(&matches))
}

fn generate_command<'a>(alloc: Global) -> Result<Command<'a>, AllocError>
    ensures { IfOk result (λ c. app_of c ≡ generate_command) }
{
    let seed = number_option(alloc, "seed", numbers_32(0, 2147483647), "1");
    let vars = number_option(alloc, "vars", numbers_32(1, 2000000), "1000");
    let clauses = number_option(alloc, "clauses", numbers_32(0, 8000000), "3000");
    Command::new(alloc, "generate")
        .arg(seed)?
        .arg(vars)?
        .arg(clauses)?
        .arg(text_option(alloc, "summary", "std"))
}

fn generate_options<'a>(matches: &ArgMatches<'a>) -> GenerateOptions<'a>
    requires { HasGenerateNumbers (rows_of (found_of matches.now)) }
    ensures options { generate_seen result ≡ generate_at (rows_of (found_of matches.now)) }
    ensures limits { HasGenerateLimits result }
{
    GenerateOptions {
        seed: number_32_at(matches, "seed"),
        vars: number_32_at(matches, "vars"),
        clauses: number_32_at(matches, "clauses"),
        summary: text_at(matches, "summary"),
    }
}
