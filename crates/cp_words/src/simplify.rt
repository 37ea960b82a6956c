//! The words of `simplify`.

ghost use Rattle.std.specs.Prelude.{◌≡◌, IfOk, map, string_bytes};
ghost use Rattle.clap.specs.Words.{app_of, found_of, rows_of};
ghost use Rattle.cp_words.specs.Answers.{Answers, Gives, HasOptsLimits, HasSimplifyLimits, simplify_seen};
ghost use Rattle.cp_words.specs.Commands.{HasSimplifyNumbers, numeric_options, role_options, simplify_command, text_at, with_options};
ghost use Rattle.cp_words.specs.Names.{some_clash};
ghost use Rattle.cp_words.specs.Words.{opts_at, simplify_found, simplify_options, simplify_roles};

use crate::command::{
    number_32_at, number_64_at, number_option, numbers_32, numbers_64, parse, text_at, text_option,
};
use crate::letters::{choice_of, form_of};
use crate::names::{NamedRole, some_clash};
use crate::words::{SimplifyOptions, UsageKind, WordsRefusal, is_command};
use clap::{ArgMatches, Command};
use cp_logic::{Choice, Opts, Rules};
use std::alloc::{AllocError, Global};

/// What a run of `simplify` is asked for by the words of a command line, the program's name left out. Want of memory isn't answered
/// where the first word is not the command. Of the other kinds of refusal the first in the order of `UsageKind` is told.
pub fn read_simplify_words<'a>(
    alloc: Global,
    words: &'a [String],
) -> Result<SimplifyOptions<'a>, WordsRefusal>
    ensures answer { Answers simplify_seen (simplify_options (map string_bytes words.entry.now)) result }
    ensures limits { IfOk result HasSimplifyLimits }
{
    if !is_command("simplify", words) {
        return Err(WordsRefusal::Usage {
            kind: UsageKind::Command,
        });
    }
    let Ok(command) = simplify_command(alloc) else {
        return Err(WordsRefusal::NoMemory);
    };
    let matches = parse(command, words)?;
    match simplify_options(&matches) {
        Ok(options) => Ok(options),
        Err(kind) => Err(WordsRefusal::Usage { kind }),
    }
}

fn simplify_command<'a>(alloc: Global) -> Result<Command<'a>, AllocError>
    ensures { IfOk result (λ c. app_of c ≡ simplify_command) }
{
    with_numbers(alloc, with_roles(alloc, Command::new(alloc, "simplify"))?)?
        .arg(text_option(alloc, "only", "tsxbe"))?
        .arg(text_option(alloc, "proof-form", "text"))
}

fn with_roles<'a>(alloc: Global, command: Command<'a>) -> Result<Command<'a>, AllocError>
    ensures { IfOk result (λ c. app_of c ≡ with_options (app_of command.entry) role_options) }
{
    command
        .arg(text_option(alloc, "cnf", "std"))?
        .arg(text_option(alloc, "reduced", "std"))?
        .arg(text_option(alloc, "stack", "none"))?
        .arg(text_option(alloc, "proof", "none"))?
        .arg(text_option(alloc, "summary", "none"))
}

fn with_numbers<'a>(alloc: Global, command: Command<'a>) -> Result<Command<'a>, AllocError>
    ensures { IfOk result (λ c. app_of c ≡ with_options (app_of command.entry) numeric_options) }
{
    command
        .arg(number_option(alloc, "workers", numbers_32(0, 64), "4"))?
        .arg(number_option(alloc, "rounds", numbers_32(0, 16), "2"))?
        .arg(number_option(alloc, "hood", numbers_32(1, 4096), "512"))?
        .arg(number_option(alloc, "bound", numbers_64(1000), "0"))?
        .arg(number_option(alloc, "budget", numbers_64(1099511627776), "0"))
}

fn simplify_options<'a>(matches: &ArgMatches<'a>) -> Result<SimplifyOptions<'a>, UsageKind>
    requires { HasSimplifyNumbers (rows_of (found_of matches.now)) }
    ensures options { Gives simplify_seen (simplify_found (rows_of (found_of matches.now))) result }
    ensures limits { IfOk result HasSimplifyLimits }
{
    let Some(choice) = choice_of(text_at(matches, "only")) else {
        return Err(UsageKind::Choice);
    };
    let Some(form) = form_of(text_at(matches, "proof-form")) else {
        return Err(UsageKind::Form);
    };
    let options = SimplifyOptions {
        opts: opts_at(matches, choice),
        form,
        cnf: text_at(matches, "cnf"),
        reduced: text_at(matches, "reduced"),
        stack: text_at(matches, "stack"),
        proof: text_at(matches, "proof"),
        summary: text_at(matches, "summary"),
    };
    if simplify_roles_clash(&options) {
        return Err(UsageKind::Names);
    }
    Ok(options)
}

fn opts_at(matches: &ArgMatches<'_>, choice: Choice) -> Opts
    requires { HasSimplifyNumbers (rows_of (found_of matches.now)) }
    ensures opts { result ≡ opts_at choice (rows_of (found_of matches.now)) }
    ensures limits { HasOptsLimits result }
{
    Opts {
        rules: Rules {
            choice,
            bound: number_64_at(matches, "bound"),
            budget: number_64_at(matches, "budget"),
        },
        workers: number_32_at(matches, "workers"),
        rounds: number_32_at(matches, "rounds"),
        hood: number_32_at(matches, "hood"),
    }
}

// Whether two of the roles have one name.
fn simplify_roles_clash(options: &SimplifyOptions<'_>) -> bool
    ensures { result ≡ some_clash (simplify_roles (simplify_seen options.now)) }
{
    some_clash(&[
        NamedRole::input(options.cnf),
        NamedRole::output(options.reduced),
        NamedRole::output(options.stack),
        NamedRole::output(options.proof),
        NamedRole::output(options.summary),
    ])
}
