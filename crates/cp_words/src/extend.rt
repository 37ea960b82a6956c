//! The words of `extend`.

ghost use Rattle.std.specs.Prelude.{◌≡◌, IfOk, map, string_bytes};
ghost use Rattle.clap.specs.Words.{app_of, found_of, rows_of};
ghost use Rattle.cp_words.specs.Answers.{Answers, Gives, extend_seen};
ghost use Rattle.cp_words.specs.Commands.{extend_command, text_at};
ghost use Rattle.cp_words.specs.Names.{some_clash};
ghost use Rattle.cp_words.specs.Words.{extend_found, extend_options, extend_roles};

use crate::command::{parse, required_option, text_at, text_option};
use crate::names::{NamedRole, some_clash};
use crate::words::{ExtendOptions, UsageKind, WordsRefusal, is_command};
use clap::{ArgMatches, Command};
use std::alloc::{AllocError, Global};

/// What a run of `extend` is asked for by the words of a command line, the program's name left out. Want of memory isn't answered
/// where the first word is not the command; the kinds of refusal are `Command`, `Words` and `Names`.
pub fn read_extend_words<'a>(
    alloc: Global,
    words: &'a [String],
) -> Result<ExtendOptions<'a>, WordsRefusal>
    ensures { Answers extend_seen (extend_options (map string_bytes words.entry.now)) result }
{
    if !is_command("extend", words) {
        return Err(WordsRefusal::Usage {
            kind: UsageKind::Command,
        });
    }
    let Ok(command) = extend_command(alloc) else {
        return Err(WordsRefusal::NoMemory);
    };
    let matches = parse(command, words)?;
    match extend_options(&matches) {
        Ok(options) => Ok(options),
        Err(kind) => Err(WordsRefusal::Usage { kind }),
    }
}

fn extend_command<'a>(alloc: Global) -> Result<Command<'a>, AllocError>
    ensures { IfOk result (λ c. app_of c ≡ extend_command) }
{
    Command::new(alloc, "extend")
        .arg(required_option(alloc, "stack"))?
        .arg(text_option(alloc, "model", "std"))?
        .arg(text_option(alloc, "full", "std"))
}

fn extend_options<'a>(matches: &ArgMatches<'a>) -> Result<ExtendOptions<'a>, UsageKind>
    ensures { Gives extend_seen (extend_found (rows_of (found_of matches.now))) result }
{
    let options = ExtendOptions {
        stack: text_at(matches, "stack"),
        model: text_at(matches, "model"),
        full: text_at(matches, "full"),
    };
    if extend_roles_clash(&options) {
        return Err(UsageKind::Names);
    }
    Ok(options)
}

// Whether two of the roles have one name.
fn extend_roles_clash(options: &ExtendOptions<'_>) -> bool
    ensures { result ≡ some_clash (extend_roles (extend_seen options.now)) }
{
    some_clash(&[
        NamedRole::input(options.stack),
        NamedRole::input(options.model),
        NamedRole::output(options.full),
    ])
}
