//! A command and its options, and what clap finds of them.

ghost use Rattle.std.specs.Prelude.{◌≡◌, ◌⊎◌, ◌≤◌, ◌<◌, ◌^◌, ℕ, IfOk, IfErr, Some, None, true, map, string_bytes};
ghost use Rattle.clap.specs.Words.{IsParsedFrom, app_of, found_of, is_simple_and_free, rows_of};
ghost use Rattle.clap.specs.declared.builder.value_parser.ValueParser.{ValueParser};
ghost use Rattle.cp_words.specs.Commands.{HasTaken, IsOption, number_at, number_option, numbers_32, numbers_64, required_option, taken, text_at, text_option};
ghost use Rattle.cp_words.specs.declared.words.UsageKind.TheVariants.{Words};

use crate::words::{UsageKind, WordsRefusal};
use clap::builder::ValueParser;
use clap::error::ErrorKind;
use clap::{Arg, ArgAction, ArgMatches, Command, value_parser};
use std::alloc::Global;

/// The option `--id`, which has to be given.
pub(crate) fn required_option<'a>(alloc: Global, id: &'a str) -> Arg<'a>
    ensures { IsOption (required_option id.entry.now) result }
{
    Arg::new(alloc, id)
        .long(id)
        .action(ArgAction::Set)
        .required(true)
}

/// The option `--id` of any text.
pub(crate) fn text_option<'a>(alloc: Global, id: &'a str, default: &'a str) -> Arg<'a>
    ensures { IsOption (text_option id.entry.now default.entry.now) result }
{
    Arg::new(alloc, id)
        .long(id)
        .action(ArgAction::Set)
        .default_value(default)
}

/// The option `--id` of a number that the parser takes.
pub(crate) fn number_option<'a>(
    alloc: Global,
    id: &'a str,
    parser: ValueParser<'a>,
    default: &'a str,
) -> Arg<'a>
    ensures { IsOption (number_option id.entry.now parser.entry default.entry.now) result }
{
    text_option(alloc, id, default).value_parser(parser)
}

/// The parser of numbers of 32 bits from `low` to `high`.
pub(crate) fn numbers_32<'a>(low: u32, high: u32) -> ValueParser<'a>
    ensures { result ≡ numbers_32 low high }
{
    value_parser!(u32).range(i64::from(low)..=i64::from(high))
}

/// The parser of numbers of 64 bits from 0 to `high`.
pub(crate) fn numbers_64<'a>(high: u64) -> ValueParser<'a>
    requires { high < 2 ^ 63 }
    ensures { result ≡ numbers_64 0 high }
{
    value_parser!(u64).range(0..=high as i64)
}

/// What clap finds of the options, where it takes the words. The first word is passed over.
pub(crate) fn parse<'a>(
    command: Command<'a>,
    words: &'a [String],
) -> Result<ArgMatches<'a>, WordsRefusal>
    requires { is_simple_and_free (app_of command) ≡ true }
    ensures parsed { IfOk result (λ m. IsParsedFrom command.entry m) }
    ensures found { IfOk result (λ m. taken (app_of command.entry) (map string_bytes words.entry.now) ≡ Some (rows_of (found_of m))) }
    ensures refused { IfErr result (λ e. (e ≡ WordsRefusal.NoMemory) ⊎ ((e ≡ WordsRefusal.Usage Words) × (taken (app_of command.entry) (map string_bytes words.entry.now) ≡ None))) }
{
    match command.try_get_matches_from(words) {
        Ok(matches) => Ok(matches),
        Err(error) => {
            if error.kind() == ErrorKind::OutOfMemory {
                return Err(WordsRefusal::NoMemory);
            }
            Err(WordsRefusal::Usage {
                kind: UsageKind::Words,
            })
        }
    }
}

/// The text of an option. An option has a value, or a default.
pub(crate) fn text_at<'a>(matches: &ArgMatches<'a>, id: &str) -> &'a str
    ensures { result.now ≡ text_at id.now (rows_of (found_of matches.now)) }
{
    matches.get_str(id).unwrap_or("")
}

/// The number of an option of 32 bits.
pub(crate) fn number_32_at(matches: &ArgMatches<'_>, id: &str) -> u32
    ensures { (low high : ℕ) → high < 2 ^ 32 → HasTaken (numbers_32 low high) id.now (rows_of (found_of matches.now))
        → (result ≡ number_at id.now (rows_of (found_of matches.now))) × (low ≤ result) × (result ≤ high) }
{
    matches.get_one::<u32>(id).unwrap_or(0)
}

/// The number of an option of 64 bits.
pub(crate) fn number_64_at(matches: &ArgMatches<'_>, id: &str) -> u64
    ensures { (low high : ℕ) → HasTaken (numbers_64 low high) id.now (rows_of (found_of matches.now))
        → (result ≡ number_at id.now (rows_of (found_of matches.now))) × (low ≤ result) × (result ≤ high) }
{
    matches.get_one::<u64>(id).unwrap_or(0)
}
