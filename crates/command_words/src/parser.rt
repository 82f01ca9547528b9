//! The words of the command line, as `clap` reads them: a command for each line of the table, with its options and its
//! positional, and no words for help and version.
ghost use Rattle.std.specs.Prelude.{◌≡◌, ◌↔◌, [], false, map, IfOk, IfSome, IsSome};
ghost use Rattle.std.specs.Option.{option_and_then, option_map};
ghost use Rattle.clap.specs.Words.{app_of, fault_of, found_of, rows_of, rule_of, subcommand_of, subcommand_rows_of};
ghost use Rattle.clap.specs.declared.builder.Command.TheViews.{out-Command as fields_of};
ghost use Rattle.command_words.specs.Said.{IsInRange, line_of, said, seen_by};
ghost use Rattle.command_words.specs.WordRules.{command_app, command_by, commands_app, etm, is_true_text, positional_rule, rule_for};
ghost use Rattle.command_words.specs.WordRules.{seen_in, top_app};
ghost use Rattle.command_words.specs.Words.{meaning, texts};

use crate::words::{COMMANDS, Command, CommandLine, CommandOption, Seen, line_of};
use clap::error::ErrorKind;
use clap::{Arg, ArgAction, ArgMatches};
use std::alloc::{AllocError, Global};

/// An option.
fn option_arg<'a>(alloc: Global, option: CommandOption) -> Arg<'a>
    ensures rule { rule_of result ≡ rule_for option }
    ensures local { result.global ≡ false }
{
    let action = if option.takes_value() {
        ArgAction::Set
    } else {
        ArgAction::SetTrue
    };
    let key: &'a str = option.key();
    let name: &'a str = option.name();
    Arg::new(alloc, key).long(name).action(action)
}

/// The positional.
fn positional_arg<'a>(alloc: Global) -> Arg<'a>
    ensures rule { rule_of result ≡ positional_rule }
    ensures local { result.global ≡ false }
{
    Arg::new(alloc, "POSITIONAL")
        .required(true)
        .action(ArgAction::Set)
}

/// A command of the table.
fn command_for<'a>(alloc: Global, line: &CommandLine) -> Result<clap::Command<'a>, AllocError>
    ensures app { IfOk result (λ c. app_of c ≡ command_app (line_of line.now)) }
    ensures local { IfOk result (λ c. (fields_of c).has_globals ≡ false) }
{
    let mut command = clap::Command::new(alloc, line.word);
    for option in line.options {
        command = command.arg(option_arg(alloc, *option))?;
    }
    if line.has_positional {
        command = command.arg(positional_arg(alloc))?;
    }
    Ok(command)
}

/// What stands above the commands.
fn top_command<'a>(alloc: Global) -> clap::Command<'a>
    ensures { app_of result ≡ top_app }
{
    clap::Command::new(alloc, "etm")
        .no_binary_name(true)
        .disable_help_flag(true)
        .disable_help_subcommand(true)
        .disable_version_flag(true)
        .subcommand_required(true)
}

/// These commands, below the top.
fn commands_of<'a>(alloc: Global, lines: &[CommandLine]) -> Result<clap::Command<'a>, AllocError>
    ensures { IfOk result (λ c. app_of c ≡ commands_app (map line_of lines.now)) }
{
    let mut command = top_command(alloc);
    for line in lines {
        command = command.subcommand(command_for(alloc, line)?)?;
    }
    Ok(command)
}

/// All commands.
fn all_commands<'a>(alloc: Global) -> Result<clap::Command<'a>, AllocError>
    ensures { IfOk result (λ c. app_of c ≡ etm) }
{
    commands_of(alloc, &COMMANDS)
}

/// The matches of the words, where `clap` takes them.
fn matches_of<'a>(alloc: Global, words: &'a [String]) -> Result<Option<ArgMatches<'a>>, AllocError>
    ensures taken { IfOk result (λ r. IsSome r ↔ (fault_of etm (texts words.entry.now) ≡ [])) }
    ensures found { IfOk result (λ r. IfSome r (λ m. subcommand_rows_of m ≡ subcommand_of etm (texts words.entry.now))) }
{
    let commands = all_commands(alloc)?;
    match commands.try_get_matches_from(words) {
        Ok(matches) => Ok(Some(matches)),
        Err(error) => {
            if error.kind() == ErrorKind::OutOfMemory {
                Err(AllocError)
            } else {
                Ok(None)
            }
        }
    }
}

/// Whether the text of a flag says that it stood.
fn is_true_text(text: Option<&str>) -> bool
    ensures { result ≡ is_true_text (option_map (λ t. t.now) text.entry) }
{
    match text {
        Some(text) => text == "true",
        None => false,
    }
}

/// What the matches of a command say.
fn seen_in<'a>(matches: &ArgMatches<'a>) -> Seen<'a>
    ensures { seen_by result ≡ seen_in (rows_of (found_of matches.now)) }
{
    Seen {
        raw: is_true_text(matches.get_str("raw")),
        wrap: matches.get_str("wrap"),
        sync: is_true_text(matches.get_str("sync")),
        depth: matches.get_str("depth"),
        vmid: matches.get_str("vmid"),
        cid: matches.get_str("cid"),
        settings: matches.get_str("settings"),
        elf: is_true_text(matches.get_str("elf")),
        count: is_true_text(matches.get_str("count")),
        last: matches.get_str("last"),
        every: matches.get_str("sync-every"),
        cut: matches.get_str("cut"),
        positional: matches.get_str("POSITIONAL"),
        waits: None,
        ended: false,
    }
}

/// The command of matches, where their numbers are in range.
fn command_in<'a>(matches: &ArgMatches<'a>) -> Option<Command<'a>>
    ensures value { option_map said result ≡ option_and_then command_by (subcommand_rows_of matches.now) }
    ensures within { IfSome result IsInRange }
{
    let (word, found) = matches.subcommand()?;
    let line = line_of(word)?;
    seen_in(found).command(line.name)
}

/// The command that the words mean, where they mean one.
pub fn command_of<'a>(alloc: Global, words: &'a [String]) -> Result<Option<Command<'a>>, AllocError>
    ensures value { IfOk result (λ r. option_map said r ≡ meaning (texts words.entry.now)) }
    ensures within { IfOk result (λ r. IfSome r IsInRange) }
{
    let Some(matches) = matches_of(alloc, words)? else {
        return Ok(None);
    };
    Ok(command_in(&matches))
}
