//! The words of the command line.
ghost use Rattle.std.specs.Prelude.{◌≡◌, Some, true, map, IfOk, IfSome, is_some};
ghost use Rattle.clap.specs.Faults.{is_simple_and_free};
ghost use Rattle.clap.specs.Matches.{found_of};
ghost use Rattle.clap.specs.Simple.{app_of};
ghost use Rattle.clap.specs.Walk.{first_of, rows_of};
ghost use Rattle.rump_sp.specs.Words.{app_for, asked_by, asked_of, is_yes, named};
ghost use Rattle.rump_sp.specs.Words.{rows_in, takes_options, with_options};

use clap::error::ErrorKind;
use clap::{Arg, ArgAction, ArgMatches, Command};
use sp_base::NoMemory;
use std::alloc::Global;
use std::convert::AsStr;

/// What the words ask for.
#[derive(Clone, Copy, Debug, PartialEq, Eq)]
pub enum Asked {
    /// One connection over standard input and output.
    Stdio,
    /// A run of a script's guests, whose calls are all the server's.
    Bench {
        /// Whether the kernels' journals are printed behind the rows.
        journals: bool,
    },
}

/// A command, which the first word names.
#[derive(Clone, Copy, Debug, PartialEq, Eq)]
pub enum CommandName {
    Stdio,
    Bench,
}

impl CommandName {
    /// The command that a word names.
    fn named(word: &str) -> Option<CommandName>
        ensures { result ≡ named word.now }
    {
        match word {
            "stdio" => Some(CommandName::Stdio),
            "bench" => Some(CommandName::Bench),
            _ => None,
        }
    }
}

/// The command `stdio`, which has no option.
fn stdio_command<'a>(alloc: Global) -> Command<'a>
    ensures { app_of result ≡ app_for CommandName.Stdio }
{
    Command::new(alloc, "stdio")
        .no_binary_name(true)
        .disable_help_flag(true)
}

/// The command `bench`, which has to be given `-r` by now, and may be given `-j`.
fn bench_command<'a>(alloc: Global) -> Result<Command<'a>, NoMemory>
    ensures { IfOk result (λ command. app_of command ≡ app_for CommandName.Bench) }
{
    let raw = Arg::new(alloc, "raw")
        .short('r')
        .action(ArgAction::SetTrue)
        .required(true);
    let journals = Arg::new(alloc, "journals")
        .short('j')
        .action(ArgAction::SetTrue);
    let command = Command::new(alloc, "bench")
        .no_binary_name(true)
        .disable_help_flag(true)
        .arg(raw)?
        .arg(journals)?;
    Ok(command)
}

/// A command with its options.
fn command_for<'a>(alloc: Global, name: CommandName) -> Result<Command<'a>, NoMemory>
    ensures { IfOk result (λ command. app_of command ≡ app_for name) }
{
    match name {
        CommandName::Stdio => Ok(stdio_command(alloc)),
        CommandName::Bench => bench_command(alloc),
    }
}

/// What a command takes the words as, as its options; None where it doesn't take them.
#[tactic(auto, unfolding(crate::specs::Words::takes_options, crate::specs::Words::rows_in))]
fn matches_in<'a, W: AsStr>(
    command: Command<'a>,
    options: &'a [W],
) -> Result<Option<ArgMatches<'a>>, NoMemory>
    requires { is_simple_and_free (app_of command) ≡ true }
    ensures taken { IfOk result (λ found. is_some found
        ≡ takes_options (app_of command.entry) (map W.text options.entry.now)) }
    ensures found { IfOk result (λ found. IfSome found (λ matches. rows_of (found_of matches)
        ≡ rows_in (app_of command.entry) (map W.text options.entry.now))) }
{
    let error = match command.try_get_matches_from(options) {
        Ok(matches) => return Ok(Some(matches)),
        Err(error) => error,
    };
    if error.kind() == ErrorKind::OutOfMemory {
        Err(NoMemory)
    } else {
        Ok(None)
    }
}

/// Whether a flag is given.
#[tactic(auto, using(crate::proofs::WordLaws::first_read))]
fn is_given(matches: &ArgMatches<'_>, flag: &str) -> bool
    ensures { result ≡ is_yes (first_of flag.now (rows_of (found_of matches.now))) }
{
    match matches.get_str(flag) {
        Some(value) => value == "true",
        None => false,
    }
}

/// What a command asks for with its options.
fn asked_by(name: CommandName, matches: &ArgMatches<'_>) -> Asked
    ensures { result ≡ asked_by name (rows_of (found_of matches.now)) }
{
    match name {
        CommandName::Stdio => Asked::Stdio,
        CommandName::Bench => Asked::Bench {
            journals: is_given(matches, "journals"),
        },
    }
}

/// What a command asks for with these words as its options; None where it doesn't take them.
fn asked_with<W: AsStr>(
    alloc: Global,
    name: CommandName,
    options: &[W],
) -> Result<Option<Asked>, NoMemory>
    ensures { IfOk result (λ asked. asked
        ≡ with_options (map W.text options.now) (Some name)) }
{
    let command = command_for(alloc, name)?;
    let Some(matches) = matches_in(command, options)? else {
        return Ok(None);
    };
    Ok(Some(asked_by(name, &matches)))
}

/// What the words behind the program's name ask for; None where they are wrong.
/// The only error is want of memory.
pub fn read_words<W: AsStr>(alloc: Global, words: &[W]) -> Result<Option<Asked>, NoMemory>
    ensures { IfOk result (λ asked. asked ≡ asked_of (map W.text words.now)) }
{
    let [word, options @ ..] = words else {
        return Ok(None);
    };
    let Some(name) = CommandName::named(word.as_str()) else {
        return Ok(None);
    };
    asked_with(alloc, name, options)
}
