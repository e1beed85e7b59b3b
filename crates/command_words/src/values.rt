//! The values that the words after the name of a command give, read with `clap`.
//!
//! A plain word is a positional argument of the `clap` command, and an option is an argument with a long name. All of
//! them are optional to `clap`: the command itself asks for those that it needs, because it takes each value apart
//! anyway.

ghost use Rattle.std.specs.Prelude.{◌≡◌, ◌++◌, [], List, map, IfOk, IsTrue};
ghost use Rattle.clap.specs.Words.{Rule, app_of, new_rule};
ghost use Rattle.command_words.specs.Words.{value_at, values_given};
ghost use Rattle.command_words.specs.Parts.{Reads, text_in, texts};
ghost use Rattle.command_words.specs.Line.{AreTexts, app_for, app_with, form_of, is_form, long_rule};

use crate::fault::WordsFault;
use clap::error::ErrorKind;
use clap::{Arg, ArgMatches, Command};
use std::alloc::{AllocError, Global};
use std::marker::Model;

/// Values by the names that they were given to. Contracts see the list of names and values.
#[derive(Drop)]
pub struct Given<'a> {
    matches: ArgMatches<'a>,
}

impl<'a> Model for Given<'a> {
    ghost use Rattle.clap.specs.Words.{found_of};
    ghost use Rattle.command_words.specs.Words.{Values};
    ghost use Rattle.command_words.specs.Line.{EachHasValue, values_in};

    ghost Value = { Values };

    ghost view = { λ g. values_in (found_of g.matches) };

    ghost invariant = { λ g. EachHasValue (found_of g.matches) };
}

impl<'a> Given<'a> {
    /// The values that the words give to these places and options.
    pub fn read(
        alloc: Global,
        places: &'a [&'a str],
        options: &'a [&'a str],
        words: &'a [&'a str],
    ) -> Result<Given<'a>, WordsFault>
        requires form { IsTrue (is_form (form_of places.now options.now)) }
        requires text { AreTexts (texts words.now) }
        ensures { Reads (values_given (form_of places.entry.now options.entry.now) (texts words.entry.now)) result }
    {
        let command = clap_command(alloc, places, options)?;
        match command.try_get_matches_from(words) {
            Ok(matches) => Ok(Given { matches }),
            Err(error) => match error.kind() {
                ErrorKind::OutOfMemory => Err(WordsFault::NoMemory),
                _ => Err(WordsFault::Usage),
            },
        }
    }

    /// The value of a name.
    pub fn get(&self, name: &str) -> Option<&'a str>
        ensures { text_in result ≡ value_at name.now self.now }
    {
        self.matches.get_str(name)
    }
}

/// The `clap` command of these places and options, with no program's name before its words, no help and no version. It
/// serves all commands, so that the walk over `clap` is proved once.
fn clap_command<'a>(
    alloc: Global,
    places: &'a [&'a str],
    options: &'a [&'a str],
) -> Result<Command<'a>, AllocError>
    ensures { IfOk result (λ command. app_of command ≡ app_for (form_of places.entry.now options.entry.now)) }
{
    let command = Command::new(alloc, "servient")
        .disable_help_flag(true)
        .disable_version_flag(true)
        .no_binary_name(true);
    with_options(alloc, with_places(alloc, command, places)?, options)
}

/// A command without arguments takes these positional arguments.
fn with_places<'a>(
    alloc: Global,
    command: Command<'a>,
    places: &'a [&'a str],
) -> Result<Command<'a>, AllocError>
    requires { app_of command ≡ app_with [] }
    ensures { IfOk result (λ with. app_of with ≡ app_with (map new_rule (texts places.entry.now))) }
{
    let mut command = command;
    for place in places {
        command = command.arg(Arg::new(alloc, place))?;
    }
    Ok(command)
}

/// A command with positional arguments, with options of these long names as well.
fn with_options<'a>(
    alloc: Global,
    command: Command<'a>,
    options: &'a [&'a str],
) -> Result<Command<'a>, AllocError>
    ensures { (places : List Rule) → app_of command.entry ≡ app_with places
        → IfOk result (λ with. app_of with ≡ app_with (places ++ map long_rule (texts options.entry.now))) }
{
    let mut command = command;
    for option in options {
        command = command.arg(Arg::new(alloc, option).long(option))?;
    }
    Ok(command)
}
