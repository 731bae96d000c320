//! Arguments as rows of a table, and what `clap` makes of them.

use clap::builder::ValueParser;
use clap::{Arg, ArgAction, Command};
use std::alloc::{AllocError, Global};

/// How an argument is given. The first two forms are positional, the others are options.
pub enum Form {
    /// A value, which is required.
    One,
    /// Values, of which at least this number is required.
    Several(usize),
    /// No value. Names the arguments that it needs, and those that it conflicts with.
    Switch {
        needs: &'static [&'static str],
        conflicts: &'static [&'static str],
    },
    /// A value, with its name in the help.
    Value(&'static str),
    /// A value, which is required, with its name in the help.
    Needed(&'static str),
    /// One of these words, with the value's name in the help. Names the arguments that it conflicts
    /// with.
    Choice {
        value: &'static str,
        of: &'static [&'static str],
        conflicts: &'static [&'static str],
    },
    /// A number of this range, ends included, or else the default.
    Number {
        least: u64,
        most: u64,
        default: &'static str,
    },
}

/// An argument of a command.
pub struct Argument {
    pub name: &'static str,
    pub form: Form,
    pub help: &'static str,
}

/// Returns the argument of a row.
fn argument_of<'a>(alloc: Global, row: &Argument) -> Result<Arg<'a>, AllocError> {
    let arg = Arg::new(alloc, row.name).help(row.help);
    match row.form {
        Form::One => Ok(arg.required(true)),
        Form::Several(least) => Ok(several(arg, least)),
        Form::Switch { needs, conflicts } => switch(arg.long(row.name), needs, conflicts),
        Form::Value(name) => Ok(arg.long(row.name).value_name(name)),
        Form::Needed(name) => Ok(arg.long(row.name).value_name(name).required(true)),
        Form::Choice {
            value,
            of,
            conflicts,
        } => arg
            .long(row.name)
            .value_name(value)
            .value_parser(of)
            .conflicts_with_all(conflicts),
        Form::Number {
            least,
            most,
            default,
        } => Ok(number(arg.long(row.name), least, most, default)),
    }
}

/// Returns a positional argument with several values.
fn several<'a>(arg: Arg<'a>, least: usize) -> Arg<'a> {
    arg.action(ArgAction::Append)
        .required(least > 0)
        .num_args(least..)
}

/// Returns an option without a value.
fn switch<'a>(
    arg: Arg<'a>,
    needs: &[&'a str],
    conflicts: &[&'a str],
) -> Result<Arg<'a>, AllocError> {
    arg.action(ArgAction::SetTrue)
        .requires_all(needs)?
        .conflicts_with_all(conflicts)
}

/// Returns an option with a number of this range.
fn number<'a>(arg: Arg<'a>, least: u64, most: u64, default: &'a str) -> Arg<'a> {
    arg.value_name("N")
        .value_parser(ValueParser::unsigned(least, most))
        .default_value(default)
}

/// Returns the command with the arguments of these rows, in order.
pub fn with_arguments<'a>(
    alloc: Global,
    mut command: Command<'a>,
    rows: &[Argument],
) -> Result<Command<'a>, AllocError> {
    for row in rows {
        command = command.arg(argument_of(alloc, row)?)?;
    }
    Ok(command)
}
