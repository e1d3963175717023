//! A program's commands as a table, and what clap makes of it.
ghost use Rattle.std.specs.Prelude.{◌≡◌, true, false, Some, length, map, option_map, IfOk};
ghost use Rattle.std.specs.Option.{option_map_or};
ghost use Rattle.clap.specs.Walk.{is_empty};
ghost use Rattle.clap.specs.declared.builder.command.Command.TheViews.{out-Command};
ghost use Rattle.clap.specs.Words.{app_of, rule_of, is_simple_and_free, fault_of, HasMatchesOf, FailsBy};
ghost use Rattle.g1_command.specs.Table.{least_values, most_values, action_by, is_needed, is_place, rule_by, command_by, program_by, command_called};

use clap::{Arg, ArgAction, ArgMatches, Command, Error};
use std::alloc::{AllocError, Global};
use std::ops::RangeInclusive;

/// A program: its name, its version, what its help says before and after its commands, and these.
#[derive(Clone, Copy)]
pub struct Program<'p> {
    pub name: &'static str,
    pub version: &'static str,
    pub about: &'static str,
    pub after_help: &'static str,
    pub commands: &'p [Usage],
}

/// A command: its name, what its help says before and after its arguments, and these.
#[derive(Clone, Copy)]
pub struct Usage {
    pub name: &'static str,
    pub about: &'static str,
    pub after_help: &'static str,
    pub arguments: &'static [Argument],
}

/// An argument of a command. Most are written as `FLAG`, `VALUE` or `FILE` with a few fields of their own.
#[derive(Clone, Copy)]
pub struct Argument {
    /// Its name for clap. An option is given by it.
    pub id: &'static str,
    pub form: Form,
    /// The letter that an option may be given by, too.
    pub letter: Option<char>,
    /// The value that it means not to give it, if that means one.
    pub default: &'static [&'static str],
    /// What help and messages call its values, one after the other.
    pub values: &'static [&'static str],
    pub help: &'static str,
    /// The range that messages say, if its values are whole numbers.
    pub range: &'static str,
    /// The arguments beside which it cannot be given.
    pub conflicts: &'static [&'static str],
}

/// How an argument is given.
#[derive(Clone, Copy)]
pub enum Form {
    /// By its name alone.
    Flag,
    /// By its name and its values, or not at all.
    Value,
    /// By its name and a value.
    NeededValue,
    /// By its name and one value or more, or not at all.
    ManyValues,
    /// By its name and its values, any number of times.
    Repeated,
    /// By its place; or not at all, if that means a value.
    Place,
    /// By its place, any number of times.
    ManyPlaces,
}

/// An option without a value.
pub const FLAG: Argument = Argument {
    id: "",
    form: Form::Flag,
    letter: None,
    default: &[],
    values: &[],
    help: "",
    range: "",
    conflicts: &[],
};

/// An option with a value, which is a number unless it is called otherwise.
pub const VALUE: Argument = Argument {
    form: Form::Value,
    values: &["N"],
    ..FLAG
};

/// A file that has to be given.
pub const FILE: Argument = Argument {
    form: Form::Place,
    values: &["FILE"],
    ..FLAG
};

impl Argument {
    /// The argument as messages show it.
    pub fn shown(&self, alloc: Global) -> Result<String, AllocError> {
        let argument = arg_of(alloc, self)?;
        format!(in alloc; "{argument}")
    }
}

fn arg_of<'a>(alloc: Global, argument: &Argument) -> Result<Arg<'a>, AllocError>
    ensures { IfOk result (λ a. (rule_of a ≡ rule_by argument.now) × (a.global ≡ false)) }
{
    let (counts, action, is_needed) = rules(argument);
    let arg = Arg::new(alloc, argument.id)
        .help(argument.help)
        .value_names(argument.values)
        .num_args(counts)
        .action(action)
        .required(is_needed)
        .default_values(argument.default)
        .conflicts_with_all(argument.conflicts)?;
    Ok(with_names(arg, argument))
}

// The argument with the names that it is given by, if it is not given by its place.
fn with_names<'a>(arg: Arg<'a>, argument: &Argument) -> Arg<'a>
    ensures place { is_place argument.now.form ≡ true → result ≡ arg.entry }
    ensures named { is_place argument.now.form ≡ false → result ≡ record arg.entry { long = Some argument.now.id; short = option_map_or (λ x. Some x) argument.now.letter arg.entry.short } }
{
    if is_place(argument.form) {
        return arg;
    }
    let arg = arg.long(argument.id);
    match argument.letter {
        Some(letter) => arg.short(letter),
        None => arg,
    }
}

fn is_place(form: Form) -> bool
    ensures { result ≡ is_place form }
{
    match form {
        Form::Place | Form::ManyPlaces => true,
        Form::Flag | Form::Value | Form::NeededValue | Form::ManyValues | Form::Repeated => false,
    }
}

// How many values it takes, what is done with them, and whether it has to be given.
fn rules(argument: &Argument) -> (RangeInclusive<usize>, ArgAction, bool)
    ensures least { result.0.start ≡ least_values argument.now.form (length argument.now.values.now) }
    ensures most { result.0.end ≡ most_values argument.now.form (length argument.now.values.now) }
    ensures action { result.1 ≡ action_by argument.now.form }
    ensures needed { result.2 ≡ is_needed argument.now.form (is_empty argument.now.default.now) }
{
    let count = argument.values.len();
    match argument.form {
        Form::Flag => (count..=count, ArgAction::SetTrue, false),
        Form::Value => (count..=count, ArgAction::Set, false),
        Form::NeededValue => (count..=count, ArgAction::Set, true),
        Form::ManyValues => (1..=usize::MAX, ArgAction::Append, false),
        Form::Repeated => (count..=count, ArgAction::Append, false),
        Form::Place => (count..=count, ArgAction::Set, argument.default.is_empty()),
        Form::ManyPlaces => (0..=usize::MAX, ArgAction::Append, false),
    }
}

/// clap's command of a command of the table, under this name.
pub fn build_command<'a>(
    alloc: Global,
    name: &'a str,
    usage: &Usage,
) -> Result<Command<'a>, AllocError>
    ensures { IfOk result (λ c. (app_of c ≡ command_by name.entry.now usage.now) × ((out-Command c).has_globals ≡ false)) }
{
    let mut command = Command::new(alloc, name)
        .about(usage.about)
        .after_help(usage.after_help);
    for argument in usage.arguments {
        command = command.arg(arg_of(alloc, argument)?)?;
    }
    Ok(command)
}

fn build_program<'a>(alloc: Global, program: &Program<'_>) -> Result<Command<'a>, AllocError>
    ensures { IfOk result (λ c. app_of c ≡ program_by program.now) }
{
    let mut command = Command::new(alloc, program.name)
        .no_binary_name(true)
        .version(program.version)
        .about(program.about)
        .after_help(program.after_help)
        .subcommand_required(true)
        .bin_name(program.name)?;
    for usage in program.commands {
        command = command.subcommand(build_command(alloc, usage.name, usage)?)?;
    }
    Ok(command)
}

/// What clap finds in the words after the program's name.
pub fn match_words<'a>(
    alloc: Global,
    program: &Program<'_>,
    words: &'a [String],
) -> Result<ArgMatches<'a>, Error>
    ensures matches { IfOk result (HasMatchesOf (program_by program.now) (map (λ w. w.bytes.items) words.entry.now)) }
    ensures kinds { is_simple_and_free (program_by program.now) ≡ true → FailsBy (fault_of (program_by program.now) (map (λ w. w.bytes.items) words.entry.now)) result }
{
    build_program(alloc, program)?.try_get_matches_from(words)
}

/// The program's command of this name.
pub fn command_named<'p>(program: &Program<'p>, name: &str) -> Option<&'p Usage>
    ensures { option_map (λ u. u.now) result ≡ command_called name.now program.now }
{
    program.commands.iter().find(|usage| usage.name == name)
}
