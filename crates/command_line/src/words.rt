// From the words of the command line to a command.

use crate::command::{Command, MEGABYTE, Pages};
use crate::commands::{COMMANDS, Choice, Takes, Words};
use crate::texts::STATUSES_AND_RUNS;
use clap::builder::ValueParser;
use clap::error::ErrorKind;
use clap::{Arg, ArgAction, ArgMatches, Command as Parser, Error};
use explanations::{NAMES, explain};
use std::alloc::{AllocError, Global};
use std::convert::AsStr;

/// The option with a number of such a form.
fn number<'a>(option: Arg<'a>, name: &'a str, form: ValueParser<'a>, default: &'a str) -> Arg<'a> {
    option
        .long(name)
        .value_name("N")
        .value_parser(form)
        .default_value(default)
}

/// A word or an option.
fn arg_of<'a>(alloc: Global, choice: &Choice) -> Arg<'a> {
    let arg = Arg::new(alloc, choice.name).help(choice.help);
    match choice.takes {
        Takes::Path(name) => arg.required(true).value_name(name),
        Takes::OptionalPath(name) => arg.long(choice.name).value_name(name),
        Takes::Several(name) => arg.required(true).value_name(name).num_args(1..),
        Takes::Number(form, default) => number(arg, choice.name, form, default),
        Takes::OptionalNumber(form) => arg.long(choice.name).value_name("N").value_parser(form),
        Takes::Nothing => arg.long(choice.name).action(ArgAction::SetTrue),
    }
}

/// A parser with what help says of it, and below it.
fn described<'a>(alloc: Global, name: &'a str, about: &'a str, below: &'a str) -> Parser<'a> {
    Parser::new(alloc, name).about(about).after_help(below)
}

/// The parser of a command's words.
fn parser_of<'a>(alloc: Global, words: &Words) -> Result<Parser<'a>, AllocError> {
    let mut parser = described(alloc, words.name, words.about, words.below);
    for choice in words.choices {
        parser = parser.arg(arg_of(alloc, choice))?;
    }
    Ok(parser)
}

/// The parsers of the commands.
fn parsers<'a>(alloc: Global) -> Result<Vec<Parser<'a>>, AllocError> {
    let mut parsers = Vec::new(alloc);
    for words in COMMANDS.iter() {
        parsers.push(parser_of(alloc, words)?)?;
    }
    Ok(parsers)
}

/// The parser of the program's words, without its commands.
fn program<'a>(alloc: Global) -> Result<Parser<'a>, AllocError> {
    let about = "Checks, compiles and runs a source in a safe C with regions";
    described(alloc, "cycc", about, STATUSES_AND_RUNS)
        .subcommand_required(true)
        .bin_name("cycc")
}

/// The commands and their words.
fn parser<'a>(alloc: Global) -> Result<Parser<'a>, AllocError> {
    let commands = parsers(alloc)?;
    program(alloc)?.subcommands(commands)
}

/// The pages of words that have them, by the name of the option.
fn pages_of(matches: &ArgMatches<'_>, name: &str) -> Option<Pages> {
    Pages::new(matches.get_one(name)?)
}

/// What `compile` is given.
fn compile<'a>(input: &'a str, matches: &ArgMatches<'a>) -> Option<Command<'a>> {
    let output = matches.get_str("output")?;
    Some(Command::Compile {
        input,
        output,
        map: matches.get_str("map"),
        pages: pages_of(matches, "pages")?,
        stack_pages: pages_of(matches, "stack-pages")?,
        shows_why: matches.get_flag("why"),
    })
}

/// As many bytes as a number of megabytes has, where it is given.
fn bytes_of(megabytes: Option<u64>) -> Option<u64> {
    match megabytes {
        Some(number) => Some(number.saturating_mul(MEGABYTE)),
        None => None,
    }
}

/// What a command is given whose run has a limit of steps.
fn bounded<'a>(name: &str, input: &'a str, matches: &ArgMatches<'a>) -> Option<Command<'a>> {
    let steps = matches.get_one("steps")?;
    let shows_ending = matches.get_flag("ending");
    let shows_why = matches.get_flag("why");
    match name {
        "run" => Some(Command::Run {
            input,
            pages: pages_of(matches, "pages")?,
            stack_pages: pages_of(matches, "stack-pages")?,
            steps,
            shows_ending,
            shows_why,
            shows_where: matches.get_flag("where"),
            shows_values: matches.get_flag("values"),
            shows_stats: matches.get_flag("stats"),
            shows_counts: matches.get_flag("counts"),
        }),
        "eval" => Some(Command::Eval {
            input,
            fuel: steps,
            depth: matches.get_one("depth"),
            memory: bytes_of(matches.get_one("memory")),
            shows_ending,
            shows_why,
            shows_where: matches.get_flag("where"),
        }),
        "exec" => Some(Command::Exec {
            input,
            steps,
            shows_ending,
            shows_where: matches.get_flag("where"),
            shows_stats: matches.get_flag("stats"),
            shows_counts: matches.get_flag("counts"),
        }),
        _ => None,
    }
}

/// The command of words that the parser has taken, which has checked their ranges and put in what is left out.
fn read<'a>(name: &str, matches: &ArgMatches<'a>) -> Option<Command<'a>> {
    let input = matches.get_str("file")?;
    match name {
        "check" => Some(Command::Check {
            input,
            shows_why: matches.get_flag("why"),
            shows_all: matches.get_flag("all"),
        }),
        "stack" => Some(Command::Stack {
            input,
            shows_why: matches.get_flag("why"),
            shows_all: matches.get_flag("all"),
        }),
        "dump" => Some(Command::Dump { input }),
        "compile" => compile(input, matches),
        _ => bounded(name, input, matches),
    }
}

/// The command that the parser has found.
fn found<'a>(matches: &ArgMatches<'a>) -> Option<Command<'a>> {
    let (name, words) = matches.subcommand()?;
    read(name, words)
}

/// The words behind `explain`, with a space between them; none of another command.
fn asked_name(alloc: Global, matches: &ArgMatches<'_>) -> Result<Option<String>, AllocError> {
    let Some((_, words)) = matches.subcommand() else {
        return Ok(None);
    };
    let Some(words) = words.get_strs("name") else {
        return Ok(None);
    };
    let mut name = String::new(alloc);
    for word in words {
        if !name.is_empty() {
            name.push(' ')?;
        }
        name.push_str(word)?;
    }
    Ok(Some(name))
}

/// The command that explains a name, before which `status` or `raised` may stand. An Err has the list of all names.
fn explaining<'a>(
    alloc: Global,
    parser: &mut Parser<'a>,
    name: &str,
) -> Result<Command<'a>, Error> {
    let number = name.strip_prefix("status ").unwrap_or(name);
    if let Some(explanation) = explain(number.strip_prefix("raised ").unwrap_or(number)) {
        return Ok(Command::Explain {
            text: explanation.text,
        });
    }
    let message = format!(in alloc; "nothing is known of '{name}'\n\n{NAMES}")?;
    Err(parser.error(ErrorKind::InvalidValue, message.as_str())?)
}

/// The command of the words, by this parser.
fn parsed<'a, S: AsStr>(
    alloc: Global,
    parser: &mut Parser<'a>,
    words: &'a [S],
) -> Result<Command<'a>, Error> {
    let matches = parser.try_get_matches_from_mut(words)?;
    if let Some(name) = asked_name(alloc, &matches)? {
        return explaining(alloc, parser, name.as_str());
    }
    match found(&matches) {
        Some(command) => Ok(command),
        None => Err(parser.error(ErrorKind::MissingSubcommand, "no such command")?),
    }
}

/// The command of the words, of which the first is the program's name. An Err has the text to be shown: help where it
/// was asked for, else what is wrong with the words, or that no memory is left.
pub fn command_of<'a, S: AsStr>(alloc: Global, words: &'a [S]) -> Result<Command<'a>, Error> {
    let mut parser = parser(alloc)?;
    parsed(alloc, &mut parser, words)
}
