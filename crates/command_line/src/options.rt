//! The command line, as it is declared to `clap`.
ghost use Rattle.std.specs.Prelude.{◌≡◌, ◌++◌, IfOk, List, [], true, false, codes, map, fold, option_map, option_to_list, None};
ghost use Rattle.clap.specs.Words.{Text, FailsBy, fault_of, HasMatchesOf};
ghost use Rattle.clap.specs.declared.parser.matches.ArgMatches.{ArgMatches};
ghost use Rattle.clap.specs.Words.{app_of, rule_of, is_simple_and_free, new_app, with_rule, with_subcommand};
ghost use Rattle.clap.specs.declared.builder.command.Command.TheViews.{out-Command as fields_of};
ghost use Rattle.command_line.specs.Options.{file_rule, option_rule};
ghost use Rattle.command_line.specs.Options.{subcommand_app, add_subcommand, plot_app, top_app, IsOf};
ghost use Rattle.command_line.specs.Tables.{add_option, bare_rule, flag_rule, row_of, value_rule};
ghost use Rattle.command_line.specs.Parses.{HasGoodMatches};

use crate::fault::BuildFault;
use crate::help::{FILE, HelpPage, TOP, VERSION};
use crate::subcommands::{Kind, SUBCOMMANDS};
use crate::table::{OptionRow, Value, default_of, help_of, options};
use clap::builder::ValueParser;
use clap::{Arg, ArgAction, ArgMatches, Command};
use std::alloc::{AllocError, Global};
use std::convert::AsStr;

// `--name VALUE`, at most once.
fn bare_option<'a>(
    alloc: Global,
    name: &'a str,
    parser: ValueParser<'a>,
    value_name: &'a str,
) -> Arg<'a>
    ensures rule { rule_of result ≡ bare_rule name.entry.now parser.entry }
    ensures local { result.global ≡ false }
{
    Arg::new(alloc, name)
        .long(name)
        .action(ArgAction::Set)
        .value_parser(parser)
        .value_name(value_name)
}

// `--name`, at most once.
fn flag_of<'a>(alloc: Global, name: &'a str) -> Arg<'a>
    ensures rule { rule_of result ≡ flag_rule name.entry.now }
    ensures local { result.global ≡ false }
{
    Arg::new(alloc, name).long(name).action(ArgAction::SetTrue)
}

// An option that takes this value, without a default and by one name.
fn plain_option<'a>(alloc: Global, name: &'a str, value: Value, value_name: &'a str) -> Arg<'a>
    ensures rule { rule_of result ≡ value_rule name.entry.now value }
    ensures local { result.global ≡ false }
{
    match value {
        Value::Word => bare_option(alloc, name, ValueParser::string(), value_name),
        Value::Number(low, high) => {
            let parser = ValueParser::signed(i64::from(low), i64::from(high));
            bare_option(alloc, name, parser, value_name)
        }
        Value::Flag => flag_of(alloc, name),
    }
}

// The argument with this default, if there is one.
fn with_default<'a>(arg: Arg<'a>, default: Option<&'a str>) -> Arg<'a>
    requires { (rule_of arg).defaults ≡ [] }
    ensures rule { rule_of result ≡ record (rule_of arg.entry) { defaults = option_to_list (option_map (λ text. text.now) default.entry) } }
    ensures local { result.global ≡ arg.entry.global }
{
    match default {
        Some(text) => arg.default_value(text),
        None => arg,
    }
}

// The argument with this short name, if there is one.
fn with_short<'a>(arg: Arg<'a>, short: Option<char>) -> Arg<'a>
    requires { (rule_of arg).short ≡ None }
    ensures rule { rule_of result ≡ record (rule_of arg.entry) { short = short } }
    ensures local { result.global ≡ arg.entry.global }
{
    match short {
        Some(letter) => arg.short(letter),
        None => arg,
    }
}

// The argument with these long names too.
fn with_aliases<'a>(arg: Arg<'a>, aliases: &[&'a str]) -> Result<Arg<'a>, AllocError>
    ensures rule { IfOk result (λ it. rule_of it
        ≡ record (rule_of arg.entry) { aliases = (rule_of arg.entry).aliases ++ map (λ name. name.now) aliases.now }) }
    ensures local { IfOk result (λ it. it.global ≡ arg.entry.global) }
{
    arg.aliases(aliases)
}

// An option of a subcommand.
fn option_of<'a>(alloc: Global, kind: Kind, row: &OptionRow<'a>) -> Result<Arg<'a>, AllocError>
    ensures rule { IfOk result (λ arg. rule_of arg ≡ option_rule kind (row_of row.now)) }
    ensures local { IfOk result (λ arg. arg.global ≡ false) }
{
    let arg = plain_option(alloc, row.name, row.value, row.value_name);
    let arg = with_default(arg, default_of(kind, row.defaults));
    let arg = with_short(arg, row.short).help(help_of(kind, row.help));
    with_aliases(arg, row.aliases)
}

// `FILE`, any number of times.
fn file_of<'a>(alloc: Global) -> Arg<'a>
    ensures rule { rule_of result ≡ file_rule }
    ensures local { result.global ≡ false }
{
    Arg::new(alloc, "FILE").action(ArgAction::Append).help(FILE)
}

fn bare<'a>(alloc: Global, name: &'a str, page: HelpPage<'a>) -> Command<'a>
    ensures { IsOf (new_app name.entry.now) result }
{
    Command::new(alloc, name)
        .about(page.about)
        .after_help(page.example)
}

fn add<'a>(command: Command<'a>, arg: Arg<'a>) -> Result<Command<'a>, AllocError>
    requires local { arg.global ≡ false }
    requires plain { (fields_of command).has_globals ≡ false }
    ensures { IfOk result (IsOf (with_rule (app_of command.entry) (rule_of arg.entry))) }
{
    command.arg(arg)
}

// Adds an option, if the subcommand has it.
fn add_option<'a>(
    alloc: Global,
    command: Command<'a>,
    kind: Kind,
    row: &OptionRow<'a>,
) -> Result<Command<'a>, AllocError>
    requires { (fields_of command).has_globals ≡ false }
    ensures { IfOk result (IsOf (add_option kind (app_of command.entry) (row_of row.now))) }
{
    if row.group.has(kind) {
        return add(command, option_of(alloc, kind, row)?);
    }
    Ok(command)
}

// Adds those of these options that the subcommand has.
fn add_options<'a>(
    alloc: Global,
    mut command: Command<'a>,
    kind: Kind,
    rows: &[OptionRow<'a>],
) -> Result<Command<'a>, AllocError>
    requires { (fields_of command).has_globals ≡ false }
    ensures { IfOk result (IsOf
        (fold (λ app row. add_option kind app (row_of row)) (app_of command.entry) rows.now)) }
{
    for row in rows {
        command = add_option(alloc, command, kind, row)?;
    }
    Ok(command)
}

fn command_of<'a>(
    alloc: Global,
    name: &'a str,
    kind: Kind,
    page: HelpPage<'a>,
) -> Result<Command<'a>, AllocError>
    ensures { IfOk result (IsOf (subcommand_app (name.entry.now, kind))) }
{
    let command = add_options(alloc, bare(alloc, name, page), kind, options())?;
    add(command, file_of(alloc))
}

fn top_command<'a>(alloc: Global) -> Command<'a>
    ensures { IsOf top_app result }
{
    bare(alloc, "plotraster", TOP)
        .version(VERSION)
        .subcommand_required(true)
        .disable_help_subcommand(true)
}

fn add_command<'a>(command: Command<'a>, below: Command<'a>) -> Result<Command<'a>, AllocError>
    requires plain { (fields_of command).has_globals ≡ false }
    requires below_plain { (fields_of below).has_globals ≡ false }
    ensures { IfOk result (IsOf (with_subcommand (app_of command.entry) (app_of below.entry).top)) }
{
    command.subcommand(below)
}

// Adds the subcommands of a table: the name, what it does, and what help says, as in `SUBCOMMANDS`.
fn add_commands<'a>(
    alloc: Global,
    mut command: Command<'a>,
    rows: &[(&'a str, Kind, &'a str, &'a str)],
) -> Result<Command<'a>, AllocError>
    requires { (fields_of command).has_globals ≡ false }
    ensures { IfOk result (IsOf
        (fold (λ app row. add_subcommand app (row.0.now, row.1)) (app_of command.entry) rows.now)) }
{
    for &(name, kind, about, example) in rows {
        let page = HelpPage { about, example };
        command = add_command(command, command_of(alloc, name, kind, page)?)?;
    }
    Ok(command)
}

fn whole_command<'a>(alloc: Global) -> Result<Command<'a>, AllocError>
    ensures { IfOk result (IsOf plot_app) }
{
    add_commands(alloc, top_command(alloc), &SUBCOMMANDS)
}

/// The command line of `plotraster`, with its subcommands and their options. It fails only for want
/// of memory.
pub fn command<'a>(alloc: Global) -> Result<Command<'a>, BuildFault>
    ensures app { IfOk result (λ c. app_of c ≡ plot_app) }
    ensures simple { IfOk result (λ c. is_simple_and_free (app_of c) ≡ true) }
    // Where a parse succeeds, `clap` says that there is no fault and that the matches are those of
    // the words. Then each number is in its range, and what was left out has its default.
    ensures parses { IfOk result (λ c. (words : List Text) (m : ArgMatches) → fault_of (app_of c) words ≡ []
        → HasMatchesOf (app_of c) words m → HasGoodMatches (app_of c) words m) }
{
    whole_command(alloc).map_err(|_| BuildFault::Memory)
}

/// The matches of the words, of which the first is the program's name and the others are its
/// arguments. Fails on invalid arguments, on a call for help or the version, and if memory runs out.
pub fn parse<'a, S: AsStr>(
    command: Command<'a>,
    words: &'a [S],
) -> Result<ArgMatches<'a>, clap::Error>
    requires app { app_of command ≡ plot_app }
    ensures faults { FailsBy (fault_of plot_app (map S.text words.entry.now)) result }
    ensures matches { IfOk result (HasGoodMatches plot_app (map S.text words.entry.now)) }
{
    command.try_get_matches_from(words)
}
