//! The command line in `clap`'s terms, with its texts of help.
//!
//! A `Command` is large, so it is passed on in a `Box`.

ghost use Rattle.std.specs.Prelude.{◌≡◌, IfOk, Ok, false};
ghost use Rattle.clap.specs.Words.{app_of, new_app, rule_of, with_rule};
ghost use Rattle.clap.specs.declared.builder.command.Command.TheViews.{out-Command as fields_of};
ghost use Rattle.hub_cli.specs.Words as words;
ghost use Rattle.hub_cli.specs.Words.{about_app, checker_app, clashes_app, hubsync_app, mend_app, reach_app, reading_app};
ghost use Rattle.hub_cli.specs.Words.{IsCommand, rounds_app, run_app, set_app, top_app, unison_app, with_app};

use crate::help::{
    CERTIFY, CHECK, CLASHES, HUBSYNC, Help, IMPORT, LONG, MEND, PLAN, REACH, ROUNDS, RUN, VERIFY,
};
use crate::words::DEFAULT_WORKERS_TEXT;
use clap::{Arg, ArgAction, Command, value_parser};
use std::alloc::{AllocError, Global};

/// The version that `--version` shows.
const VERSION: &str = "1.0.0";

/// Boxes a command, if it was made.
fn boxed<'a>(
    alloc: Global,
    command: Result<Command<'a>, AllocError>,
) -> Result<Box<Command<'a>>, AllocError>
    ensures { IfOk result (λ c. command.entry ≡ Ok c.value) }
{
    Ok(Box::new(alloc, command?)?)
}

/// A command without operands and options, with its texts of help.
fn plain_command<'a>(
    alloc: Global,
    name: &'a str,
    help: Help,
) -> Result<Box<Command<'a>>, AllocError>
    ensures { IfOk result (λ c. IsCommand (new_app name.now) c.value) }
{
    boxed(
        alloc,
        Ok(
            Command::new(alloc, name)
                .about(help.about)
                .override_usage(help.usage)
                .after_help(help.example),
        ),
    )
}

/// A command with one more operand or option.
fn with_argument<'a>(
    alloc: Global,
    command: Box<Command<'a>>,
    arg: Arg<'a>,
) -> Result<Box<Command<'a>>, AllocError>
    requires local { (fields_of command.value).has_globals ≡ false }
    requires arg_local { arg.global ≡ false }
    ensures { IfOk result
        (λ c. IsCommand (with_rule (app_of command.entry.value) (rule_of arg.entry)) c.value) }
{
    boxed(alloc, Box::into_inner(command).arg(arg))
}

/// A command with one more command.
fn with_command<'a>(
    alloc: Global,
    top: Box<Command<'a>>,
    command: Box<Command<'a>>,
) -> Result<Box<Command<'a>>, AllocError>
    requires { (fields_of command.value).has_globals ≡ false }
    ensures { IfOk result (λ c. app_of c.value
        ≡ with_app (app_of top.entry.value) (app_of command.entry.value)) }
{
    boxed(
        alloc,
        Box::into_inner(top).subcommand(Box::into_inner(command)),
    )
}

/// The operands of a command about the set.
fn files_operand<'a>(alloc: Global) -> Arg<'a>
    ensures rule { rule_of result ≡ words.files_operand }
    ensures local { result.global ≡ false }
{
    Arg::new(alloc, "files")
        .value_name("FILE")
        .action(ArgAction::Append)
        .help("The file of a profile: docs.prf is the profile docs")
}

/// An option that names a file.
fn file_option<'a>(alloc: Global, name: &'a str, help: &'a str) -> Arg<'a>
    ensures rule { rule_of result ≡ words.file_option name.now }
    ensures local { result.global ≡ false }
{
    Arg::new(alloc, name)
        .long(name)
        .value_name("FILE")
        .help(help)
}

/// A flag.
fn flag<'a>(alloc: Global, name: &'a str, help: &'a str) -> Arg<'a>
    ensures rule { rule_of result ≡ words.flag name.now }
    ensures local { result.global ≡ false }
{
    Arg::new(alloc, name)
        .long(name)
        .action(ArgAction::SetTrue)
        .help(help)
}

/// A command with one more option that names a file.
fn with_file_option<'a>(
    alloc: Global,
    command: Box<Command<'a>>,
    name: &'a str,
    help: &'a str,
) -> Result<Box<Command<'a>>, AllocError>
    requires { (fields_of command.value).has_globals ≡ false }
    ensures { IfOk result (λ c. IsCommand
        (with_rule (app_of command.entry.value) (words.file_option name.now)) c.value) }
{
    with_argument(alloc, command, file_option(alloc, name, help))
}

/// A command about the set, which may take files.
fn set_command<'a>(alloc: Global, name: &'a str, help: Help) -> Result<Box<Command<'a>>, AllocError>
    ensures { IfOk result (λ c. IsCommand (set_app name.now) c.value) }
{
    let command = with_profiles(alloc, plain_command(alloc, name, help)?)?;
    let command = with_file_option(alloc, command, "state", "The file of the state")?;
    let certificates = "The file of the certificates";
    let command = with_file_option(alloc, command, "certificates", certificates)?;
    with_strict(alloc, command)
}

/// A command that may take profiles and rules from files.
fn with_profiles<'a>(
    alloc: Global,
    command: Box<Command<'a>>,
) -> Result<Box<Command<'a>>, AllocError>
    requires { (fields_of command.value).has_globals ≡ false }
    ensures { IfOk result
        (λ c. IsCommand (words.with_profiles (app_of command.entry.value)) c.value) }
{
    let command = with_argument(alloc, command, files_operand(alloc))?;
    with_file_option(alloc, command, "rules", "The file of the rules")
}

/// A command that may have `--strict`.
fn with_strict<'a>(alloc: Global, command: Box<Command<'a>>) -> Result<Box<Command<'a>>, AllocError>
    requires { (fields_of command.value).has_globals ≡ false }
    ensures { IfOk result
        (λ c. IsCommand (with_rule (app_of command.entry.value) words.strict_flag) c.value) }
{
    let strict = "Exit with 1 in place of 0 if a yes may mislead";
    with_argument(alloc, command, flag(alloc, "strict", strict))
}

/// The option `--workers N`.
fn workers_option<'a>(alloc: Global) -> Arg<'a>
    ensures rule { rule_of result ≡ words.workers_option }
    ensures local { result.global ≡ false }
{
    Arg::new(alloc, "workers")
        .long("workers")
        .value_name("N")
        .help("How many workers run the jobs, from 1 to 16")
        .value_parser(value_parser!(u8))
        .default_value(DEFAULT_WORKERS_TEXT)
}

/// The command `run`.
fn run_command<'a>(alloc: Global) -> Result<Box<Command<'a>>, AllocError>
    ensures { IfOk result (λ c. IsCommand run_app c.value) }
{
    let command = set_command(alloc, "run", RUN)?;
    let command = with_argument(alloc, command, workers_option(alloc))?;
    let rounds = "Run the rounds of the set one after another";
    let command = with_argument(alloc, command, flag(alloc, "rounds", rounds))?;
    let in_order = "Run the jobs of any set as if one after another, in their order";
    with_argument(alloc, command, flag(alloc, "in-order", in_order))
}

/// A command that may have `--unison`.
fn with_unison<'a>(alloc: Global, command: Box<Command<'a>>) -> Result<Box<Command<'a>>, AllocError>
    requires { (fields_of command.value).has_globals ≡ false }
    ensures { IfOk result
        (λ c. IsCommand (words.with_unison (app_of command.entry.value)) c.value) }
{
    let unison = "Answer about what Unison 2.51 to 2.53 may do by the profiles";
    with_argument(alloc, command, flag(alloc, "unison", unison))
}

/// A command that may have a table of hosts and `--verbose`.
fn with_hosts<'a>(alloc: Global, command: Box<Command<'a>>) -> Result<Box<Command<'a>>, AllocError>
    requires { (fields_of command.value).has_globals ≡ false }
    ensures { IfOk result (λ c. IsCommand (words.with_hosts (app_of command.entry.value)) c.value) }
{
    let hosts = "For Unison, the file of a table: which path stands for the / of a host";
    let command = with_file_option(alloc, command, "hosts", hosts)?;
    let verbose = "For Unison, list on standard error all lines that don't count";
    with_argument(alloc, command, flag(alloc, "verbose", verbose))
}

/// A command about the set, which may take files and have `--unison`, a table of hosts and `--verbose`.
fn reading_command<'a>(
    alloc: Global,
    name: &'a str,
    help: Help,
) -> Result<Box<Command<'a>>, AllocError>
    ensures { IfOk result (λ c. IsCommand (reading_app name.now) c.value) }
{
    let command = set_command(alloc, name, help)?;
    let command = with_unison(alloc, command)?;
    with_hosts(alloc, command)
}

/// The command `clashes`.
fn clashes_command<'a>(alloc: Global) -> Result<Box<Command<'a>>, AllocError>
    ensures { IfOk result (λ c. IsCommand clashes_app c.value) }
{
    let command = reading_command(alloc, "clashes", CLASHES)?;
    let dot = "Draw what clashes as a graph for Graphviz";
    with_argument(alloc, command, flag(alloc, "dot", dot))
}

/// The command `rounds`.
fn rounds_command<'a>(alloc: Global) -> Result<Box<Command<'a>>, AllocError>
    ensures { IfOk result (λ c. IsCommand rounds_app c.value) }
{
    let command = reading_command(alloc, "rounds", ROUNDS)?;
    let alone = "For Unison, let each profile that hubsync can't read run alone";
    with_argument(alloc, command, flag(alloc, "alone", alone))
}

/// The command `mend`.
fn mend_command<'a>(alloc: Global) -> Result<Box<Command<'a>>, AllocError>
    ensures { IfOk result (λ c. IsCommand mend_app c.value) }
{
    let command = reading_command(alloc, "mend", MEND)?;
    let bundle = "Write the bundle with the lines in place";
    with_argument(alloc, command, flag(alloc, "bundle", bundle))
}

/// A command that is always for Unison: it may take files and have `--strict`, a table of hosts and `--verbose`.
fn unison_command<'a>(
    alloc: Global,
    name: &'a str,
    help: Help,
) -> Result<Box<Command<'a>>, AllocError>
    ensures { IfOk result (λ c. IsCommand (unison_app name.now) c.value) }
{
    let command = with_profiles(alloc, plain_command(alloc, name, help)?)?;
    let command = with_strict(alloc, command)?;
    with_hosts(alloc, command)
}

/// A required operand, with its text of help.
fn operand<'a>(alloc: Global, id: &'a str, value_name: &'a str, help: &'a str) -> Arg<'a>
    ensures rule { rule_of result ≡ words.operand id.now }
    ensures local { result.global ≡ false }
{
    Arg::new(alloc, id)
        .value_name(value_name)
        .help(help)
        .required(true)
}

/// The command `reach`.
fn reach_command<'a>(alloc: Global) -> Result<Box<Command<'a>>, AllocError>
    ensures { IfOk result (λ c. IsCommand reach_app c.value) }
{
    let profile = "The name of a profile in the input";
    let path = "A path below the roots; put -- before a word that begins with -";
    let command = plain_command(alloc, "reach", REACH)?;
    let command = with_argument(
        alloc,
        command,
        operand(alloc, "profile", "PROFILE", profile),
    )?;
    let command = with_argument(alloc, command, operand(alloc, "path", "PATH", path))?;
    with_unison(alloc, command)
}

/// A command with one more command, which is about the set and may have `--unison`.
fn with_reading<'a>(
    alloc: Global,
    top: Box<Command<'a>>,
    name: &'a str,
    help: Help,
) -> Result<Box<Command<'a>>, AllocError>
    ensures { IfOk result (λ c. app_of c.value
        ≡ with_app (app_of top.entry.value) (reading_app name.now)) }
{
    with_command(alloc, top, reading_command(alloc, name, help)?)
}

/// A command with one more command, which is about the set.
fn with_set<'a>(
    alloc: Global,
    top: Box<Command<'a>>,
    name: &'a str,
    help: Help,
) -> Result<Box<Command<'a>>, AllocError>
    ensures { IfOk result (λ c. app_of c.value
        ≡ with_app (app_of top.entry.value) (set_app name.now)) }
{
    with_command(alloc, top, set_command(alloc, name, help)?)
}

/// A command with one more command, which is always for Unison.
fn with_unison_command<'a>(
    alloc: Global,
    top: Box<Command<'a>>,
    name: &'a str,
    help: Help,
) -> Result<Box<Command<'a>>, AllocError>
    ensures { IfOk result (λ c. app_of c.value
        ≡ with_app (app_of top.entry.value) (unison_app name.now)) }
{
    with_command(alloc, top, unison_command(alloc, name, help)?)
}

/// The program's command before it has commands.
fn top_command<'a>(alloc: Global) -> Result<Box<Command<'a>>, AllocError>
    ensures { IfOk result (λ c. app_of c.value ≡ top_app) }
{
    let top = plain_command(alloc, "hubsync", HUBSYNC)?;
    boxed(
        alloc,
        Ok(Box::into_inner(top).version(VERSION).after_long_help(LONG)),
    )
}

/// The program's command with the commands of the checker.
fn checker_command<'a>(alloc: Global) -> Result<Box<Command<'a>>, AllocError>
    ensures { IfOk result (λ c. app_of c.value ≡ checker_app) }
{
    let top = with_reading(alloc, top_command(alloc)?, "check", CHECK)?;
    let top = with_set(alloc, top, "certify", CERTIFY)?;
    with_set(alloc, top, "verify", VERIFY)
}

/// The program's command with all commands about the set but `run`.
fn about_command<'a>(alloc: Global) -> Result<Box<Command<'a>>, AllocError>
    ensures { IfOk result (λ c. app_of c.value ≡ about_app) }
{
    let top = checker_command(alloc)?;
    let top = with_command(alloc, top, clashes_command(alloc)?)?;
    let top = with_command(alloc, top, mend_command(alloc)?)?;
    let top = with_command(alloc, top, rounds_command(alloc)?)?;
    let top = with_unison_command(alloc, top, "plan", PLAN)?;
    with_unison_command(alloc, top, "import", IMPORT)
}

/// The program's command, with its texts of help.
pub(crate) fn command<'a>(alloc: Global) -> Result<Box<Command<'a>>, AllocError>
    ensures { IfOk result (λ c. app_of c.value ≡ hubsync_app) }
{
    let top = about_command(alloc)?;
    let top = with_command(alloc, top, reach_command(alloc)?)?;
    with_command(alloc, top, run_command(alloc)?)
}
