//! The words on the command line: what they ask for.
//!
//! `specs/Words.antt` defines the command in `clap`'s terms, and with that what each list of words asks for.

ghost use Rattle.std.specs.Prelude.{◌≡◌, ◌⊎◌, IfErr, IfOk, None, Some, codes, map, option_map};
ghost use Rattle.std.specs.List.{list_all};
ghost use Rattle.clap.specs.Words.{all_of, app_of, found_of, kind_of, one_of, rows_of, subcommand_rows_of};
ghost use Rattle.clap.specs.declared.error.kind.ErrorKind.TheVariants.{OutOfMemory};
ghost use Rattle.hub_cli.specs.Words as words;
ghost use Rattle.hub_cli.specs.Words.{AgreeOnStrict, AgreeOnUnison, asked_of, files_of, hubsync_app, names_in};
ghost use Rattle.hub_cli.specs.Words.{reading_for, reading_of, request_in, request_of};

use crate::app::command;
use clap::error::ErrorKind;
use clap::{ArgMatches, Command, Error};
use std::alloc::{AllocError, Global};
use std::convert::AsStr;

/// How many workers run the jobs if the words don't say.
pub const DEFAULT_WORKERS: u8 = 2;

/// The same, as it would stand on the command line.
pub(crate) const DEFAULT_WORKERS_TEXT: &str = "2";

/// How the lines of profiles are read.
#[derive(Clone, Copy, Debug, PartialEq, Eq)]
pub enum Reading {
    /// As hubsync's definitions say, by which it runs jobs.
    Plain,
    /// So that all counts that Unison may reach or write by them.
    Unison,
}

/// What the words may ask about the set of a bundle's profiles and rules. What a run leaves and what certificates show is by the
/// plain reading.
#[derive(Clone, Copy, Debug, PartialEq, Eq)]
pub enum Question {
    /// Whether the set is safe; and if it is and the bundle has a state, what its jobs do and leave.
    CheckWithState,
    /// What the jobs of the set do and leave on the bundle's state, if it is safe: with that many workers.
    Run(u8),
    /// What they do and leave if the rounds of the set run one after another: with that many workers.
    RunByRounds(u8),
    /// What they do and leave, whether the set is safe or not, as if they ran one after another in the order of the profiles: with
    /// that many workers.
    RunInOrder(u8),
    /// Whether the set is safe.
    Check(Reading),
    /// Certificates for its goals.
    Certify,
    /// Whether the bundle's certificates show that the set is safe.
    Verify,
    /// Every overlap and every breach.
    Clashes(Reading),
    /// The same, drawn as a graph.
    Graph(Reading),
    /// Rounds of profiles that may run at the same time.
    Rounds(Reading),
}

impl Question {
    /// How the profiles are to be read.
    pub fn reading(self) -> Reading
        ensures { result ≡ reading_of self }
    {
        match self {
            Question::Check(reading)
            | Question::Clashes(reading)
            | Question::Graph(reading)
            | Question::Rounds(reading) => reading,
            Question::CheckWithState
            | Question::Run(_)
            | Question::RunByRounds(_)
            | Question::RunInOrder(_)
            | Question::Certify
            | Question::Verify => Reading::Plain,
        }
    }
}

/// What the words on the command line ask for.
#[derive(Clone, Copy, Debug, PartialEq, Eq)]
pub enum Query<'a> {
    /// Something about the set of the profiles and rules.
    About(Question),
    /// Whether a profile reaches a path.
    Reach {
        /// How the profile is to be read.
        reading: Reading,
        /// The profile's name, as it was written.
        profile: &'a str,
        /// The path, as it was written. It may not be a path.
        path: &'a str,
    },
    /// A bundle of the profiles' readings for Unison, and of the rules.
    Import,
    /// A plan: which profiles Unison may run at the same time.
    Plan,
    /// Rounds of the profiles that can be read for Unison. The others run alone.
    RoundsAlone,
    /// Lines that make the set safe.
    Mend {
        /// How the profiles are to be read.
        reading: Reading,
        /// Whether the bundle is to be written, with the lines in place.
        as_bundle: bool,
    },
}

impl<'a> Query<'a> {
    /// How the profiles are to be read.
    pub fn reading(&self) -> Reading
        ensures { result ≡ reading_for (request_of self.now) }
    {
        match *self {
            Query::About(question) => question.reading(),
            Query::Reach { reading, .. } | Query::Mend { reading, .. } => reading,
            Query::Import | Query::Plan | Query::RoundsAlone => Reading::Unison,
        }
    }
}

/// Reads the words, of which the first is the program's name.
///
/// `check`, `certify`, `verify`, `clashes` and `rounds` ask about the set. Without a command the words ask for the check, and
/// for a run of the jobs if the bundle has a state. With `--dot`, `clashes` asks for a graph. `mend` asks for lines that make
/// the set safe, and with `--bundle` for the bundle with these lines. With `--unison` and `--alone`, `rounds` asks for rounds of the
/// profiles that can be read.
/// `run` asks for a run, with `--rounds` for one by rounds, and with `--in-order` for one of any set in its order. It can't have both.
/// `--workers N` gives the number of workers, from 0 to 255, and without it there are [`DEFAULT_WORKERS`].
///
/// Each of these commands may name files and have `--strict` (`read_options`). If it names files, one at least is that of a profile.
///
/// `reach PROFILE PATH` takes any two operands, also the empty word and `-`. An operand that begins with `-` and is longer
/// needs `--` before it.
///
/// By `--unison` the profiles are read for Unison. `check`, `clashes`, `mend`, `rounds` and `reach` may have it. `import` and `plan`
/// always read them so: `import` asks for a bundle of their readings, and `plan` for a plan of Unison's runs.
///
/// An `Err` is `clap`'s: a mistake in the words, a request for help or for the version, or out of memory. Its `Display` is
/// the text for the user.
pub fn read_words<'a, S: AsStr>(alloc: Global, words: &'a [S]) -> Result<Query<'a>, Error>
    ensures ok { IfOk result (λ a. asked_of (map S.text words.entry.now) ≡ Some (request_of a)) }
    ensures err { IfErr result (λ e. (kind_of e ≡ OutOfMemory)
        ⊎ (asked_of (map S.text words.entry.now) ≡ None)) }
{
    let (asked, _) = read_matches(alloc, words)?;
    Ok(asked)
}

/// Reads the words by the program's command: what they ask for, and what is found of operands and options.
pub(crate) fn read_matches<'a, S: AsStr>(
    alloc: Global,
    words: &'a [S],
) -> Result<(Query<'a>, ArgMatches<'a>), Error>
    ensures asked { IfOk result (λ r. asked_of (map S.text words.entry.now)
        ≡ Some (request_of r.0)) }
    ensures files { IfOk result (λ r. files_of (map S.text words.entry.now)
        ≡ names_in (subcommand_rows_of r.1)) }
    ensures strict { IfOk result (λ r. AgreeOnStrict (map S.text words.entry.now)
        (subcommand_rows_of r.1)) }
    ensures unison { IfOk result (λ r. AgreeOnUnison (map S.text words.entry.now)
        (subcommand_rows_of r.1)) }
    ensures err { IfErr result (λ e. (kind_of e ≡ OutOfMemory)
        ⊎ (asked_of (map S.text words.entry.now) ≡ None)) }
{
    let mut hubsync = command(alloc)?;
    let matches = match parse(&mut hubsync, words) {
        Ok(matches) => matches,
        Err(error) => return Err(explained(alloc, &mut hubsync, words, error)?),
    };
    match asked_in(&matches) {
        Some(asked) => Ok((asked, matches)),
        None => Err(refusal(alloc, &mut hubsync, &matches)?),
    }
}

/// Lets `clap` read the words by the program's command.
fn parse<'a, S: AsStr>(hubsync: &mut Command<'a>, words: &'a [S]) -> Result<ArgMatches<'a>, Error>
    requires { app_of hubsync.old ≡ hubsync_app }
    ensures asked { IfOk result (λ m. asked_of (map S.text words.entry.now)
        ≡ request_in (subcommand_rows_of m)) }
    ensures files { IfOk result (λ m. files_of (map S.text words.entry.now)
        ≡ names_in (subcommand_rows_of m)) }
    ensures strict { IfOk result (λ m. AgreeOnStrict (map S.text words.entry.now)
        (subcommand_rows_of m)) }
    ensures unison { IfOk result (λ m. AgreeOnUnison (map S.text words.entry.now)
        (subcommand_rows_of m)) }
    ensures err { IfErr result (λ e. (kind_of e ≡ OutOfMemory)
        ⊎ (asked_of (map S.text words.entry.now) ≡ None)) }
{
    let matches = hubsync.try_get_matches_from_mut(words)?;
    Ok(matches)
}

/// The error for words that `clap` doesn't take. Where `--unison` is behind a command that can't have it, it says why.
fn explained<'a, S: AsStr>(
    alloc: Global,
    hubsync: &mut Command<'a>,
    words: &[S],
    error: Error,
) -> Result<Error, AllocError>
    ensures { IfOk result (λ e. kind_of error ≡ OutOfMemory → e ≡ error) }
{
    if error.kind() != ErrorKind::UnknownArgument || !is_plain_for_unison(words) {
        return Ok(error);
    }
    hubsync.error(
        ErrorKind::UnknownArgument,
        "'--unison' is for 'check', 'clashes', 'mend', 'rounds' and 'reach': what a run leaves and what\n\
            certificates show is by hubsync's own reading of the profiles",
    )
}

/// Returns whether the first word is a command that can't have `--unison`, or is an option, and `--unison` is there.
fn is_plain_for_unison<S: AsStr>(words: &[S]) -> bool {
    let is_plain = match words {
        [_, first, ..] => is_plain_command(first.as_str()),
        _ => false,
    };
    is_plain && words.iter().any(|word| word.as_str() == "--unison")
}

/// Returns whether a word is a command that can't have `--unison`, or is an option.
fn is_plain_command(word: &str) -> bool {
    word == "run" || word == "certify" || word == "verify" || word.as_bytes().starts_with(b"-")
}

/// The error for words that `clap` takes and that ask for nothing: an operand that isn't the file of a profile, an option that is for
/// Unison, a run that is to be made in two ways, or else an operand that is missing, as that of a profile beside other files.
fn refusal<'a>(
    alloc: Global,
    hubsync: &mut Command<'a>,
    matches: &ArgMatches<'a>,
) -> Result<Error, AllocError> {
    match stray_operand(matches) {
        Some(word) => {
            let message = format!(in alloc; "unexpected argument '{word}' found")?;
            hubsync.error(ErrorKind::UnknownArgument, message.as_str())
        }
        None if has_stray_hosts(matches) => hubsync.error(
            ErrorKind::MissingRequiredArgument,
            "'--hosts' is for '--unison'",
        ),
        None if has_stray_alone(matches) => hubsync.error(
            ErrorKind::MissingRequiredArgument,
            "'--alone' is for '--unison'",
        ),
        None if is_run_in_two_ways(matches) => hubsync.error(
            ErrorKind::ArgumentConflict,
            "the argument '--rounds' cannot be used with '--in-order'",
        ),
        None => hubsync.error(
            ErrorKind::MissingRequiredArgument,
            "no profile is named: give their files too, as in\n\n  hubsync check docs.prf --rules rules",
        ),
    }
}

/// The first operand of a command about the set that isn't the file of a profile.
fn stray_operand<'a>(matches: &ArgMatches<'a>) -> Option<&'a str> {
    let (_, found) = matches.subcommand()?;
    for file in found.get_raw("files")? {
        if !is_profile_file(*file) {
            return Some(*file);
        }
    }
    None
}

/// Returns whether a command has a table of hosts and isn't for Unison.
fn has_stray_hosts(matches: &ArgMatches<'_>) -> bool {
    match matches.subcommand() {
        Some((name, found)) => is_given(found, "hosts") && !is_for_unison(name, found),
        None => false,
    }
}

/// Returns whether rounds of profiles that can be read are asked for, and not for Unison.
fn has_stray_alone(matches: &ArgMatches<'_>) -> bool {
    match matches.subcommand() {
        Some((name, found)) => name == "rounds"
            && is_set(found, "alone")
            && !is_set(found, "unison"),
        None => false,
    }
}

/// Returns whether a run is to be made by rounds and in order.
fn is_run_in_two_ways(matches: &ArgMatches<'_>) -> bool {
    match matches.subcommand() {
        Some((name, found)) => name == "run"
            && is_set(found, "rounds")
            && is_set(found, "in-order"),
        None => false,
    }
}

/// What was asked for, by the matches. A `None` is an unknown command, one without its operands, one with an operand that
/// isn't the file of a profile, one with files but none of a profile, a run in two ways, or `--alone` without `--unison`.
fn asked_in<'a>(matches: &ArgMatches<'a>) -> Option<Query<'a>>
    ensures { option_map request_of result ≡ request_in (subcommand_rows_of matches.now) }
{
    let Some((name, operands)) = matches.subcommand() else {
        return Some(Query::About(Question::CheckWithState));
    };
    if name != "reach" {
        return about_files(name, operands);
    }
    let reading = reading_in(operands);
    let profile = operands.get_str("profile")?;
    let path = operands.get_str("path")?;
    Some(Query::Reach {
        reading,
        profile,
        path,
    })
}

/// What a command about the set asks for, if all of its operands are files of profiles, and there is one if it has files.
fn about_files<'a>(name: &str, found: &ArgMatches<'_>) -> Option<Query<'a>>
    ensures { option_map request_of result
        ≡ words.about_files name.now (rows_of (found_of found.now)) }
{
    if are_operands(name, found) && !lacks_profiles(found) {
        about(name, found)
    } else {
        None
    }
}

/// Returns whether files are named, and none of them is that of a profile.
fn lacks_profiles(found: &ArgMatches<'_>) -> bool
    ensures { result ≡ words.lacks_profiles (rows_of (found_of found.now)) }
{
    !has_operands(found) && has_file_option(found)
}

/// Returns whether there is an operand.
fn has_operands(found: &ArgMatches<'_>) -> bool
    ensures { result ≡ words.has_operands (all_of (codes "files") (rows_of (found_of found.now))) }
{
    match found.get_raw("files") {
        Some(files) => !files.is_empty(),
        None => false,
    }
}

/// Returns whether an option names a file.
fn has_file_option(found: &ArgMatches<'_>) -> bool
    ensures { result ≡ words.has_file_option (rows_of (found_of found.now)) }
{
    is_given(found, "rules")
        || is_given(found, "state")
        || is_given(found, "certificates")
        || is_given(found, "hosts")
}

/// Returns whether an option with a value is on the command line.
fn is_given(found: &ArgMatches<'_>, name: &str) -> bool
    ensures { result ≡ words.is_given name.now (rows_of (found_of found.now)) }
{
    found.get_str(name).is_some()
}

/// Returns whether each operand may be one: for Unison a folder too, else the file of a profile, and then without a table of hosts.
fn are_operands(name: &str, found: &ArgMatches<'_>) -> bool
    ensures { result ≡ words.are_operands name.now (rows_of (found_of found.now)) }
{
    is_for_unison(name, found) || (are_profile_files(found) && !is_given(found, "hosts"))
}

/// Returns whether the command of that name reads the profiles for Unison.
pub(crate) fn is_for_unison(name: &str, found: &ArgMatches<'_>) -> bool
    ensures { result ≡ words.is_for_unison name.now (rows_of (found_of found.now)) }
{
    is_set(found, "unison") || name == "import" || name == "plan"
}

/// Returns whether all operands are files of profiles.
fn are_profile_files(found: &ArgMatches<'_>) -> bool
    ensures { result
        ≡ words.are_profile_files (all_of (codes "files") (rows_of (found_of found.now))) }
{
    match found.get_raw("files") {
        Some(files) => are_all_profile_files(files),
        None => true,
    }
}

/// Returns whether these words are files of profiles.
fn are_all_profile_files(files: &[&str]) -> bool
    ensures { result ≡ list_all (λ file. words.is_profile_file file.now) files.now }
{
    files.iter().all(|file| is_profile_file(*file))
}

/// Returns whether a word is the file of a profile.
fn is_profile_file(file: &str) -> bool
    ensures { result ≡ words.is_profile_file file.now }
{
    file.as_bytes().ends_with(b".prf")
}

/// What a command that takes files asks for, by its name and what was found of its options.
fn about<'a>(name: &str, found: &ArgMatches<'_>) -> Option<Query<'a>>
    ensures { option_map request_of result
        ≡ words.about_named name.now (rows_of (found_of found.now)) }
{
    if name == "check" {
        return Some(Query::About(Question::Check(reading_in(found))));
    }
    if name == "certify" {
        return Some(Query::About(Question::Certify));
    }
    if name == "verify" {
        return Some(Query::About(Question::Verify));
    }
    if name == "clashes" {
        return Some(clashes(is_set(found, "dot"), reading_in(found)));
    }
    if name == "mend" {
        return Some(mend(found));
    }
    if name == "rounds" {
        return rounds(is_set(found, "alone"), reading_in(found));
    }
    if name == "import" {
        return Some(Query::Import);
    }
    if name == "plan" {
        return Some(Query::Plan);
    }
    if name == "run" {
        return run_by(found);
    }
    None
}

/// All that clashes, drawn as a graph or not.
fn clashes<'a>(as_graph: bool, reading: Reading) -> Query<'a>
    ensures { request_of result ≡ words.clashes_request as_graph reading }
{
    if as_graph {
        Query::About(Question::Graph(reading))
    } else {
        Query::About(Question::Clashes(reading))
    }
}

/// Rounds of all profiles, or only for Unison those of the profiles that can be read.
fn rounds<'a>(alone: bool, reading: Reading) -> Option<Query<'a>>
    ensures { option_map request_of result ≡ words.rounds_request alone reading }
{
    match (alone, reading) {
        (false, _) => Some(Query::About(Question::Rounds(reading))),
        (true, Reading::Unison) => Some(Query::RoundsAlone),
        (true, Reading::Plain) => None,
    }
}

/// Lines that make the set safe, or the bundle with them in place.
fn mend<'a>(found: &ArgMatches<'_>) -> Query<'a>
    ensures { request_of result ≡ words.mend_request (rows_of (found_of found.now)) }
{
    Query::Mend {
        reading: reading_in(found),
        as_bundle: is_set(found, "bundle"),
    }
}

/// How a command wants the profiles to be read.
fn reading_in(found: &ArgMatches<'_>) -> Reading
    ensures { result ≡ words.reading_in (rows_of (found_of found.now)) }
{
    if is_set(found, "unison") {
        Reading::Unison
    } else {
        Reading::Plain
    }
}

/// A run by as many workers as the option says.
fn run_by<'a>(found: &ArgMatches<'_>) -> Option<Query<'a>>
    ensures { option_map request_of result ≡ words.run_by (rows_of (found_of found.now)) }
{
    let workers = workers_in(found)?;
    let question = run_with(is_set(found, "rounds"), is_set(found, "in-order"), workers)?;
    Some(Query::About(question))
}

/// A run by that many workers, by rounds, in order or neither. It can't be both.
fn run_with(by_rounds: bool, in_order: bool, workers: u8) -> Option<Question>
    ensures { option_map words.about result ≡ words.run_with by_rounds in_order (Some workers) }
{
    match (by_rounds, in_order) {
        (true, true) => None,
        (true, false) => Some(Question::RunByRounds(workers)),
        (false, true) => Some(Question::RunInOrder(workers)),
        (false, false) => Some(Question::Run(workers)),
    }
}

/// The number of workers.
fn workers_in(found: &ArgMatches<'_>) -> Option<u8>
    ensures { result
        ≡ words.workers_in (one_of (codes "workers") (rows_of (found_of found.now))) }
{
    found.get_one("workers")
}

/// Returns whether a flag is on the command line.
pub(crate) fn is_set(found: &ArgMatches<'_>, name: &str) -> bool
    ensures { result ≡ words.is_set name.now (rows_of (found_of found.now)) }
{
    match found.get_str(name) {
        Some(text) => text == "true",
        None => false,
    }
}
