//! The files that the words on the command line name, and whether they have `--strict`.

ghost use Rattle.std.specs.Prelude.{◌≡◌, ◌⊎◌, [], IfErr, IfOk, None, codes, is_some, map, option_map, true, unwrap_or};
ghost use Rattle.clap.specs.Words.{found_of, kind_of, matched_of, raw_values, rows_of, subcommand_rows_of};
ghost use Rattle.clap.specs.declared.error.kind.ErrorKind.TheVariants.{OutOfMemory};
ghost use Rattle.hub_cli.specs.Words as words;
ghost use Rattle.hub_cli.specs.Words.{are_none, asked_of, files_of, is_strict_of, is_unison_of, names_in, names_of};

use crate::words::{is_for_unison, is_set, read_matches};
use clap::{ArgMatches, Error};
use std::alloc::{AllocError, Global};
use std::convert::AsStr;

/// The files of which the input is to be made, as the words name them.
#[derive(Drop)]
pub struct Files<'a> {
    /// Those of the profiles, in the order of the words. Each ends with `.prf`; for Unison others are folders.
    pub profiles: Vec<&'a str>,
    /// That of the rules.
    pub rules: Option<&'a str>,
    /// That of the state.
    pub state: Option<&'a str>,
    /// That of the certificates.
    pub certificates: Option<&'a str>,
    /// That of the table of hosts, of which the input has nothing.
    pub hosts: Option<&'a str>,
}

impl<'a> Files<'a> {
    /// Returns whether no file is named: then the input comes on standard input.
    pub fn is_empty(&self) -> bool
        ensures { result ≡ are_none (names_of self.now) }
    {
        self.profiles.is_empty()
            && self.rules.is_none()
            && self.state.is_none()
            && self.certificates.is_none()
    }
}

/// What the words say beside what they ask for.
#[derive(Drop)]
pub struct Options<'a> {
    /// The files of which the input is to be made.
    pub files: Files<'a>,
    /// Whether a yes that may mislead counts as a no.
    pub is_strict: bool,
    /// Whether the profiles are read for Unison.
    pub is_for_unison: bool,
}

/// Reads which files the words name, of which the first is the program's name, and whether they have `--strict`.
///
/// Each command but `reach` may have operands, each of which is the file of a profile and ends with `.prf`, the options
/// `--rules FILE`, `--state FILE` and `--certificates FILE`, and `--strict`. With `--unison` an operand may be a folder, and there may be
/// `--hosts FILE`. So it is with `import`, which hasn't `--state` and `--certificates`. No other words name files or have it.
///
/// An `Err` is that of [`read_words`](crate::read_words).
pub fn read_options<'a, S: AsStr>(alloc: Global, words: &'a [S]) -> Result<Options<'a>, Error>
    ensures files { IfOk result
        (λ o. names_of o.files ≡ files_of (map S.text words.entry.now)) }
    ensures strict { IfOk result
        (λ o. o.is_strict ≡ is_strict_of (map S.text words.entry.now)) }
    ensures unison { IfOk result
        (λ o. o.is_for_unison ≡ is_unison_of (map S.text words.entry.now)) }
    ensures asked { IfOk result (λ _. is_some (asked_of (map S.text words.entry.now)) ≡ true) }
    ensures err { IfErr result (λ e. (kind_of e ≡ OutOfMemory)
        ⊎ (asked_of (map S.text words.entry.now) ≡ None)) }
{
    let (_, matches) = read_matches(alloc, words)?;
    let is_strict = is_strict_in(&matches);
    let is_for_unison = is_unison_in(&matches);
    let files = files_in(alloc, &matches)?;
    Ok(Options {
        files,
        is_strict,
        is_for_unison,
    })
}

/// Returns whether the command that was used has `--strict`, by the matches.
fn is_strict_in(matches: &ArgMatches<'_>) -> bool
    ensures { result ≡ words.is_strict_in (subcommand_rows_of matches.now) }
{
    match matches.subcommand() {
        Some((_, found)) => is_set(found, "strict"),
        None => false,
    }
}

/// Returns whether the command that was used reads the profiles for Unison, by the matches.
fn is_unison_in(matches: &ArgMatches<'_>) -> bool
    ensures { result ≡ words.is_unison_in (subcommand_rows_of matches.now) }
{
    match matches.subcommand() {
        Some((name, found)) => is_for_unison(name, found),
        None => false,
    }
}

/// The files that the command that was used names, by the matches.
fn files_in<'a>(alloc: Global, matches: &ArgMatches<'a>) -> Result<Files<'a>, AllocError>
    ensures { IfOk result (λ f. names_of f ≡ names_in (subcommand_rows_of matches.now)) }
{
    match matches.subcommand() {
        Some((_, found)) => files_found(alloc, found),
        None => Ok(Files {
            profiles: Vec::new(alloc),
            rules: None,
            state: None,
            certificates: None,
            hosts: None,
        }),
    }
}

/// The files that a command names, by what was found of its operands and options.
fn files_found<'a>(alloc: Global, found: &ArgMatches<'a>) -> Result<Files<'a>, AllocError>
    ensures { IfOk result (λ f. names_of f ≡ words.names_found (rows_of (found_of found.now))) }
{
    Ok(Files {
        profiles: operands_found(alloc, found)?,
        rules: found.get_str("rules"),
        state: found.get_str("state"),
        certificates: found.get_str("certificates"),
        hosts: found.get_str("hosts"),
    })
}

/// The operands of a command, by what was found of them.
fn operands_found<'a>(alloc: Global, found: &ArgMatches<'a>) -> Result<Vec<&'a str>, AllocError>
    ensures { IfOk result (λ v. map (λ file. file.now) v.items ≡ unwrap_or
        (option_map raw_values (matched_of (found_of found.now) (codes "files"))) []) }
{
    match found.get_raw("files") {
        Some(files) => Vec::from_slice(alloc, files),
        None => Ok(Vec::new(alloc)),
    }
}
