//! Remarks on words on the command line that ask for nothing.

use hub_source::{Said, nearest, say};
use std::alloc::Global;

/// The commands that answer over a bundle or over files.
const COMMANDS: &[&str] = &[
    "check", "certify", "verify", "clashes", "mend", "rounds", "run",
];

/// Options that are followed by a value.
const WITH_VALUE: [&str; 5] = [
    "--rules",
    "--state",
    "--certificates",
    "--workers",
    "--hosts",
];

/// Says how the input is given, if the words seem to name a file or a folder.
pub(crate) fn say_words(out: &mut String, alloc: Global, words: &[String]) -> Said {
    if words
        .iter()
        .any(|word| word.as_str().starts_with("--workers"))
    {
        return say(out, "--workers is a number from 1 to 16");
    }
    let Some(first) = words.get(1) else {
        return Ok(());
    };
    match first.as_str() {
        "version" => say(out, "hubsync --version shows the version"),
        "import" | "plan" | "reach" | "help" => Ok(()),
        word if COMMANDS.contains(&word) => say_stray(out, words, word),
        word => say_no_command(out, alloc, word),
    }
}

/// Says what to do about the first operand of a command that isn't the file of a profile.
fn say_stray(out: &mut String, words: &[String], command: &str) -> Said {
    let has_profile = words.iter().any(|word| word.as_str().ends_with(".prf"));
    let mut is_value = false;
    for word in words.iter().skip(2) {
        let word = word.as_str();
        if !is_value && is_stray(word) {
            return say_operand(out, command, word, has_profile);
        }
        is_value = WITH_VALUE.contains(&word);
    }
    Ok(())
}

/// Returns whether a word is neither an option nor the file of a profile.
fn is_stray(word: &str) -> bool {
    !word.starts_with('-') && !word.ends_with(".prf")
}

/// Says what to do about a word in the place of a command.
fn say_no_command(out: &mut String, alloc: Global, word: &str) -> Said {
    if word.starts_with('-') {
        return Ok(());
    }
    if let Some(near) = nearest(alloc, word, COMMANDS)? {
        return writeln!(out, "hubsync: did you mean {near}?");
    }
    if word.ends_with(".prf") {
        let file = typed(word);
        return writeln!(
            out,
            "hubsync: a command stands before the files, as in: hubsync check {file}"
        );
    }
    say_operand(out, "check", word, false)
}

/// Says how a file or a folder is given whose name has this form.
fn say_operand(out: &mut String, command: &str, word: &str, has_profile: bool) -> Said {
    let file = typed(word);
    if has_profile {
        return writeln!(
            out,
            "hubsync: an operand ends with .prf: a file of rules comes with --rules {file}"
        );
    }
    if is_like_folder(word) {
        return say_folder(out, file);
    }
    if !last_name(word).contains('.') {
        writeln!(
            out,
            "hubsync: an operand ends with .prf, as in: hubsync {command} {file}.prf"
        )?;
        say_folder(out, file)?;
    }
    writeln!(
        out,
        "hubsync: the bundle comes on standard input, as in: hubsync {command} < {file}"
    )
}

/// Says how the profiles in a folder are asked about.
fn say_folder(out: &mut String, folder: &str) -> Said {
    writeln!(
        out,
        "hubsync: the profiles in a folder, as in: hubsync check --unison {folder}"
    )
}

/// Returns whether a word has the form of a folder's path: it ends with `/`, or its last name begins with a dot.
fn is_like_folder(word: &str) -> bool {
    word.ends_with('/') || last_name(word).starts_with('.')
}

/// What follows the last `/`.
fn last_name(word: &str) -> &str {
    match word.rsplit_once('/') {
        Some((_, name)) => name,
        None => word,
    }
}

/// The word as it is typed in a shell, or FILE if it had to be quoted there.
fn typed(word: &str) -> &str {
    if word.chars().all(is_plain) {
        word
    } else {
        "FILE"
    }
}

/// Returns whether a character means itself in a shell.
fn is_plain(c: char) -> bool {
    c.is_ascii_alphanumeric() || matches!(c, '.' | '/' | '_' | '-' | '+' | ',' | ':' | '@' | '%')
}
