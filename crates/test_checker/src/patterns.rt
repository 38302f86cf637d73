//! Questions about path specifications and their pieces.
use crate::paths::path_of;
use anyhow::{Result, bail, ensure};
use hub_glob::{NextCharacter, PathSpec, Piece};
use hub_path::RelPath;
use std::alloc::{AllocError, Global};
use test_kit::{answer_or_fault, only_character, quoted, shown, yes_or_no};

/// Answers a question about the text of a specification:
///
/// - `fault`: why it is none, or `none`.
///
/// Or about the specification:
///
/// - `kind`, `parts`: its kind, and the number of its pattern's parts.
/// - `text`: the text that it is written as.
/// - `matches`: whether it matches the path of the second field. `matches-front`: whether it matches so many of the
///   path's first names.
/// - `choices`: its choices, in which a piece is a letter, `*` for a star, and `?` for any other one.
/// - `takes`: whether each piece of each choice takes the character of the second field. It stands at the place of the
///   third field: `first` or `later`.
pub(crate) fn answer(alloc: Global, question: &str, texts: &[String]) -> Result<String> {
    match (question, texts) {
        ("fault", [text]) => fault_or_none(alloc, text.as_str()),
        (_, [text, others @ ..]) => {
            let spec = PathSpec::read(alloc, text.as_str())?;
            answer_on_pattern(alloc, question, &spec, others)
        }
        _ => bail!("a field is missing"),
    }
}

/// Answers a question about a specification.
fn answer_on_pattern(
    alloc: Global,
    question: &str,
    spec: &PathSpec,
    others: &[String],
) -> Result<String> {
    match others {
        [] => answer_on_spec(alloc, question, spec),
        [path] => matches(alloc, question, spec, path.as_str()),
        [first, second] => answer_on_two(alloc, question, spec, first.as_str(), second.as_str()),
        _ => bail!("a field too many"),
    }
}

fn answer_on_spec(alloc: Global, question: &str, spec: &PathSpec) -> Result<String> {
    match question {
        "kind" => Ok(format!(in alloc; "{:?}", spec.kind())?),
        "parts" => shown(alloc, &spec.pattern().len()),
        "text" => quoted(alloc, spec.text()?.as_str()),
        "choices" => choices(alloc, spec),
        _ => bail!("an unknown question"),
    }
}

fn matches(alloc: Global, question: &str, spec: &PathSpec, path: &str) -> Result<String> {
    ensure!(question == "matches", "an unknown question");
    yes_or_no(alloc, spec.matches(&path_of(alloc, path)?))
}

fn answer_on_two(
    alloc: Global,
    question: &str,
    spec: &PathSpec,
    first: &str,
    second: &str,
) -> Result<String> {
    match question {
        "matches-front" => {
            matches_front(
                alloc,
                spec,
                &path_of(alloc, first)?,
                second.parse::<usize>()?,
            )
        }
        "takes" => takes(alloc, spec, next_of(first, second)?),
        _ => bail!("an unknown question"),
    }
}

fn fault_or_none(alloc: Global, text: &str) -> Result<String> {
    answer_or_fault(
        alloc,
        &PathSpec::read(alloc, text),
        |_| shown(alloc, &"none"),
    )
}

fn matches_front(alloc: Global, spec: &PathSpec, path: &RelPath, count: usize) -> Result<String> {
    ensure!(count <= path.len(), "the path has fewer names");
    yes_or_no(alloc, spec.matches_front(path, count))
}

fn choices(alloc: Global, spec: &PathSpec) -> Result<String> {
    let mut choices = Vec::new(alloc);
    for choice in spec.choices()?.as_slice() {
        choices.push(pieces_shown(alloc, choice.as_slice())?)?;
    }
    Ok(format!(in alloc; "{choices:?}")?)
}

fn pieces_shown(alloc: Global, pieces: &[Piece]) -> Result<String, AllocError> {
    let mut text = String::new(alloc);
    for piece in pieces {
        text.push(letter_of(piece))?;
    }
    Ok(text)
}

fn letter_of(piece: &Piece) -> char {
    match piece {
        Piece::Lit(letter) => *letter,
        _ if piece.is_star() => '*',
        _ => '?',
    }
}

/// A character at a place.
fn next_of(character: &str, place: &str) -> Result<NextCharacter> {
    Ok(NextCharacter {
        character: only_character(character)?,
        first: place == "first",
    })
}

fn takes(alloc: Global, spec: &PathSpec, next: NextCharacter) -> Result<String> {
    let mut taken = Vec::new(alloc);
    for choice in spec.choices()?.as_slice() {
        push_taken(&mut taken, choice.as_slice(), next)?;
    }
    Ok(format!(in alloc; "{taken:?}")?)
}

/// Appends whether each of the pieces takes a character.
fn push_taken(
    taken: &mut Vec<bool>,
    pieces: &[Piece],
    next: NextCharacter,
) -> Result<(), AllocError> {
    for piece in pieces {
        taken.push(piece.takes(next))?;
    }
    Ok(())
}
