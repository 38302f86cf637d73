//! Patterns as signs, and whether one takes all that another one does.
ghost use Rattle.std.specs.Prelude.{◌≤◌, length};

use hub_glob::{Kind, Part, PathSpec, Piece, text_of};
use hub_path::RelPath;
use hub_text::Items;
use std::alloc::{AllocError, Global};

/// What one piece of a pattern takes.
#[derive(Clone, Copy)]
pub(crate) enum Sign<'p> {
    Letter(char),
    /// A `?`.
    One,
    /// A `*`.
    Run,
    Set(&'p [char]),
}

impl Sign<'_> {
    /// Returns whether it is the `/` between two names.
    pub(crate) fn is_slash(&self) -> bool {
        matches!(self, Sign::Letter('/'))
    }

    /// Returns whether it is a `*`.
    pub(crate) fn is_run(&self) -> bool {
        matches!(self, Sign::Run)
    }

    /// Returns whether it is a dot.
    fn is_dot(&self) -> bool {
        matches!(self, Sign::Letter('.'))
    }

    /// Returns whether it takes each character that another sign takes, of which neither is a `*`.
    fn takes(&self, other: &Sign<'_>) -> bool {
        match (self, other) {
            (Sign::Letter(own), Sign::Letter(letter)) => *own == *letter,
            (Sign::One, Sign::Letter(letter)) => *letter != '/',
            (Sign::One, Sign::One | Sign::Set(_)) => true,
            (Sign::Set(set), Sign::Letter(letter)) => set.contains(letter),
            (Sign::Set(set), Sign::Set(letters)) => {
                letters.iter().all(|letter| set.contains(letter))
            }
            _ => false,
        }
    }
}

/// A pattern without braces.
#[derive(Clone, Copy)]
pub(crate) struct Pattern<'s, 'p> {
    pub(crate) kind: Kind,
    pub(crate) signs: &'s [Sign<'p>],
}

impl<'p> Pattern<'_, 'p> {
    /// Its signs.
    pub(crate) fn copied(&self, alloc: Global) -> Result<Vec<Sign<'p>>, AllocError> {
        let mut signs = Vec::new(alloc);
        for sign in self.signs {
            signs.push(*sign)?;
        }
        Ok(signs)
    }

    /// Returns whether Unison matches with it each path that it matches with another one. (If not, it may still be so.)
    pub(crate) fn covers(&self, other: &Pattern<'_, '_>) -> bool {
        match (self.kind, other.kind) {
            (Kind::Name, Kind::Name) | (Kind::Path, Kind::Path) => {
                takes_all(self.signs, other.signs, false)
            }
            (Kind::BelowPath, Kind::Path | Kind::BelowPath) => {
                takes_all(self.signs, other.signs, true)
            }
            (Kind::Name, Kind::Path) => takes_all(self.signs, last_name(other.signs), false),
            _ => false,
        }
    }
}

/// A pattern, and its choices.
#[derive(Drop)]
pub(crate) struct Choices {
    pub(crate) kind: Kind,
    spec: PathSpec,
    choices: Items<Items<Piece>>,
}

impl Choices {
    /// The choices of the pattern that a text spells, if it spells one.
    pub(crate) fn read(alloc: Global, text: &str) -> Result<Option<Choices>, AllocError> {
        match PathSpec::read(alloc, text) {
            Ok(spec) => {
                let choices = spec.choices()?;
                Ok(Some(Choices {
                    kind: spec.kind(),
                    spec,
                    choices,
                }))
            }
            Err(_) => Ok(None),
        }
    }

    /// Returns whether the pattern matches the first names of a path, more than so many of them; the whole path counts if that is
    /// asked.
    pub(crate) fn match_folder(&self, path: &RelPath, depth: usize, is_whole: bool) -> bool {
        for before in 0..path.len() {
            let is_asked = before >= depth && (is_whole || before + 1 < path.len());
            if is_asked && self.spec.matches_front(path, before + 1) {
                return true;
            }
        }
        false
    }

    /// The signs of each choice.
    pub(crate) fn signs(&self) -> Result<Vec<Vec<Sign<'_>>>, AllocError> {
        let mut all = Vec::new(self.choices.alloc());
        for choice in self.choices.as_slice() {
            all.push(signs_of(self.choices.alloc(), choice.as_slice())?)?;
        }
        Ok(all)
    }

    /// Returns whether one of them covers a pattern.
    pub(crate) fn covers(&self, pattern: &Pattern<'_, '_>) -> Result<bool, AllocError> {
        for choice in self.choices.as_slice() {
            let signs = signs_of(self.choices.alloc(), choice.as_slice())?;
            let own = Pattern {
                kind: self.kind,
                signs: signs.as_slice(),
            };
            if own.covers(pattern) {
                return Ok(true);
            }
        }
        Ok(false)
    }
}

/// The signs of some pieces.
fn signs_of(alloc: Global, pieces: &[Piece]) -> Result<Vec<Sign<'_>>, AllocError> {
    let mut signs = Vec::new(alloc);
    for piece in pieces {
        signs.push(match piece {
            Piece::Lit(letter) => Sign::Letter(*letter),
            Piece::Any => Sign::One,
            Piece::Run => Sign::Run,
            Piece::OneOf(set) => Sign::Set(set.as_slice()),
        })?;
    }
    Ok(signs)
}

/// The signs of a path's text.
pub(crate) fn signs_of_path(alloc: Global, path: &str) -> Result<Vec<Sign<'static>>, AllocError> {
    let mut signs = Vec::new(alloc);
    for letter in path.chars() {
        signs.push(Sign::Letter(letter))?;
    }
    Ok(signs)
}

/// The names of a pattern.
pub(crate) fn names_of<'s, 'p>(
    alloc: Global,
    signs: &'s [Sign<'p>],
) -> Result<Vec<&'s [Sign<'p>]>, AllocError> {
    let mut names = Vec::new(alloc);
    let mut start = 0usize;
    for (i, sign) in signs.iter().enumerate() {
        if sign.is_slash() {
            names.push(part(signs, start, i))?;
            start = i.saturating_add(1);
        }
    }
    names.push(part(signs, start, signs.len()))?;
    Ok(names)
}

/// The first names of a pattern, so many of them. It is empty if there are fewer.
pub(crate) fn front_of<'s, 'p>(signs: &'s [Sign<'p>], names: usize) -> &'s [Sign<'p>] {
    let mut left = names;
    for (i, sign) in signs.iter().enumerate() {
        if sign.is_slash() {
            left = left.saturating_sub(1);
            if left == 0 {
                return part(signs, 0, i);
            }
        }
    }
    if left == 1 { signs } else { &signs[..0] }
}

/// The last name of a pattern.
fn last_name<'s, 'p>(signs: &'s [Sign<'p>]) -> &'s [Sign<'p>] {
    let mut start = 0usize;
    for (i, sign) in signs.iter().enumerate() {
        if sign.is_slash() {
            start = i.saturating_add(1);
        }
    }
    part(signs, start, signs.len())
}

/// The signs from one place up to another one.
fn part<'s, 'p>(signs: &'s [Sign<'p>], start: usize, end: usize) -> &'s [Sign<'p>] {
    signs.get(start..end).unwrap_or(&signs[..0])
}

/// Where two patterns are compared.
#[derive(Clone, Copy)]
struct Place {
    wide: usize,
    form: usize,
}

impl Place {
    /// The place behind a sign of both.
    fn behind(self) -> Place {
        Place {
            wide: self.wide.saturating_add(1),
            form: self.form.saturating_add(1),
        }
    }

    /// The place behind a sign of the first.
    fn behind_wide(self) -> Place {
        Place {
            wide: self.wide.saturating_add(1),
            form: self.form,
        }
    }

    /// The place behind a sign of the second.
    fn behind_form(self) -> Place {
        Place {
            wide: self.wide,
            form: self.form.saturating_add(1),
        }
    }
}

/// Returns whether a pattern takes all texts that another one, the form, takes: also those below it, if that is asked. A dot that
/// begins a name of the form is taken by a dot alone.
fn takes_all(wide: &[Sign<'_>], form: &[Sign<'_>], is_below: bool) -> bool {
    let steps = wide
        .len()
        .saturating_add(1)
        .saturating_mul(form.len().saturating_add(1));
    let mut place = Place { wide: 0, form: 0 };
    let mut back = None;
    for _ in 0..steps {
        if is_end(wide, form, place, is_below) {
            return true;
        }
        match next_place(wide, form, place, &mut back) {
            Some(next) => place = next,
            None => return false,
        }
    }
    is_end(wide, form, place, is_below)
}

/// Returns whether the pattern ends here, and the form too, or a name of it.
fn is_end(wide: &[Sign<'_>], form: &[Sign<'_>], place: Place, is_below: bool) -> bool {
    place.wide == wide.len()
        && match form.get(place.form) {
            Some(sign) => is_below && sign.is_slash(),
            None => true,
        }
}

/// The place at which the comparison goes on. The other one is where it goes back to: behind the last `*`.
fn next_place(
    wide: &[Sign<'_>],
    form: &[Sign<'_>],
    place: Place,
    back: &mut Option<Place>,
) -> Option<Place> {
    let own = wide.get(place.wide);
    let taken = form.get(place.form);
    if begins_with_dot(form, place.form) && !own.is_some_and(|sign| sign.is_dot()) {
        return None;
    }
    if own.is_some_and(|sign| sign.is_run()) {
        *back = Some(place.behind_wide());
        return *back;
    }
    if let (Some(own), Some(taken)) = (own, taken) {
        if own.takes(taken) {
            return Some(place.behind());
        }
    }
    let last = (*back)?;
    if form.get(last.form).is_none_or(|sign| sign.is_slash()) {
        return None;
    }
    *back = Some(last.behind_form());
    *back
}

/// Returns whether a name begins with a dot here.
fn begins_with_dot(form: &[Sign<'_>], at: usize) -> bool {
    let is_first = match at.checked_sub(1) {
        Some(before) => form.get(before).is_some_and(|sign| sign.is_slash()),
        None => true,
    };
    is_first && form.get(at).is_some_and(|sign| sign.is_dot())
}

/// The value of a line for these patterns: in braces, if there are several. There is none if it can't be read, as it is too long.
pub(crate) fn value_of(
    alloc: Global,
    kind: Kind,
    patterns: &[Vec<Sign<'_>>],
) -> Result<Option<String>, AllocError> {
    let mut choices = Items::new(alloc);
    for signs in patterns {
        choices.push(pieces_of(alloc, signs.as_slice())?)?;
    }
    let text = text_of(alloc, kind, parts_of(alloc, choices)?.as_slice())?;
    match PathSpec::read(alloc, text.as_str()) {
        Ok(_) => Ok(Some(text)),
        Err(_) => Ok(None),
    }
}

/// The parts of a pattern that has these choices.
fn parts_of(alloc: Global, choices: Items<Items<Piece>>) -> Result<Vec<Part>, AllocError> {
    let mut parts = Vec::new(alloc);
    let mut choices = choices.into_vec();
    match choices.pop() {
        Some(only) if choices.is_empty() => {
            for piece in only.into_vec() {
                parts.push(Part::One(piece))?;
            }
        }
        Some(last) => {
            choices.push(last)?;
            parts.push(Part::Brace(Items::from_vec(choices)))?;
        }
        None => {}
    }
    Ok(parts)
}

/// The pieces of a pattern. A blank at its start or end would be dropped, so it is a set.
fn pieces_of(alloc: Global, signs: &[Sign<'_>]) -> Result<Items<Piece>, AllocError> {
    let mut pieces = Items::new(alloc);
    for (i, sign) in signs.iter().enumerate() {
        let is_outer = i == 0 || i.saturating_add(1) == signs.len();
        pieces.push(piece_of(alloc, *sign, is_outer)?)?;
    }
    Ok(pieces)
}

/// The piece of a sign, which is the first or the last one of a pattern or isn't.
fn piece_of(alloc: Global, sign: Sign<'_>, is_outer: bool) -> Result<Piece, AllocError> {
    match sign {
        Sign::Letter(letter) if is_outer && (letter == ' ' || letter == '\t') => {
            Ok(Piece::OneOf(set_of(alloc, &[letter])?))
        }
        Sign::Letter(letter) => Ok(Piece::Lit(letter)),
        Sign::One => Ok(Piece::Any),
        Sign::Run => Ok(Piece::Run),
        Sign::Set(set) => Ok(Piece::OneOf(set_of(alloc, set)?)),
    }
}

/// The set of these characters.
fn set_of(alloc: Global, letters: &[char]) -> Result<Items<char>, AllocError> {
    let mut set = Items::new(alloc);
    for letter in letters {
        set.push(*letter)?;
    }
    Ok(set)
}
