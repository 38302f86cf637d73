//! Patterns that match a dot at the start of a name, where Unison's don't.
//!
//! To hubsync `?`, a set and what follows a `*` take such a dot. In Unison it is taken only by a dot that the pattern has there.

use crate::missing::Missing;
use crate::sign::{Choices, Pattern, Sign, names_of};
use hub_glob::Kind;
use std::alloc::{AllocError, Global};

/// How many forms of a choice are made at most.
const FORMS: usize = 64;

/// How many missing forms are named at most.
const NAMED: usize = 8;

/// The pattern that matches with a dot what a line's pattern does, if none of the others covers that.
pub(crate) fn missing_dots(
    alloc: Global,
    own: &Choices,
    others: &[&Choices],
) -> Result<Option<Missing>, AllocError> {
    let mut missing = Vec::new(alloc);
    for signs in own.signs()?.as_slice() {
        push_missing(alloc, &mut missing, own.kind, signs.as_slice(), others)?;
    }
    if missing.is_empty() {
        return Ok(None);
    }
    Ok(Some(Missing::of_patterns(alloc, own.kind, missing.as_slice())?))
}

/// Adds the dotted forms of a choice that none of the others covers.
fn push_missing<'p>(
    alloc: Global,
    missing: &mut Vec<Vec<Sign<'p>>>,
    kind: Kind,
    signs: &[Sign<'p>],
    others: &[&Choices],
) -> Result<(), AllocError> {
    let forms = forms_of(alloc, signs)?;
    for form in forms.into_iter().skip(1) {
        let pattern = Pattern {
            kind,
            signs: form.as_slice(),
        };
        if missing.len() < NAMED && !is_covered(others, &pattern)? {
            missing.push(form)?;
        }
    }
    Ok(())
}

/// Returns whether one of these patterns covers another one.
pub(crate) fn is_covered(
    others: &[&Choices],
    pattern: &Pattern<'_, '_>,
) -> Result<bool, AllocError> {
    for other in others {
        if other.covers(pattern)? {
            return Ok(true);
        }
    }
    Ok(false)
}

/// The forms of a pattern: itself, and the others in which names that may begin with a dot do.
fn forms_of<'p>(alloc: Global, signs: &[Sign<'p>]) -> Result<Vec<Vec<Sign<'p>>>, AllocError> {
    let names = names_of(alloc, signs)?;
    let mut forms = Vec::new(alloc);
    forms.push(Vec::new(alloc))?;
    for (i, name) in names.iter().enumerate() {
        let dotted = dotted(alloc, *name)?;
        forms = with_name(alloc, forms.as_slice(), i > 0, *name, dotted.as_slice())?;
    }
    Ok(forms)
}

/// Each form with a name behind it, and with its dotted form, if that isn't empty.
fn with_name<'p>(
    alloc: Global,
    fronts: &[Vec<Sign<'p>>],
    is_below: bool,
    name: &[Sign<'p>],
    dotted: &[Sign<'p>],
) -> Result<Vec<Vec<Sign<'p>>>, AllocError> {
    let mut forms = Vec::new(alloc);
    let has_room = fronts.len() < FORMS;
    for front in fronts {
        forms.push(joined(alloc, front.as_slice(), is_below, name)?)?;
        if has_room && !dotted.is_empty() {
            forms.push(joined(alloc, front.as_slice(), is_below, dotted)?)?;
        }
    }
    Ok(forms)
}

/// A form with a name behind it.
fn joined<'p>(
    alloc: Global,
    front: &[Sign<'p>],
    is_below: bool,
    name: &[Sign<'p>],
) -> Result<Vec<Sign<'p>>, AllocError> {
    let mut form = Vec::new(alloc);
    push_all(&mut form, front)?;
    if is_below {
        form.push(Sign::Letter('/'))?;
    }
    push_all(&mut form, name)?;
    Ok(form)
}

/// Adds some signs.
fn push_all<'p>(form: &mut Vec<Sign<'p>>, signs: &[Sign<'p>]) -> Result<(), AllocError> {
    for sign in signs {
        form.push(*sign)?;
    }
    Ok(())
}

/// A name with a dot in the place of the first sign that takes one at the name's start. It is empty if there is none, or only the
/// name `.` would be taken.
fn dotted<'p>(alloc: Global, name: &[Sign<'p>]) -> Result<Vec<Sign<'p>>, AllocError> {
    let runs = name.iter().take_while(|sign| sign.is_run()).count();
    let mut form = Vec::new(alloc);
    let Some((first, rest)) = name.get(runs..).unwrap_or(&name[..0]).split_first() else {
        return Ok(form);
    };
    if rest.is_empty() || !takes_dot(first, runs > 0) {
        return Ok(form);
    }
    form.push(Sign::Letter('.'))?;
    if rest.iter().all(|sign| sign.is_run()) {
        form.push(Sign::One)?;
    }
    push_all(&mut form, rest)?;
    Ok(form)
}

/// Returns whether a sign takes a dot, and is no dot with nothing before it.
fn takes_dot(sign: &Sign<'_>, is_behind_run: bool) -> bool {
    match sign {
        Sign::Letter(letter) => is_behind_run && *letter == '.',
        Sign::One => true,
        Sign::Set(set) => set.contains(&'.'),
        Sign::Run => false,
    }
}
