//! How much clashes, in one line below a long answer.

use hub_report::Totals;
use hub_source::Said;
use std::alloc::{AllocError, Global};

/// The most profiles, and the most pairs that clash, of which no totals are said: so many lines are seen at a glance (this project's
/// choice).
const FEW: usize = 20;

/// Says how many profiles and pairs there are, how many of them clash and where, and how many rounds there are. Nothing is said of few.
pub(crate) fn say_totals(out: &mut String, alloc: Global, totals: Option<Totals>) -> Said {
    match totals {
        Some(totals) if totals.profiles > FEW || totals.clashing > FEW => {
            say_all(out, alloc, &totals)
        }
        _ => Ok(()),
    }
}

fn say_all(out: &mut String, alloc: Global, totals: &Totals) -> Said {
    let profiles = grouped(alloc, totals.profiles)?;
    let pairs = grouped(alloc, pairs_of(totals.profiles))?;
    write!(out, "hubsync: {profiles} profiles, {pairs} pairs: ")?;
    say_clashing(out, alloc, totals)?;
    if totals.breaking > 0 {
        let breaking = grouped(alloc, totals.breaking)?;
        write!(out, "; {breaking} may break a rule")?;
    }
    say_rounds(out, alloc, totals.rounds)?;
    out.push('\n')
}

/// Says how many pairs clash, and in how many places that was found.
fn say_clashing(out: &mut String, alloc: Global, totals: &Totals) -> Said {
    match totals.clashing {
        0 => out.push_str("none clash")?,
        1 => out.push_str("1 clashes")?,
        clashing => {
            let clashing = grouped(alloc, clashing)?;
            write!(out, "{clashing} clash")?;
        }
    }
    match totals.places {
        0 => Ok(()),
        1 => out.push_str(", in 1 place"),
        places => {
            let places = grouped(alloc, places)?;
            write!(out, ", in {places} places")
        }
    }
}

/// Says how many rounds there are, if the answer has any.
fn say_rounds(out: &mut String, alloc: Global, rounds: Option<usize>) -> Said {
    match rounds {
        None => Ok(()),
        Some(1) => out.push_str("; 1 round"),
        Some(rounds) => {
            let rounds = grouped(alloc, rounds)?;
            write!(out, "; {rounds} rounds")
        }
    }
}

/// How many pairs there are of so many.
fn pairs_of(count: usize) -> usize {
    // one of the two factors is even
    if count % 2 == 0 {
        (count / 2).saturating_mul(count.saturating_sub(1))
    } else {
        (count / 2).saturating_mul(count)
    }
}

/// A number with a comma between each three digits, as 1,770.
fn grouped(alloc: Global, number: usize) -> Result<String, AllocError> {
    let digits = format!(in alloc; "{number}")?;
    let mut text = String::new(alloc);
    for (at, digit) in digits.as_str().chars().enumerate() {
        if at > 0 && (digits.len() - at) % 3 == 0 {
            text.push(',')?;
        }
        text.push(digit)?;
    }
    Ok(text)
}
