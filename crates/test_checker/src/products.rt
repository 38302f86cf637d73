//! How the product of a goal goes through a text: it is broken after it, it accepts, or it goes on.
ghost use Rattle.std.specs.Prelude.{ℕ, ◌<◌, IfOk, IsTrue};
ghost use Rattle.hub_automaton.specs.Alphabet.{class_count};
ghost use Rattle.hub_cert.specs.Goals.{is_goal};
ghost use Rattle.hub_cert.specs.Product.{HasClass};
ghost use Rattle.hub_cert.specs.Set.{alphabet_of};

use crate::faults::boxed;
use crate::goals::goal_of;
use crate::sets::set_of;
use crate::words::text_of;
use anyhow::{Result, bail};
use hub_automaton::Alphabet;
use hub_cert::{Goal, GoalStage, Product, ProfileSet};
use std::alloc::{AllocError, Global};
use test_kit::{first, shown};

/// Where the product of a goal is after a text.
pub(crate) fn walk_answer(alloc: Global, fields: &str) -> Result<String> {
    let (goal, fields) = first(fields)?;
    let (text, fields) = first(fields)?;
    let goal = goal_of(goal)?;
    let set = set_of(alloc, fields)?;
    place_text(alloc, &set, goal, text_of(text))
}

fn place_text(alloc: Global, set: &ProfileSet, goal: Goal, text: &str) -> Result<String> {
    if !set.has(goal) {
        bail!("no goal of the set");
    }
    shown(alloc, &walk(alloc, set, goal, text)?)
}

fn walk(alloc: Global, set: &ProfileSet, goal: Goal, text: &str) -> Result<&'static str>
    requires { IsTrue (is_goal set.now goal) }
{
    let product = product_of(alloc, set, goal)?;
    Ok(place_after(&product, set.alphabet(), text)?)
}

/// The product of a goal. It is boxed, since it is large.
fn product_of(alloc: Global, set: &ProfileSet, goal: Goal) -> Result<Box<Product>>
    requires { IsTrue (is_goal set.now goal) }
    ensures { IfOk result (λ p. (k : ℕ) → k < class_count (alphabet_of set.now)
        → HasClass p.value.automata k) }
{
    boxed(alloc, Product::new(alloc, set, goal))
}

fn place_after(
    product: &Product,
    alphabet: &Alphabet,
    text: &str,
) -> Result<&'static str, AllocError>
    requires { (k : ℕ) → k < class_count alphabet.now → HasClass product.now.automata k }
{
    let mut stage = start_of(product)?;
    go_along(product, alphabet, text, &mut stage)?;
    Ok(place_of(product, &stage))
}

/// A copy of the stage of the empty text.
fn start_of(product: &Product) -> Result<GoalStage, AllocError> {
    product.start()?.copy()
}

/// Takes a stage along a text. The characters that the alphabet has no class for are left out.
fn go_along(
    product: &Product,
    alphabet: &Alphabet,
    text: &str,
    stage: &mut GoalStage,
) -> Result<(), AllocError>
    requires { (k : ℕ) → k < class_count alphabet.now → HasClass product.now.automata k }
{
    for character in text.chars() {
        if let Some(class) = alphabet.class_of(character) {
            *stage = product.advance(stage, class)?;
        }
    }
    Ok(())
}

fn place_of(product: &Product, stage: &GoalStage) -> &'static str {
    match (is_broken(stage), product.accepts(stage)) {
        (false, false) => "goes on",
        (false, true) => "accepts",
        (true, false) => "broken",
        (true, true) => "broken, and accepts",
    }
}

fn is_broken(stage: &GoalStage) -> bool {
    match stage {
        GoalStage::Broken => true,
        GoalStage::Clash { .. } | GoalStage::Breach { .. } => false,
    }
}
