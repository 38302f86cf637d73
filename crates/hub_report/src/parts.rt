//! Texts, one after another.
ghost use Rattle.std.specs.Prelude.{◌≡◌, IfOk, OnOk, string_bytes};
ghost use Rattle.std.specs.List.{flat_map};
ghost use Rattle.hub_report.specs.Texts.{Gains};

use std::alloc::{AllocError, Global};

/// These texts, one after another.
pub fn joined(alloc: Global, parts: &[&str]) -> Result<String, AllocError>
    ensures { IfOk result (λ t. string_bytes t ≡ flat_map (λ p. p.now) parts.now) }
{
    let mut text = String::new(alloc);
    push_all(&mut text, parts)?;
    Ok(text)
}

/// Adds these texts to a text, one after another.
pub fn push_all(text: &mut String, parts: &[&str]) -> Result<(), AllocError>
    ensures { OnOk result (Gains text.old text.new (flat_map (λ p. p.now) parts.now)) }
{
    for part in parts {
        text.push_str(part)?;
    }
    Ok(())
}
