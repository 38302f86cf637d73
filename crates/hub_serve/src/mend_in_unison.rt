//! Lines by which profiles are safe together as Unison may run them.
ghost use Rattle.std.specs.Prelude.{◌≡◌, IfErr, IfOk, None, OnOk};
ghost use Rattle.hub_apart.specs.UnisonLines.{beside};
ghost use Rattle.hub_bundle.specs.Sections.{Spells};
ghost use Rattle.hub_cli.specs.declared.words.Reading.TheVariants.{Unison};
ghost use Rattle.hub_mend.specs.TakesAway.{AllTakeAway};
ghost use Rattle.hub_preferences.specs.Counted.{counted_bundle};
ghost use Rattle.hub_report.specs.Report.{unread_by};
ghost use Rattle.hub_serve.specs.Mended.{TakesAwayInUnison};
ghost use Rattle.hub_serve.specs.Told.{IsUnspelled};
ghost use Rattle.hub_serve.specs.forms.Mending as form;

use crate::answer::own_contents;
use crate::mend::{report_on_safe, report_on_unsafe, takes_away, unmended};
use crate::unison::report_on_unison;
use crate::unison_question::UnisonQuestion;
use hub_bundle::BundleContents;
use hub_mend::{Piece, mended_text, only_take_away};
use hub_preferences::counted;
use hub_profile::{Profile, Rules};
use hub_report::{Report, UnisonAnswer};
use hub_text::Items;
use hub_unison::read_set;
use std::alloc::{AllocError, Global};

/// The answer with these lines. The bundle with them is read again, and is decided as `check --unison` decides it: each two near
/// profiles by themselves, and each with the rules.
pub fn report_in_unison<'a>(
    alloc: Global,
    as_bundle: bool,
    bytes: &[u8],
    pieces: &[Piece],
) -> Report<'a>
    ensures holds { form.HoldsOfParts Unison as_bundle bytes.now pieces.now result }
    ensures read { unread_by result ≡ None }
{
    let Ok(text) = mended_text(alloc, pieces) else {
        return Report::OutOfMemory;
    };
    match check_less(alloc, bytes, text.as_slice()) {
        Ok(()) => {
            let said = report_on_unison(alloc, UnisonQuestion::Check, text);
            report_on_said(alloc, as_bundle, pieces, said)
        }
        Err(report) => report,
    }
}

/// Returns an answer unless the profiles of the second bundle only take away from those of the first one: as they stand, as two
/// are judged, and as one is judged with the rules.
fn check_less<'a>(alloc: Global, bytes: &[u8], with_lines: &[u8]) -> Result<(), Report<'a>>
    ensures less { OnOk result (TakesAwayInUnison bytes.now with_lines.now) }
    ensures faulty { IfErr result (form.HoldsOfMend bytes.now) }
    ensures read { IfErr result (λ r. unread_by r ≡ None) }
{
    check_less_of_one(alloc, bytes, with_lines)?;
    check_less_of_two(alloc, bytes, with_lines)
}

/// Returns an answer unless the second bundle's profiles only take away from those of the first one, as they stand and by their
/// readings beside the rules, which are the same.
fn check_less_of_one<'a>(alloc: Global, bytes: &[u8], with_lines: &[u8]) -> Result<(), Report<'a>>
    ensures less { OnOk result (form.LessOfOne bytes.now with_lines.now) }
    ensures faulty { IfErr result (form.HoldsOfMend bytes.now) }
    ensures read { IfErr result (λ r. unread_by r ≡ None) }
{
    let old = own_in(alloc, bytes)?;
    match own_in(alloc, with_lines) {
        Ok(new) => check_contents(alloc, old, new),
        Err(report) => Err(unmended(&report)),
    }
}

/// The same of what two bundles say.
fn check_contents<'a>(
    alloc: Global,
    old: BundleContents,
    new: BundleContents,
) -> Result<(), Report<'a>>
    ensures less { OnOk result (form.AreLess old new) }
    ensures unmended { IfErr result form.IsUnmended }
{
    if takes_away(&old, &new) {
        check_readings(alloc, old.profiles, new.profiles, &old.rules)
    } else {
        Err(Report::NotMended)
    }
}

/// Returns an answer unless the cautious readings of the second bundle's profiles only take away from those of the first one's.
fn check_less_of_two<'a>(alloc: Global, bytes: &[u8], with_lines: &[u8]) -> Result<(), Report<'a>>
    ensures less { OnOk result (form.LessOfTwo bytes.now with_lines.now) }
    ensures faulty { IfErr result (form.HoldsOfMend bytes.now) }
    ensures read { IfErr result (λ r. unread_by r ≡ None) }
{
    let old = own_in(alloc, bytes)?;
    let new = match own_in(alloc, with_lines) {
        Ok(new) => new,
        Err(report) => return Err(unmended(&report)),
    };
    let none = Rules::new(alloc);
    check_readings(alloc, old.profiles, new.profiles, &none)
}

/// Returns an answer unless the readings of the second profiles beside these rules only take away from those of the first ones.
fn check_readings<'a>(
    alloc: Global,
    old: Items<Profile>,
    new: Items<Profile>,
    rules: &Rules,
) -> Result<(), Report<'a>>
    ensures less { OnOk result (AllTakeAway (beside rules.now old) (beside rules.now new)) }
    ensures unmended { IfErr result form.IsUnmended }
{
    let Ok(old) = read_set(alloc, old, rules) else {
        return Err(Report::OutOfMemory);
    };
    let Ok(new) = read_set(alloc, new, rules) else {
        return Err(Report::OutOfMemory);
    };
    if only_take_away(old.as_slice(), new.as_slice()) {
        Ok(())
    } else {
        Err(Report::NotMended)
    }
}

/// What the lines of a bundle that count say, or the answer if they can't be read.
fn own_in<'a>(alloc: Global, bytes: &[u8]) -> Result<BundleContents, Report<'a>>
    ensures spelled { IfOk result (λ c. Spells (counted_bundle bytes.now) c) }
    ensures faulty { IfErr result (IsUnspelled (counted_bundle bytes.now)) }
    ensures read { IfErr result (λ r. unread_by r ≡ None) }
{
    match counted(alloc, bytes) {
        Ok(counted) => own_contents(alloc, counted),
        Err(AllocError) => Err(Report::OutOfMemory),
    }
}

/// The answer with these lines, where `check --unison` of the bundle with them is answered so.
fn report_on_said<'a>(
    alloc: Global,
    as_bundle: bool,
    pieces: &[Piece],
    said: Report<'a>,
) -> Report<'a>
    ensures told { form.HoldsIfChecked pieces.now as_bundle said.entry result }
    ensures read { unread_by result ≡ None }
{
    match said {
        Report::InUnison(answer) => report_on_answer(alloc, as_bundle, pieces, answer),
        Report::OutOfMemory => Report::OutOfMemory,
        _ => Report::NotMended,
    }
}

/// The answer with these lines, where that is the answer about the profiles with them.
fn report_on_answer<'a>(
    alloc: Global,
    as_bundle: bool,
    pieces: &[Piece],
    said: UnisonAnswer,
) -> Report<'a>
    ensures told { form.HoldsIfChecked pieces.now as_bundle (Report.InUnison said) result }
    ensures read { unread_by result ≡ None }
{
    match said {
        UnisonAnswer::Safe => report_on_safe(alloc, as_bundle, pieces),
        UnisonAnswer::Refused(line, refusal)
        | UnisonAnswer::Unsearched(line, refusal)
        | UnisonAnswer::SameArchive(line, refusal) => {
            report_on_unsafe(alloc, as_bundle, pieces, line.as_str(), refusal)
        }
        UnisonAnswer::Clashes(_) => Report::NotMended,
    }
}
