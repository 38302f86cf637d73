//! What the lines of a profile do, and what becomes of them in a cautious reading, by the preference that they set.
ghost use Rattle.std.specs.Prelude.{◌≡◌, chars};
ghost use Rattle.hub_preferences.specs.Table as spec;

mod changes;
mod displays;
mod elsewhere;
mod staying;
mod transfers;

pub use changes::CHANGES;
pub use displays::DISPLAYS;
pub use elsewhere::ELSEWHERE;
pub use staying::STAYING;
pub use transfers::TRANSFERS;

/// What becomes of the lines that set a preference.
#[derive(Clone, Copy, Debug, PartialEq, Eq)]
pub enum Rule {
    /// They stay: the plain reader reads them as Unison does, or refuses them.
    Stays,
    /// They are left out.
    LeftOut,
    /// They are left out with the value `false` or `default`.
    LeftOutIfOff,
    /// They are left out with the value `central`.
    LeftOutIfCentral,
    /// They are left out with a value that can be a part of a name: it has no `/`, `\` or `:`.
    LeftOutIfName,
    /// They are left out if the value is a file's place that surely lies in no root of a profile. Otherwise they are refused.
    LeftOutIfApart,
    /// As of `force`.
    Force,
    /// They are left out, and with them all `force` lines of their profile.
    OverridesForce,
    /// As of `ignore`.
    Ignore,
    /// As of `ignorenot`.
    IgnoreNot,
    /// As of a bar on some paths of a root.
    PartialBar,
}

/// What Unison may do by the lines that set a preference, beside what it may do without them.
#[derive(Clone, Copy, Debug, PartialEq, Eq)]
pub enum Effect {
    /// It may change less at the roots, or refuses to run.
    HoldsBack,
    /// It may change neither less nor more at the roots, and writes nothing else.
    NoInfluence,
    /// It may change more at the roots, or the same by other names.
    AddsChanges,
    /// It writes outside what it synchronizes: copies, a log, lines of a profile, or whatever a program writes that it starts.
    WritesElsewhere,
}

/// Where it is from what a preference does.
#[derive(Clone, Copy, Debug, PartialEq, Eq)]
pub enum Source {
    /// The manual of Unison 2.52.1, "Preferences", or of a version that has it: 2.51.5 or 2.53.7.
    Manual,
    /// Unison 2.52.1, or 2.53.7 where only that has it, was given such a line. For many it was only seen to take it: what it changes is
    /// then from the manual.
    Trial,
}

/// What becomes of the lines that set a preference, what they do, why, and where that is from.
#[derive(Clone, Copy, Debug, PartialEq, Eq)]
pub struct Preference {
    /// What becomes of them.
    pub rule: Rule,
    /// What Unison may do by them.
    pub effect: Effect,
    /// Why. It is said of a line that is left out.
    pub reason: &'static str,
    /// Where that is from.
    pub source: Source,
}

/// What is said of the lines that set a preference.
#[derive(Clone, Copy, Debug, PartialEq, Eq)]
pub(crate) struct Meaning {
    /// What becomes of them.
    pub(crate) rule: Rule,
    /// What Unison may do by them.
    pub(crate) effect: Effect,
}

/// Returns what Unison may do by the lines that set the preference of that name, if it has one of that name.
///
/// The name is spelled as a profile has it: Unison takes no other case and no start of a name. Other spellings of a preference, as
/// `mirror` for `backup`, are names of their own.
pub fn effect_of(name: &str) -> Option<Effect>
    ensures { result ≡ spec.effect_named (chars name.now) }
{
    let meaning = meaning_of(name)?;
    Some(meaning.effect)
}

/// What is said of the preference of that name. Lines of other names stay.
///
/// The preferences whose lines stay are asked first, since profiles have these lines most often.
pub(crate) fn meaning_of(name: &str) -> Option<Meaning>
    ensures { result ≡ spec.meaning_named (chars name.now) }
{
    match named(&STAYING, name) {
        Some(meaning) => Some(meaning),
        None => other_meaning(name),
    }
}

/// The same of the preferences in the other tables.
fn other_meaning(name: &str) -> Option<Meaning>
    ensures { result ≡ spec.other_meaning (chars name.now) }
{
    match named(&CHANGES, name) {
        Some(meaning) => Some(meaning),
        None => quiet_meaning(name),
    }
}

/// The same of the preferences by which Unison changes neither less nor more at the roots.
fn quiet_meaning(name: &str) -> Option<Meaning>
    ensures { result ≡ spec.quiet_meaning (chars name.now) }
{
    match named(&ELSEWHERE, name) {
        Some(meaning) => Some(meaning),
        None => idle_meaning(name),
    }
}

/// The same of the preferences without influence.
fn idle_meaning(name: &str) -> Option<Meaning>
    ensures { result ≡ spec.idle_meaning (chars name.now) }
{
    match named(&TRANSFERS, name) {
        Some(meaning) => Some(meaning),
        None => named(&DISPLAYS, name),
    }
}

/// What is beside that name in a table of ASCII words, if the name is there.
fn named(rows: &[(&str, Preference)], name: &str) -> Option<Meaning>
    ensures { spec.IsLookedUp rows.now (chars name.now) result }
{
    let (_, preference) = rows.iter().find(|(word, _)| *word == name)?;
    Some(Meaning {
        rule: preference.rule,
        effect: preference.effect,
    })
}
