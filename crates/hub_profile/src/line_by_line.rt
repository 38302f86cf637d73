//! A text that is read line by line.
ghost use Rattle.std.specs.Prelude.{◌≡◌, ◌⊎◌, true, false, Ok, Err, IfOk, IfErr, OnOk, IsTrue, chars};
ghost use Rattle.std.specs.Str.{is_utf8};
ghost use Rattle.hub_profile.specs.LineByLine as by_line;
ghost use Rattle.hub_profile.specs.Faults.{FailsAs, FailsAt};

use crate::fault::{Fault, Preference, ProfileFault};
use crate::line::{is_setting, line_text, setting};
use hub_text::TextLines;
use std::alloc::Global;
use std::str;

/// What the lines of a text say so far.
pub(crate) trait FromLines: Drop {
    ghost use Rattle.std.specs.Prelude.{List, ℕ, Result};
    ghost use Rattle.hub_profile.specs.declared.fault.Fault.{Fault};

    /// What a setting on that line adds, with that name and value, or its fault.
    ghost table: { Self → ℕ → List ℕ → List ℕ → Result Self Fault };

    /// Takes the next setting, which is on the line of that number.
    fn take(&mut self, number: usize, name: &str, value: &str) -> Result<(), Fault>
        ensures ok { OnOk result (
            table self.old number (chars name.now) (chars value.now) ≡ Ok self.new) }
        ensures err { IfErr result (
            FailsAs (table self.old number (chars name.now) (chars value.now))) };
}

/// The text of these bytes, or `NotUtf8` at line 0.
pub(crate) fn text_of(bytes: &[u8]) -> Result<&str, ProfileFault>
    ensures text { IfOk result (λ t. t.now ≡ bytes.now) }
    ensures ok { OnOk result (IsTrue (is_utf8 bytes.now)) }
    ensures err { IfErr result (λ e. (is_utf8 bytes.now ≡ false) × (e ≡ by_line.not_utf8)) }
{
    match str::from_utf8(bytes) {
        Ok(text) => Ok(text),
        Err(_) => {
            Err(ProfileFault {
                line: 0,
                fault: Fault::NotUtf8,
            })
        }
    }
}

/// What the lines of a text say, from nothing on, or the fault of the lowest line that has one.
pub(crate) fn read_lines<D: FromLines>(nothing: D, text: &str) -> Result<D, ProfileFault>
    ensures ok { IfOk result (λ d. by_line.lines_reading D.table nothing (chars text.now) ≡ Ok d) }
    ensures err { IfErr result (FailsAt (by_line.lines_reading D.table nothing (chars text.now))) }
{
    let mut said = nothing;
    for (i, line) in TextLines::new(text).enumerate() {
        if let Err(fault) = take_line(&mut said, i + 1, line.text) {
            return Err(ProfileFault { line: i + 1, fault });
        }
    }
    Ok(said)
}

/// Takes the next line, which has that number.
fn take_line<D: FromLines>(said: &mut D, number: usize, line: &str) -> Result<(), Fault>
    ensures ok { OnOk result (
        by_line.with_line D.table said.old number (chars line.now) ≡ Ok said.new) }
    ensures err { IfErr result (
        FailsAs (by_line.with_line D.table said.old number (chars line.now))) }
{
    let line = line_text(line);
    if !is_setting(line) {
        return Ok(());
    }
    let (name, value) = setting(line)?;
    said.take(number, name, value)
}

/// What is beside that name in a table of ASCII words, if the name is there.
pub(crate) fn named<K: Copy>(rows: &[(&str, K)], name: &str) -> Option<K>
    ensures { by_line.are_words (by_line.rows_of rows.now) ≡ true
        → result ≡ by_line.look_up (chars name.now) (by_line.rows_of rows.now) }
{
    let (_, key) = rows.iter().find(|(word, _)| *word == name)?;
    Some(*key)
}

/// The fault of a name that is no preference's, or out of memory.
pub(crate) fn unknown(alloc: Global, name: &str) -> Fault
    ensures { (result ≡ Fault.OutOfMemory) ⊎ (result ≡ Fault.UnknownPreference (chars name.now)) }
{
    match Preference::new(alloc, name) {
        Ok(name) => Fault::UnknownPreference(name),
        Err(_) => Fault::OutOfMemory,
    }
}
