//! What lines set, read once.

use crate::bar::{PathBar, read_bar};
use crate::query::{is_rule, is_rule_name, is_same_root};
use crate::sign::Choices;
use crate::start::{Start, start_of};
use hub_source::{Source, SourceLine};
use std::alloc::{AllocError, Global};

/// A line that sets something.
#[derive(Drop)]
pub(crate) struct Setting<'a> {
    pub(crate) line: SourceLine<'a>,
    pub(crate) name: &'a str,
    pub(crate) value: &'a str,
    /// The bar on paths that it sets, if it sets one.
    pub(crate) bar: Option<PathBar<'a>>,
    /// The pattern of an ignored path, of one that isn't, of a bar on paths or of a rule, if it can be read.
    pub(crate) pattern: Option<Choices>,
}

impl<'a> Setting<'a> {
    /// The value, if that preference is set.
    pub(crate) fn value_of(&self, wanted: &str) -> Option<&'a str> {
        if self.name == wanted {
            Some(self.value)
        } else {
            None
        }
    }
}

/// A root that a line of a profile names, as the profile's line for that root has it: so Unison knows it.
pub(crate) fn written_root<'r>(source: &Source<'r>, line: &Setting<'_>, root: &'r str) -> &'r str {
    source.root_written(line.line.section, root).unwrap_or(root)
}

/// A rule, with the root that it is for.
#[derive(Drop)]
pub(crate) struct Rule<'a> {
    pub(crate) root: &'a str,
    pub(crate) setting: Setting<'a>,
    /// How the paths begin that it is for, if that is known.
    pub(crate) start: Option<Start<'a>>,
}

impl Rule<'_> {
    /// Returns whether it is for a root, and forbids to delete something there.
    pub(crate) fn forbids_losses_at(&self, root: &str) -> bool {
        self.setting.name != "nonew" && is_same_root(self.root, root)
    }
}

/// What the lines of a section set.
pub(crate) fn settings_of<'a>(
    source: &Source<'a>,
    section: usize,
) -> Result<Vec<Setting<'a>>, AllocError> {
    let mut settings = Vec::new(source.alloc());
    for line in source.section_lines(section) {
        if let Some(setting) = setting_of(source.alloc(), line)? {
            settings.push(setting)?;
        }
    }
    Ok(settings)
}

/// What a line sets.
fn setting_of<'a>(alloc: Global, line: &SourceLine<'a>) -> Result<Option<Setting<'a>>, AllocError> {
    let Some((name, value)) = line.setting() else {
        return Ok(None);
    };
    let bar = read_bar(name, value);
    let pattern = pattern_in(alloc, name, value, bar)?;
    Ok(Some(Setting {
        line: *line,
        name,
        value,
        bar,
        pattern,
    }))
}

/// The pattern of a setting.
fn pattern_in(
    alloc: Global,
    name: &str,
    value: &str,
    bar: Option<PathBar<'_>>,
) -> Result<Option<Choices>, AllocError> {
    if let Some(bar) = bar {
        return Choices::read(alloc, bar.pattern);
    }
    if name == "ignore" || name == "ignorenot" || is_rule_name(name) {
        return Choices::read(alloc, value);
    }
    Ok(None)
}

/// The rules of an input.
pub(crate) fn rules_of<'a>(source: &Source<'a>) -> Result<Vec<Rule<'a>>, AllocError> {
    let mut rules = Vec::new(source.alloc());
    let Some(section) = source.section("%rules") else {
        return Ok(rules);
    };
    let mut root = "";
    for line in source.section_lines(section) {
        root = line.value_of("root").unwrap_or(root);
        if let Some(rule) = rule_of(source.alloc(), line, root)? {
            rules.push(rule)?;
        }
    }
    Ok(rules)
}

/// The rule that a line sets, for a root.
fn rule_of<'a>(
    alloc: Global,
    line: &SourceLine<'a>,
    root: &'a str,
) -> Result<Option<Rule<'a>>, AllocError> {
    if !is_rule(line) {
        return Ok(None);
    }
    let start = start_of(line);
    match setting_of(alloc, line)? {
        Some(setting) => Ok(Some(Rule {
            root,
            setting,
            start,
        })),
        None => Ok(None),
    }
}
