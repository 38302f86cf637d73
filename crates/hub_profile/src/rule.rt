//! Rules: which changes nobody may make at a root.
use crate::verb::Verb;
use hub_glob::PathSpec;
use hub_path::Root;

/// Forbids changes of one kind at a root, on the paths that the specification matches (this project's choice).
#[derive(Debug, Drop)]
pub struct Rule {
    /// The root.
    pub root: Root,
    /// The kind of change.
    pub verb: Verb,
    /// The specification of the paths.
    pub spec: PathSpec,
}
