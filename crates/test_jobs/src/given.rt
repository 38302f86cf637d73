//! What the lines above a question give.

use anyhow::{Context, Result};
use hub_cert::ProfileSet;
use hub_path::Root;
use hub_profile::Profile;
use hub_tree::Tree;
use std::alloc::Global;
use test_cases::Case;
use test_kit::cut;

/// The first root of each profile, and at first that of the replica.
const HUB: &str = "/srv/hub";

/// What was given since the last line `case`.
#[derive(Drop)]
pub(crate) struct Given {
    /// The profiles and the state.
    pub(crate) case: Case,
    /// The root of the replica that operations are made on.
    pub(crate) root: Root,
    /// That replica.
    pub(crate) replica: Tree,
}

impl Given {
    /// Nothing is given yet.
    pub(crate) fn new(alloc: Global) -> Result<Given> {
        let root = Root::read(alloc, HUB)?;
        Ok(Given {
            case: Case::new(alloc),
            root,
            replica: Tree::new(alloc),
        })
    }

    /// Takes a line if it gives something, and returns whether it does.
    pub(crate) fn take_line(&mut self, line: &str) -> Result<bool> {
        let (word, fields) = cut(line);
        match word {
            "profile" => self.add_profile(fields)?,
            "at" => self.begin_replica(fields)?,
            _ => return self.take_case_line(word, line),
        }
        Ok(true)
    }

    /// Takes a line of the case. With the line `case` the replica begins again, too.
    fn take_case_line(&mut self, word: &str, line: &str) -> Result<bool> {
        if word == "case" {
            self.begin_replica(HUB)?;
        }
        self.case.takes(line)
    }

    /// Adds a profile: its name, its second root, and its further lines.
    fn add_profile(&mut self, fields: &str) -> Result<()> {
        let (name, fields) = cut(fields);
        self.case.add_profile(name, HUB, fields)
    }

    /// Begins with an empty replica of a root.
    fn begin_replica(&mut self, root: &str) -> Result<()> {
        let alloc = self.case.alloc();
        self.root = Root::read(alloc, root)?;
        self.replica = Tree::new(alloc);
        Ok(())
    }
}

/// The first profile of a set.
pub(crate) fn first_of(set: &ProfileSet) -> Result<&Profile> {
    set.profiles().first().context("no profile")
}
