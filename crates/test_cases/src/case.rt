//! What the lines above a question give.

use anyhow::{Result, bail};
use hub_cert::{ProfileSet, Verified};
use hub_path::Name;
use hub_profile::{Profile, read_profile, read_rules};
use hub_search::check;
use hub_state::{State, read_bytes};
use hub_text::Items;
use std::alloc::Global;
use test_kit::cut;

/// The name of a profile, and its text.
#[derive(Drop)]
struct Given {
    name: String,
    text: String,
}

/// What was given since the last line `case`: profiles, and a state text.
#[derive(Drop)]
pub struct Case {
    alloc: Global,
    /// The profiles.
    profiles: Vec<Given>,
    /// The state text.
    text: String,
}

impl Case {
    /// Nothing is given yet.
    pub fn new(alloc: Global) -> Case {
        Case {
            alloc,
            profiles: Vec::new(alloc),
            text: String::new(alloc),
        }
    }

    /// The allocator of all that is made of what was given.
    pub fn alloc(&self) -> Global {
        self.alloc
    }

    /// Takes a line if it is `case` or belongs to a state text, and returns whether it does.
    ///
    /// `case` takes all away that was given. `hubsync state 1` begins a state text, in place of the one before.
    pub fn takes(&mut self, line: &str) -> Result<bool> {
        let (word, _) = cut(line);
        match word {
            "case" => self.clear(),
            "hubsync" => self.begin_text(line)?,
            "replica" | "archive" | "with" | "dir" | "file" | "end" => self.add_line(line)?,
            _ => return Ok(false),
        }
        Ok(true)
    }

    /// Adds a profile: its name, its left root, and then its right root and its further lines, which are separated by `; `.
    pub fn add_profile(&mut self, name: &str, left: &str, fields: &str) -> Result<()> {
        let (right, lines) = cut(fields);
        let name = String::from_str(self.alloc, name)?;
        let lines = lines.replace(self.alloc, "; ", "\n")?;
        let text = format!(in self.alloc; "root = {left}\nroot = {right}\n{lines}\n")?;
        self.profiles.push(Given { name, text })?;
        Ok(())
    }

    /// The set of the profiles, without rules.
    pub fn set(&self) -> Result<ProfileSet> {
        set_of(self.alloc, self.profiles.as_slice())
    }

    /// The set of the first profile alone, if there is one.
    pub fn first_alone(&self) -> Result<ProfileSet> {
        set_of(self.alloc, self.profiles.get(..1).unwrap_or(&[]))
    }

    /// The state that the state text says.
    pub fn state(&self) -> Result<State> {
        Ok(read_bytes(self.alloc, self.text.as_bytes())?)
    }

    /// Takes all away that was given.
    fn clear(&mut self) {
        self.profiles = Vec::new(self.alloc);
        self.text = String::new(self.alloc);
    }

    /// Begins a state text with this line.
    fn begin_text(&mut self, line: &str) -> Result<()> {
        self.text = String::new(self.alloc);
        self.add_line(line)
    }

    /// Adds a line to the state text.
    fn add_line(&mut self, line: &str) -> Result<()> {
        self.text.push_str(line)?;
        self.text.push('\n')?;
        Ok(())
    }
}

/// The set of these profiles, without rules.
fn set_of(alloc: Global, given: &[Given]) -> Result<ProfileSet> {
    let profiles = profiles_of(alloc, given)?;
    let rules = read_rules(alloc, &[])?;
    match ProfileSet::new(alloc, profiles, rules) {
        Ok(set) => Ok(set),
        Err(_) => bail!("no set"),
    }
}

fn profiles_of(alloc: Global, given: &[Given]) -> Result<Items<Profile>> {
    let mut profiles = Items::new(alloc);
    for one in given {
        profiles.push(profile_of(alloc, one)?)?;
    }
    Ok(profiles)
}

fn profile_of(alloc: Global, given: &Given) -> Result<Profile> {
    let name = Name::read(alloc, given.name.as_str())?;
    Ok(read_profile(alloc, name, given.text.as_bytes())?)
}

/// The set, which is safe.
pub fn verified_of(alloc: Global, set: &ProfileSet) -> Result<Verified<'_>> {
    match check(alloc, set) {
        Ok(verified) => Ok(verified),
        Err(_) => bail!("the set isn't safe"),
    }
}
