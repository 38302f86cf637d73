//! Paths that are met on a walk through a replica. They have a text, and no names of their own.
ghost use Rattle.std.specs.Prelude.{◌≡◌, ◌<◌, ◌∷◌, ◌++◌, [], length, IfOk, IsTrue, OnOk, encode_utf8_all};
ghost use Rattle.hub_path.specs.Path.{Name, is_path, is_place, text_of};
ghost use Rattle.hub_tree.specs.forms.Places.{EndsBeforeName};

use hub_path::Name;
use std::alloc::{AllocError, Global};
use std::marker::Model;
use std::sync::Arc;

/// The path of a directory. Contracts see its names. Copies share its text.
#[derive(Drop)]
pub struct Folder {
    alloc: Global,
    shared: Option<Arc<Text>>,
}

impl Model for Folder {
    ghost use Rattle.std.specs.Prelude.{List, ℕ, IsTrue};
    ghost use Rattle.hub_path.specs.Path.{is_place};
    ghost use Rattle.hub_path.specs.Shared.{shared_names};

    ghost Value = { List (List ℕ) };

    ghost view = { λ a. shared_names a.shared };

    ghost invariant = { λ a. IsTrue (is_place (shared_names a.shared)) };
}

/// The text of a path, which has a name.
#[derive(Drop)]
struct Text {
    bytes: Vec<u8>,
}

impl Model for Text {
    ghost use Rattle.std.specs.Prelude.{◌≡◌, List, ℕ, chars, encode_utf8_all};
    ghost use Rattle.hub_path.specs.Path.{path_of, text_of};

    ghost Value = { List (List ℕ) };

    ghost view = { λ a. path_of (chars a.bytes.items) };

    ghost invariant = { λ a.
        a.bytes.items ≡ encode_utf8_all (text_of (path_of (chars a.bytes.items))) };
}

/// The path of what a replica has: the directory that it is in, and its name there, which is borrowed from the replica.
/// Contracts see the names of the path.
#[derive(Drop)]
pub struct Place<'a> {
    folder: Folder,
    name: &'a Name,
}

impl<'a> Model for Place<'a> {
    ghost use Rattle.std.specs.Prelude.{◌∷◌, ◌++◌, [], List, ℕ};

    ghost Value = { List (List ℕ) };

    ghost view = { λ a. a.folder ++ a.name.now ∷ [] };
}

impl Text {
    /// Borrows the bytes.
    fn bytes(&self) -> &[u8]
        ensures bytes { result.now ≡ encode_utf8_all (text_of self.now) }
        ensures some { 0 < length self.now }
    {
        self.bytes.as_slice()
    }
}

impl Folder {
    /// The whole replica. It doesn't allocate.
    pub fn top(alloc: Global) -> Folder
        ensures { result ≡ [] }
    {
        Folder {
            alloc,
            shared: None,
        }
    }

    /// The place of a name in this directory. It doesn't allocate, and fails only where more places share the text than can be
    /// counted.
    pub fn place<'a>(&self, name: &'a Name) -> Result<Place<'a>, AllocError>
        ensures { IfOk result (λ p. p ≡ self.now ++ name.now ∷ []) }
    {
        Ok(Place {
            folder: self.copy()?,
            name,
        })
    }

    /// Copies the path.
    fn copy(&self) -> Result<Folder, AllocError>
        ensures { IfOk result (λ p. p ≡ self.now) }
    {
        let shared = match &self.shared {
            Some(text) => Some(Arc::try_clone(text)?),
            None => None,
        };
        Ok(Folder {
            alloc: self.alloc,
            shared,
        })
    }

    /// Borrows the text, which is empty for the whole replica.
    fn bytes(&self) -> &[u8]
        ensures { result.now ≡ encode_utf8_all (text_of self.now) }
    {
        match &self.shared {
            Some(text) => text.bytes(),
            None => &[],
        }
    }

    /// Appends what is before the name of each path in this directory.
    fn push_to(&self, text: &mut Vec<u8>) -> Result<(), AllocError>
        ensures text { (n : Name) → OnOk result
            (EndsBeforeName text.old.items text.new.items self.now n) }
        ensures valid { IsTrue (is_place self.now) }
    {
        if let Some(shared) = &self.shared {
            text.extend_from_slice(shared.bytes())?;
            text.push(b'/')?;
        }
        Ok(())
    }
}

impl<'a> Place<'a> {
    /// Appends the text of the path: its names, joined by `/`.
    pub fn push_to(&self, text: &mut Vec<u8>) -> Result<(), AllocError>
        ensures text { OnOk result
            (text.new.items ≡ text.old.items ++ encode_utf8_all (text_of self.now)) }
        ensures valid { OnOk result (IsTrue (is_path self.now)) }
    {
        self.folder.push_to(text)?;
        text.extend_from_slice(self.name.text().as_bytes())
    }

    /// The directory at this place.
    pub(crate) fn folder(&self) -> Result<Folder, AllocError>
        ensures { IfOk result (λ p. p ≡ self.now) }
    {
        let alloc = self.folder.alloc;
        let mut bytes = Vec::with_capacity(alloc, self.room())?;
        self.push_to(&mut bytes)?;
        Ok(Folder {
            alloc,
            shared: Some(Arc::new(alloc, Text { bytes })?),
        })
    }

    /// How many bytes its text has at most, or `usize::MAX` if there are more.
    fn room(&self) -> usize {
        let folder = self.folder.bytes().len();
        let name = self.name.text().len();
        folder.saturating_add(name).saturating_add(1)
    }
}
