//! Paths, folded.
ghost use Rattle.std.specs.Prelude.{◌≡◌, IfOk};
ghost use Rattle.hub_archives.specs.Seen as seen;

use hub_folded::{fold_name, knows};
use hub_path::{Name, RelPath};
use std::alloc::{AllocError, Global};

/// What a path folds to, if it is known what each of its names folds to, and that is a name.
pub(crate) fn folded_path(alloc: Global, path: &RelPath) -> Result<Option<RelPath>, AllocError>
    ensures { IfOk result (λ o. o ≡ seen.folded_path path.now) }
{
    let mut folded = RelPath::top(alloc);
    for i in 0..path.len() {
        let Some(name) = folded_name(alloc, path.name(i))? else {
            return Ok(None);
        };
        folded = folded.child(name)?;
    }
    Ok(Some(folded))
}

/// What a name folds to, if that is known and a name.
fn folded_name(alloc: Global, name: &Name) -> Result<Option<Name>, AllocError>
    ensures { IfOk result (λ o. o ≡ seen.folded_name name.now) }
{
    let text = name.text();
    if !knows(text) {
        return Ok(None);
    }
    let folded = fold_name(alloc, text)?;
    Name::from_text(alloc, folded.as_str())
}
