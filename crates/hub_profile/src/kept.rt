ghost use Rattle.std.specs.Prelude.{◌≡◌, [], ◌&&◌, not, IfOk};
ghost use Rattle.std.specs.List.{list_any};
ghost use Rattle.hub_path.specs.Path.{path_eq, is_over};
ghost use Rattle.hub_profile.specs.Reading as reading;

use hub_path::RelPath;
use hub_text::Items;
use std::alloc::{AllocError, Global};

/// The values that a profile keeps, in their order, or the whole replica where there are none.
pub(crate) fn kept_or_whole(
    alloc: Global,
    values: Vec<RelPath>,
) -> Result<Items<RelPath>, AllocError>
    ensures { IfOk result (λ ps. ps ≡ reading.or_whole (reading.kept values.items)) }
{
    let mut paths = kept(alloc, values.as_slice())?;
    if paths.is_empty() {
        paths.push(RelPath::top(alloc))?;
    }
    Ok(Items::from_vec(paths))
}

/// Copies the values that add something, in their order.
///
/// Each value is compared with each other: a profile has at most `PATH_LINES` of them.
fn kept(alloc: Global, values: &[RelPath]) -> Result<Vec<RelPath>, AllocError>
    ensures { IfOk result (λ v. v.items ≡ reading.kept values.now) }
{
    let mut kept = Vec::new(alloc);
    for (i, value) in values.iter().enumerate() {
        if adds(values, &values[..i], value) {
            kept.push(value.copy()?)?;
        }
    }
    Ok(kept)
}

/// Returns whether a value is neither equal to an earlier one nor properly below any.
fn adds(all: &[RelPath], earlier: &[RelPath], value: &RelPath) -> bool
    ensures { result ≡ reading.adds all.now earlier.now value.now }
{
    !repeats(earlier, value) && !lies_below(all, value)
}

fn repeats(earlier: &[RelPath], value: &RelPath) -> bool
    ensures { result ≡ list_any (path_eq value.now) earlier.now }
{
    earlier.iter().any(|other| value == other)
}

fn lies_below(all: &[RelPath], value: &RelPath) -> bool
    ensures { result ≡ list_any (reading.is_properly_below value.now) all.now }
{
    all.iter().any(|other| is_properly_below(value, other))
}

fn is_properly_below(value: &RelPath, other: &RelPath) -> bool
    ensures { result ≡ reading.is_properly_below value.now other.now }
{
    value.starts_with(other) && other != value
}
