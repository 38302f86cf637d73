//! Lines that name a root which is neither of the two.
ghost use Rattle.std.specs.Prelude.{◌≡◌, ◌∷◌, [], IfErr, OnOk, Some, None};
ghost use Rattle.std.specs.List.{list_any};
ghost use Rattle.hub_path.specs.Path.{path_eq};
ghost use Rattle.hub_profile.specs.Foreign as foreign;
ghost use Rattle.hub_profile.specs.Foreign.{fault_of_roots};

use crate::fault::{Fault, ProfileFault};
use crate::partial_line::PartialLine;
use crate::protection::ProtectionLine;
use hub_path::Root;

/// `NotARoot` at the lowest line whose root is neither of the two.
pub(crate) fn check_roots(
    protections: &[ProtectionLine],
    partials: &[PartialLine],
    left: &Root,
    right: &Root,
) -> Result<(), ProfileFault>
    ensures ok { OnOk result
        (fault_of_roots left.now right.now protections.now partials.now ≡ None) }
    ensures err { IfErr result
        (λ f. fault_of_roots left.now right.now protections.now partials.now ≡ Some f) }
{
    let first = foreign_protection(protections, left, right);
    match lower(first, foreign_partial(partials, left, right)) {
        Some(line) => {
            Err(ProfileFault {
                line,
                fault: Fault::NotARoot,
            })
        }
        None => Ok(()),
    }
}

/// The first line that protects another root.
fn foreign_protection(lines: &[ProtectionLine], left: &Root, right: &Root) -> Option<usize>
    ensures { result ≡ foreign.foreign_protection (left.now ∷ right.now ∷ []) lines.now }
{
    for line in lines {
        if !is_either(&line.root, left, right) {
            return Some(line.line);
        }
    }
    None
}

/// The first line that bars changes on some paths of another root.
fn foreign_partial(lines: &[PartialLine], left: &Root, right: &Root) -> Option<usize>
    ensures { result ≡ foreign.foreign_partial (left.now ∷ right.now ∷ []) lines.now }
{
    for line in lines {
        if !is_either(&line.root, left, right) {
            return Some(line.line);
        }
    }
    None
}

/// The lower of two lines, of which either may be missing.
fn lower(line: Option<usize>, other: Option<usize>) -> Option<usize>
    ensures { result ≡ foreign.lower line other }
{
    match (line, other) {
        (Some(line), Some(other)) => Some(line.min(other)),
        (line, None) => line,
        (None, other) => other,
    }
}

fn is_either(root: &Root, left: &Root, right: &Root) -> bool
    ensures { result ≡ list_any (path_eq root.now) (left.now ∷ right.now ∷ []) }
{
    root == left || root == right
}
