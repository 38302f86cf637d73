//! A profile's text.
ghost use Rattle.std.specs.Prelude.{◌≡◌, ◌⊎◌, Ok, Err, IfOk, IfErr};
ghost use Rattle.hub_profile.specs.Faults.{FailsAt};
ghost use Rattle.hub_profile.specs.Parts.{IsProfile};
ghost use Rattle.hub_profile.specs.Reading as reading;

use crate::draft::Draft;
use crate::fault::ProfileFault;
use crate::line_by_line::{read_lines, text_of};
use crate::profile::Profile;
use hub_path::Name;
use std::alloc::Global;

/// Reads the profile of that name from the bytes of its text.
///
/// The text is UTF-8 and cut at LF. A CR at the end of a line is dropped (this project's choice), then the spaces
/// and tabs around the line. A blank line and one that begins with `#` are skipped. Each other line sets a preference,
/// `NAME = VALUE`, and is cut at its first `=`. The preferences are (Unison manual, "Preferences"):
///
/// - `root`: a replica. There are exactly two (this project's choice), the left one first. They differ, and neither
///   lies within the other.
/// - `path`: only this path and what is below it. One `/` at its end is dropped, and an empty value means the whole
///   replica (both this project's choice), as does a profile without such a line. A value that is equal to an earlier
///   one or properly below another adds nothing.
/// - `ignore`: a path specification (`hub_glob::PathSpec::read`). A path that it matches is not synchronized, nor is
///   what is below it.
/// - `ignorenot`: a path specification. A path that it matches is not ignored itself.
/// - `force`: the root that all differences are resolved in favour of.
/// - `prefer`: the root that conflicts are resolved in favour of; where both are given, `force` decides (this project's
///   choice).
/// - `nodeletion`, `noupdate`, `nocreation`: a root at which no deletions, no updates and deletions, or no creations
///   are made. Each may be given for each root, and a repeated line adds nothing.
/// - `nodeletionpartial`, `noupdatepartial`, `nocreationpartial`: the value is `PATHSPEC -> ROOT`. The changes that
///   `nodeletion`, `noupdate` or `nocreation` would forbid are not made at the root on the paths that the specification
///   matches (this project's choice). The value is cut at its last `->`, and spaces and tabs around both parts are
///   dropped.
/// - `auto`, `batch`, `confirmbigdel`, `contactquietly`, `fastcheck`, `group`, `key`, `label`, `log`, `logfile`,
///   `owner`, `perms`, `silent`, `terse`, `times`: accepted without effect (this project's choice).
///
/// The fault is `NotUtf8` at line 0. Otherwise it is that of the lowest line that has one. Of one line it is the first
/// of these:
///
/// 1. `IncludeLeftOut`: the first word is `include`, `source`, `include?` or `source?`, and no `=` follows it directly
///    or after spaces and tabs.
/// 2. `NoEquals`: the line has no `=`.
/// 3. `UnknownPreference`: no preference has that name.
/// 4. `Repeated`: a second `force` or a second `prefer` line, whatever its value.
/// 5. `LeftOutValue`: `force` or `prefer` with the value `newer` or `older`.
/// 6. `TooMany`: a `path` line after `PATH_LINES` of them, an `ignore` or `ignorenot` line after `PATTERN_LINES` of
///    both together, or a `nodeletionpartial`, `noupdatepartial` or `nocreationpartial` line after `PARTIAL_LINES` of
///    all three together.
/// 7. `NoArrow`: the value of such a line has no `->`.
/// 8. `BadPattern`, then `BadPath`: the value, or its part, is not a path specification, not a root, or not a path.
///
/// Where no line has a fault, it is `RootCount`, `SameRoots` or `RootsNested` at line 0; otherwise `NotARoot` at the
/// lowest line that names neither of the two roots, by one of the preferences from `force` to `nocreationpartial`. Any
/// call may instead report `OutOfMemory`, at any line.
pub fn read_profile(alloc: Global, name: Name, bytes: &[u8]) -> Result<Profile, ProfileFault>
    ensures ok { IfOk result (λ P. reading.profile_in name bytes.now ≡ Ok P) }
    ensures err { IfErr result (FailsAt (reading.profile_in name bytes.now)) }
    ensures valid { IfOk result (λ P. IsProfile P) }
{
    let text = text_of(bytes)?;
    let draft = read_lines(Draft::new(alloc), text)?;
    draft.finish(name)
}
