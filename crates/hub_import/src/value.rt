//! Lines with a preference and its value.
ghost use Rattle.std.specs.Prelude.{◌≡◌, ◌++◌, OnOk};
ghost use Rattle.hub_import.specs.Text as text;

use hub_path::{RelPath, Root};
use std::alloc::AllocError;

/// Appends a text.
pub(crate) fn push(bytes: &mut Vec<u8>, more: &str) -> Result<(), AllocError>
    ensures { OnOk result (bytes.new.items ≡ bytes.old.items ++ more.now) }
{
    bytes.extend_from_slice(more.as_bytes())
}

/// Appends a line `NAME = VALUE`.
pub(crate) fn push_setting(bytes: &mut Vec<u8>, name: &str, value: &str) -> Result<(), AllocError>
    ensures { OnOk result (bytes.new.items ≡ bytes.old.items ++ text.setting name.now value.now) }
{
    push(bytes, name)?;
    push(bytes, " = ")?;
    push(bytes, value)?;
    push(bytes, "\n")
}

/// Appends a line whose value is a root.
pub(crate) fn push_root(bytes: &mut Vec<u8>, name: &str, root: &Root) -> Result<(), AllocError>
    ensures { OnOk result (bytes.new.items ≡ bytes.old.items ++ text.root_line name.now root.now) }
{
    let root = root.as_str();
    push(bytes, name)?;
    push(bytes, " = ")?;
    push(bytes, root)?;
    push(bytes, end_of(root))
}

/// Appends the line of a kept value. The whole replica has none, since it is kept if there is no such line.
pub(crate) fn push_path(bytes: &mut Vec<u8>, path: &RelPath) -> Result<(), AllocError>
    ensures { OnOk result (bytes.new.items ≡ bytes.old.items ++ text.path_line path.now) }
{
    let path = path.as_str();
    if path.is_empty() {
        return Ok(());
    }
    push(bytes, "path = ")?;
    push(bytes, path)?;
    push(bytes, end_of(path))
}

/// The end of a line whose value is a root or a path. The reader would drop a blank there, so a slash comes behind it, which is
/// dropped in its place.
pub(crate) fn end_of(value: &str) -> &'static str
    ensures { result.now ≡ text.end_of value.now }
{
    if value.as_bytes().ends_with(b" ") || value.as_bytes().ends_with(b"\t") {
        "/\n"
    } else {
        "\n"
    }
}
