//! The name of the profile in a file.
ghost use Rattle.std.specs.Prelude.{◌≡◌};
ghost use Rattle.hub_bundle.specs.Files as files;

/// The name of the profile in a file: what follows the last `/` of its path, without `.prf` at its end.
pub(crate) fn profile_name(path: &str) -> &[u8]
    ensures { result.now ≡ files.profile_name path.now }
{
    without_ending(base_of(path.as_bytes()))
}

/// What follows the last `/` of a path.
fn base_of(path: &[u8]) -> &[u8]
    ensures { result.now ≡ files.base_of path.now }
{
    let mut base = path;
    let mut rest = path;
    while let Some((first, others)) = rest.split_first() {
        if *first == b'/' {
            base = others;
        }
        rest = others;
    }
    base
}

/// A name without `.prf` at its end.
fn without_ending(base: &[u8]) -> &[u8]
    ensures { result.now ≡ files.without_ending base.now }
{
    if base.ends_with(b".prf") {
        &base[..base.len() - 4]
    } else {
        base
    }
}
