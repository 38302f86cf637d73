//! The files of folders that are no profiles there.

use crate::files::Held;
use std::io::Eprint;

/// Says which files of folders are no profiles, since another one includes them or since they set no root. Returns whether there are
/// such: they may be run, too. If standard error fails, there is nobody left to tell.
pub fn say_left_out<T: Eprint>(rt: &T, held: &[Held<'_>], rootless: &[String]) -> bool {
    let mut has_left_out = !rootless.is_empty();
    for one in held {
        say_included(rt, one);
        has_left_out = has_left_out || !one.left_out.is_empty();
    }
    for path in rootless {
        let _ = eprintln!(rt; "hubsync: note: {path} sets no root: left out");
    }
    has_left_out
}

/// Says which files are no profiles since this one includes them.
fn say_included<T: Eprint>(rt: &T, one: &Held<'_>) {
    let file = one.file.as_str();
    for path in one.left_out.iter() {
        let _ = eprintln!(rt;
            "hubsync: note: {path} is no profile here, since {file} includes it: name both files to ask about both"
        );
    }
}
