//! Remarks on roots that are no paths: those on other machines, and those that Unison takes for other paths than they seem.

use crate::value::push_path;
use hub_source::{PathStart, RemoteRoot, Said, Source, SourceLine, say, trimmed};

/// Says what to do about a line whose root is on another machine, or begins with `//` or a protocol.
pub(crate) fn say_remote(out: &mut String, source: &Source<'_>, line: &SourceLine<'_>) -> Said {
    let root = root_in(line);
    let Some(remote) = RemoteRoot::read(root) else {
        return say_local(out, root);
    };
    if source.is_whole() && line.file.is_some() {
        return say(out, "it is on another machine: the table below has it");
    }
    out.push_str("hubsync: write ")?;
    push_remote(out, remote)?;
    match (remote.start, remote.user.unwrap_or("NAME")) {
        (PathStart::Home, user) => writeln!(
            out,
            " if the home there is /home/{user}, in all profiles alike"
        ),
        _ => out.push_str(" in its place, in all profiles alike\n"),
    }
}

/// The root that a line names.
fn root_in<'a>(line: &SourceLine<'a>) -> &'a str {
    let value = line.value();
    if !line.name().ends_with("partial") {
        return value;
    }
    match value.rsplit_once("->") {
        Some((_, root)) => trimmed(root),
        None => value,
    }
}

/// Adds a path that stands for a root on another machine.
fn push_remote(out: &mut String, remote: RemoteRoot<'_>) -> Said {
    out.push_str("/hosts/")?;
    remote.push_machine(out)?;
    if remote.start == PathStart::Home {
        let user = remote.user.unwrap_or("NAME");
        write!(out, "/home/{user}")?;
    }
    push_path(out, "/", remote.path)
}

/// Says what a root is to Unison that begins with `//` or a protocol, and how to write it. (Seen with Unison 2.52.1 on Linux: of
/// `file://` and what follows it the first five characters don't count, `//a` is `/a`, and `///a` is the relative path `a`.)
fn say_local(out: &mut String, root: &str) -> Said {
    let text = root.strip_prefix("file:").unwrap_or(root);
    if !text.starts_with("//") {
        return say(out, "Unison knows no protocols but ssh, socket and file");
    }
    if text.starts_with("///") && !text.starts_with("////") {
        out.push_str("hubsync: Unison takes it for the relative path ")?;
        push_path(out, "", text)?;
        return out.push_str(": write the absolute path\n");
    }
    out.push_str("hubsync: to Unison it is a path of this machine: write ")?;
    if text.bytes().all(|byte| byte == b'/') {
        out.push_str("/")?;
    }
    push_path(out, "/", text)?;
    out.push_str("\n")
}
