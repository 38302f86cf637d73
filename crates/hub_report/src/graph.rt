//! A graph of profiles for Graphviz: the profiles, their roots, and what clashes.
ghost use Rattle.std.specs.Prelude.{◌≡◌, [], string_bytes, IfOk, OnOk};
ghost use Rattle.hub_report.specs.Texts.{Gains};
ghost use Rattle.hub_report.specs.Graph as graph;
ghost use Rattle.hub_report.specs.Graph.{texts_in};

use crate::edges::push_clashes;
use crate::parts::push_all;
use hub_cert::CheckFault;
use hub_profile::Profile;
use hub_rounds::{Obstacle, Subject, subject_of};
use std::alloc::{AllocError, Global};
use std::collections::BTreeSet;

/// What clashes among profiles, as a graph.
#[derive(Drop)]
pub struct Graph {
    /// The text of the graph, for Graphviz.
    pub text: String,
    /// Whether nothing clashes and nothing may break a rule, no goal was too large to be searched, and no archive is shared.
    pub safe: bool,
}

/// The lines before those of profiles.
const HEAD: &str = "graph clashes {
    graph [rankdir = LR];
    node [fontname = \"sans-serif\"];
    edge [fontname = \"sans-serif\"];
";

/// The text of a graph of profiles with these faults, for Graphviz: a box for each profile and lines to its two roots, and a red
/// line for each two profiles that clash, with the path of the first fault that is about the two. Others of these numbers, which
/// share an archive, are joined by a red line that says so. A profile that may break a rule is a red box. What isn't decided is
/// dashed, as a goal is that is too large, or a clash of two profiles with nested roots.
pub fn graph_of_clashes(
    alloc: Global,
    profiles: &[Profile],
    faults: &[CheckFault],
    archives: &[(usize, usize)],
) -> Result<String, AllocError>
    ensures { IfOk result (λ t. string_bytes t
        ≡ graph.graph_text profiles.now faults.now archives.now) }
{
    let mut text = String::from_str(alloc, HEAD)?;
    push_profiles(alloc, &mut text, faults, profiles)?;
    push_roots(alloc, &mut text, profiles)?;
    push_clashes(alloc, &mut text, faults, archives, profiles)?;
    text.push_str("}\n")?;
    Ok(text)
}

/// Adds the lines of profiles, of which the first has the number 0.
fn push_profiles(
    alloc: Global,
    text: &mut String,
    faults: &[CheckFault],
    profiles: &[Profile],
) -> Result<(), AllocError>
    ensures { OnOk result (Gains text.old text.new
        (graph.profile_lines faults.now 0 profiles.now)) }
{
    let mut number: usize = 0;
    for profile in profiles {
        push_numbered(alloc, text, faults, number, profile)?;
        number += 1;
    }
    Ok(())
}

/// Adds the box of the profile of that number, and the lines to its roots.
fn push_numbered(
    alloc: Global,
    text: &mut String,
    faults: &[CheckFault],
    number: usize,
    profile: &Profile,
) -> Result<(), AllocError>
    ensures { OnOk result (Gains text.old text.new
        (graph.lines_of_numbered faults.now number profile.now)) }
{
    push_profile(alloc, text, profile, box_style(faults, number))
}

/// Adds the box of a profile in that style, and the lines to its roots.
fn push_profile(
    alloc: Global,
    text: &mut String,
    profile: &Profile,
    style: &str,
) -> Result<(), AllocError>
    ensures { OnOk result (Gains text.old text.new
        (graph.lines_of_profile style.now profile.now)) }
{
    let name = escaped(alloc, profile.name().text())?;
    let roots = profile.roots();
    let left = escaped(alloc, roots[0].as_str())?;
    let right = escaped(alloc, roots[1].as_str())?;
    push_box(text, name.as_str(), style)?;
    push_root_edge(text, name.as_str(), left.as_str())?;
    push_root_edge(text, name.as_str(), right.as_str())
}

/// Adds the box of a profile of that name.
#[tactic(auto, unfolding(crate::specs::Graph::box_line))]
fn push_box(text: &mut String, name: &str, style: &str) -> Result<(), AllocError>
    ensures { OnOk result (Gains text.old text.new (graph.box_line style.now name.now)) }
{
    push_all(
        text,
        &[
            "    \"profile ",
            name,
            "\" [shape = box, label = \"",
            name,
            "\"",
            style,
            "];\n",
        ],
    )
}

/// Adds the line from a profile to a root.
#[tactic(auto, unfolding(crate::specs::Graph::root_edge))]
fn push_root_edge(text: &mut String, name: &str, root: &str) -> Result<(), AllocError>
    ensures { OnOk result (Gains text.old text.new (graph.root_edge name.now root.now)) }
{
    push_edge(text, name, "root", root, "color = gray50")
}

/// Adds the line that joins a profile to a node of that kind and name, in that style.
#[tactic(auto, unfolding(crate::specs::Graph::edge))]
pub(crate) fn push_edge(
    text: &mut String,
    name: &str,
    kind: &str,
    node: &str,
    style: &str,
) -> Result<(), AllocError>
    ensures { OnOk result (Gains text.old text.new
        (graph.edge name.now kind.now node.now style.now)) }
{
    push_all(
        text,
        &[
            "    \"profile ",
            name,
            "\" -- \"",
            kind,
            " ",
            node,
            "\" [",
            style,
            "];\n",
        ],
    )
}

/// The style of the box of the profile of that number: red if it may break a rule, dashed if whether it may was not decided.
fn box_style<'a>(faults: &[CheckFault], number: usize) -> &'a str
    ensures { result.now ≡ graph.box_style faults.now number }
{
    if has_breach(faults, number) {
        ", color = red"
    } else if has_large_breach(faults, number) {
        ", color = red, style = dashed"
    } else {
        ""
    }
}

/// Returns whether one of the faults is that this profile may break a rule.
fn has_breach(faults: &[CheckFault], number: usize) -> bool
    ensures { result ≡ graph.has_breach faults.now number }
{
    faults
        .iter()
        .any(|fault| is_breach(subject_of(fault), number))
}

/// Returns whether one of the faults is that whether this profile may break a rule is too large to decide.
fn has_large_breach(faults: &[CheckFault], number: usize) -> bool
    ensures { result ≡ graph.has_large_breach faults.now number }
{
    faults
        .iter()
        .any(|fault| is_large_breach(subject_of(fault), number))
}

/// Returns whether this profile may break a rule.
fn is_breach(subject: Subject, number: usize) -> bool
    ensures { result ≡ graph.is_breach number subject }
{
    matches!(
        subject,
        Subject::Alone { profile, reason: Obstacle::Breach(_) } if profile == number
    )
}

/// Returns whether it is too large to decide whether this profile may break a rule.
fn is_large_breach(subject: Subject, number: usize) -> bool
    ensures { result ≡ graph.is_large_breach number subject }
{
    matches!(
        subject,
        Subject::Alone { profile, reason: Obstacle::TooLarge(_) } if profile == number
    )
}

/// Adds the line of each root of these profiles, in the order of their texts.
fn push_roots(alloc: Global, text: &mut String, profiles: &[Profile]) -> Result<(), AllocError>
    ensures { OnOk result (Gains text.old text.new (graph.root_lines profiles.now)) }
{
    let roots = roots_of(alloc, profiles)?;
    for root in roots.iter() {
        push_folder(alloc, text, *root)?;
    }
    Ok(())
}

/// The texts of the roots of these profiles, in their order.
fn roots_of<'a>(alloc: Global, profiles: &'a [Profile]) -> Result<BTreeSet<&'a str>, AllocError>
    ensures { IfOk result (λ s. texts_in s.keys ≡ graph.root_texts_of [] profiles.now) }
{
    let mut roots = BTreeSet::new(alloc);
    for profile in profiles {
        insert_roots(&mut roots, profile)?;
    }
    Ok(roots)
}

/// Inserts the two roots of a profile.
fn insert_roots<'a>(roots: &mut BTreeSet<&'a str>, profile: &'a Profile) -> Result<(), AllocError>
    ensures { OnOk result (texts_in roots.new.keys
        ≡ graph.with_roots (texts_in roots.old.keys) profile.now) }
{
    let own = profile.roots();
    insert_root(roots, own[0].as_str())?;
    insert_root(roots, own[1].as_str())
}

/// Inserts a root.
fn insert_root<'a>(roots: &mut BTreeSet<&'a str>, root: &'a str) -> Result<(), AllocError>
    ensures { OnOk result (texts_in roots.new.keys
        ≡ graph.with_new_text (texts_in roots.old.keys) root.now) }
{
    roots.insert(root)?;
    Ok(())
}

/// Adds the line of a root.
fn push_folder(alloc: Global, text: &mut String, root: &str) -> Result<(), AllocError>
    ensures { OnOk result (Gains text.old text.new (graph.folder root.now)) }
{
    let shown = escaped(alloc, root)?;
    push_folder_line(text, shown.as_str())
}

/// Adds the line of a root of this text.
#[tactic(auto, unfolding(crate::specs::Graph::folder_line))]
fn push_folder_line(text: &mut String, root: &str) -> Result<(), AllocError>
    ensures { OnOk result (Gains text.old text.new (graph.folder_line root.now)) }
{
    push_all(
        text,
        &[
            "    \"root ",
            root,
            "\" [shape = folder, label = \"",
            root,
            "\"];\n",
        ],
    )
}

/// A text with a backslash before each backslash and each quote.
pub(crate) fn escaped(alloc: Global, text: &str) -> Result<String, AllocError>
    ensures { IfOk result (λ t. string_bytes t ≡ graph.escaped text.now) }
{
    let mut shown = String::new(alloc);
    for character in text.chars() {
        push_escaped(&mut shown, character)?;
    }
    Ok(shown)
}

/// Adds a character, after a backslash if it is one or a quote.
fn push_escaped(text: &mut String, character: char) -> Result<(), AllocError>
    ensures { OnOk result (Gains text.old text.new (graph.in_quotes character)) }
{
    if is_special(character) {
        text.push('\\')?;
    }
    text.push(character)
}

/// Returns whether a character needs a backslash before it.
fn is_special(character: char) -> bool
    ensures { result ≡ graph.needs_backslash character }
{
    character == '\\' || character == '"'
}
