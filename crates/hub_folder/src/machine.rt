//! The machines whose profiles operands name.
ghost use Rattle.std.specs.Prelude.{◌≡◌};
ghost use Rattle.std.specs.List.{after_first, before_first, find};
ghost use Rattle.std.specs.Option.{option_map};
ghost use Rattle.hub_folder.specs.Machines as machines;
ghost use Rattle.hub_folder.specs.Machines.{machine_in};
ghost use Rattle.hub_folder.specs.Told.{texts_in};

/// The machine whose profiles an operand `NAME=OPERAND` names: what stands before its first `=`, if that isn't empty and has no `/`.
/// `None` if the operand names none. (This is this project's choice.)
pub fn machine_of(operand: &str) -> Option<&str>
    ensures { machine_in result ≡ machines.machine_of operand.now }
{
    match operand.split_once('=') {
        Some((name, _)) => { if is_machine(name) { Some(name) } else { None } }
        None => None,
    }
}

/// The path of the file or folder of an operand.
pub(crate) fn source_of(operand: &str) -> &str
    ensures { result.now ≡ machines.source_of operand.now }
{
    match operand.split_once('=') {
        Some((name, source)) => { if is_machine(name) { source } else { operand } }
        None => operand,
    }
}

/// Returns whether this is the name of a machine: it isn't empty and has no `/`.
fn is_machine(name: &str) -> bool
    ensures { result ≡ machines.is_machine name.now }
{
    !name.is_empty() && !has_slash(name.as_bytes())
}

/// Returns whether there is a `/`.
fn has_slash(name: &[u8]) -> bool
    ensures { result ≡ machines.has_slash name.now }
{
    name.iter().any(|b| *b == b'/')
}

/// The second operand of a machine, if there is one: the next one of the machine of the first operand whose machine a later one has,
/// too. Names are compared without regard to the case of ASCII letters. (This is this project's choice.)
pub fn second_machine<'a>(operands: &[&'a str]) -> Option<&'a str>
    ensures { machine_in result ≡ machines.second_machine (texts_in operands.now) }
{
    let mut seen = 0;
    for operand in operands {
        seen += 1;
        if let Some(second) = sharing(*operand, operands.get(seen..).unwrap_or(&[])) {
            return Some(second);
        }
    }
    None
}

/// The first of these operands that has the machine of this one.
fn sharing<'a>(operand: &str, others: &[&'a str]) -> Option<&'a str>
    ensures { machine_in result
        ≡ find (machines.share_machine operand.now) (texts_in others.now) }
{
    for other in others {
        if share_machine(operand, *other) {
            return Some(*other);
        }
    }
    None
}

/// Returns whether two operands have one machine.
fn share_machine(one: &str, other: &str) -> bool
    ensures { result ≡ machines.share_machine one.now other.now }
{
    match (machine_of(one), machine_of(other)) {
        (Some(one), Some(other)) => one.eq_ignore_ascii_case(other),
        _ => false,
    }
}
