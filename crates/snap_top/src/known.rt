// Which names of disks and levels are known to a configuration.
ghost use Rattle.std.specs.Prelude.{◌≡◌, ◌<◌, ◌&&◌, IfErr, IfOk, IfSome, None, Some, bytes_eq, length, nat_lt, slice_get};
ghost use Rattle.array_setup.specs.Setup.{setup_value};
ghost use Rattle.snap_top.specs.Known.{first_unknown as first_unknown_of, is_known as is_known_to, names_disk as names_disk_of, names_level as names_level_of, unknown_in};

use array_setup::{Selection, Setup};
use disk_model::Text;
use snap_config::Command;

// Whether a disk has this name.
fn names_disk(setup: &Setup, name: &str) -> bool
    ensures { result ≡ names_disk_of (setup_value setup.now) name.now }
{
    setup
        .disks
        .as_slice()
        .iter()
        .any(|disk| disk.name.as_str() == name)
}

// Whether a level of a number is one of so many, and has this name.
fn is_level(count: usize, r: usize, level: &str, name: &str) -> bool
    ensures { result ≡ (nat_lt r count && bytes_eq level.now name.now) }
{
    r < count && level == name
}

// Whether a level has this name.
fn names_level(setup: &Setup, name: &str) -> bool
    ensures { result ≡ names_level_of (setup_value setup.now) name.now }
{
    let count = setup.parts.len();
    is_level(count, 0, "parity", name)
        || is_level(count, 1, "2-parity", name)
        || is_level(count, 2, "3-parity", name)
        || is_level(count, 3, "4-parity", name)
        || is_level(count, 4, "5-parity", name)
        || is_level(count, 5, "6-parity", name)
}

// Whether a disk or a level has this name.
fn is_known(setup: &Setup, name: &str) -> bool
    ensures { result ≡ is_known_to (setup_value setup.now) name.now }
{
    names_disk(setup, name) || names_level(setup, name)
}

// The number of the first of these names that neither a disk nor a level has.
fn first_unknown(setup: &Setup, names: &[Text]) -> Option<usize>
    ensures within { IfSome result (λ i. i < length names.now) }
    ensures some { IfSome result (λ i. first_unknown_of (setup_value setup.now) names.now ≡ slice_get names.now i) }
    ensures none { result ≡ None → first_unknown_of (setup_value setup.now) names.now ≡ None }
{
    for i in 0..names.len() {
        if !is_known(setup, names[i].as_str()) {
            return Some(i);
        }
    }
    None
}

// The selection, if all its names are known, or the first that isn't.
fn known_selection(setup: &Setup, selection: Selection) -> Result<Selection, Text>
    ensures known { IfOk result (λ same. same ≡ selection) }
    ensures none { IfOk result (λ _. first_unknown_of (setup_value setup.now) selection.disks ≡ None) }
    ensures unknown { IfErr result (λ name. first_unknown_of (setup_value setup.now) selection.disks ≡ Some name) }
{
    match first_unknown(setup, selection.disks.as_slice()) {
        None => Ok(selection),
        Some(i) => {
            let Selection { disks, .. } = selection;
            let mut names = disks.into_vec();
            Err(names.swap_remove(i))
        }
    }
}

/// The command, if all names of disks and levels that it selects are known, or the first that isn't.
pub(crate) fn known_command(setup: &Setup, command: Command) -> Result<Command, Text>
    ensures known { IfOk result (λ same. same ≡ command) }
    ensures none { IfOk result (λ _. unknown_in (setup_value setup.now) command ≡ None) }
    ensures unknown { IfErr result (λ name. unknown_in (setup_value setup.now) command ≡ Some name) }
{
    match command {
        Command::Check(selection) => Ok(Command::Check(known_selection(setup, selection)?)),
        Command::Audit(selection) => Ok(Command::Audit(known_selection(setup, selection)?)),
        Command::Fix(selection) => Ok(Command::Fix(known_selection(setup, selection)?)),
        other => Ok(other),
    }
}
