// What is said of an end on the standard error. It needs no memory.
ghost use Rattle.std.specs.Prelude.{◌≡◌, option_map, slice_get, false};
ghost use Rattle.std.specs.List.{flat_map};
ghost use Rattle.array_setup.specs.Setup.{setup_value};
ghost use Rattle.snap_report.specs.State.{Puts, state_of};
ghost use Rattle.snap_report.specs.Telling.{Tells, Settled, between};
ghost use Rattle.snap_top.specs.Array.{column_names, disk_names};
ghost use Rattle.snap_top.specs.End.{words_line, given_in, unfit_line, value_in, value_line, config_line, no_disk_line, open_line, refusal_line, load_line, damage_line, size_line, levels_line, names_line, name_or_sign, difference_line, ending_line, line_of, option_word, disk_named, path_named, memory_line};
ghost use Rattle.snap_top.specs.Run.{IsSaid};

use crate::{Difference, End, Ending, Refusal};
use array_setup::Setup;
use content_file::{Damage, Damages, LoadFault};
use disk_model::{OpenFault, Sink};
use file_table::Table;
use snap_config::{ConfigFault, OptionName, WordsFault};
use snap_report::{Answer, Lines, Piece};

// The name of the option in a row of the table of options.
fn option_word(row: u32) -> &'static str
    ensures { result.now ≡ option_word row }
{
    match OptionName::in_row(row) {
        Some(option) => option.as_str(),
        None => "",
    }
}

fn put_command<W: Sink>(lines: &mut Lines<'_, W>, word: &str)
    ensures { Puts W.view (words_line (WordsFault.Command word.now)) lines.old lines.new }
{
    lines.put_all(&[
        Piece::Text("snapraid: unknown command '"),
        Piece::Printed(word),
        Piece::Text("'\n"),
    ]);
}

// The row of the number of an exercise in the table of options.
const NUMBER: u32 = 14;

// What was given that does not go with the command.
fn put_given<W: Sink>(lines: &mut Lines<'_, W>, row: u32)
    ensures { Puts W.view (given_in row) lines.old lines.new }
{
    if row == NUMBER {
        lines.put(b"a number");
    } else {
        lines.put_all(&[
            Piece::Text("option '--"),
            Piece::Text(option_word(row)),
            Piece::Text("'"),
        ]);
    }
}

fn put_unfit<W: Sink>(lines: &mut Lines<'_, W>, row: u32, command: &str)
    ensures { Puts W.view (unfit_line row command.now) lines.old lines.new }
{
    lines.put(b"snapraid: ");
    put_given(lines, row);
    lines.put_all(&[
        Piece::Text(" does not go with '"),
        Piece::Text(command),
        Piece::Text("'\n"),
    ]);
}

// What is bad of the value that was given, or not given.
fn put_bad<W: Sink>(lines: &mut Lines<'_, W>, row: u32)
    ensures { Puts W.view (value_in row) lines.old lines.new }
{
    if row == NUMBER {
        lines.put(b"bad number for 'exercise'");
    } else {
        lines.put_all(&[
            Piece::Text("bad value for '--"),
            Piece::Text(option_word(row)),
            Piece::Text("'"),
        ]);
    }
}

fn put_value<W: Sink>(lines: &mut Lines<'_, W>, row: u32)
    ensures { Puts W.view (value_line row) lines.old lines.new }
{
    lines.put(b"snapraid: ");
    put_bad(lines, row);
    lines.put(b"\n");
}

fn put_words<W: Sink>(lines: &mut Lines<'_, W>, fault: &WordsFault)
    ensures { Puts W.view (words_line fault.now) lines.old lines.new }
{
    match fault {
        WordsFault::Usage => lines.put(b"snapraid: cannot read the arguments\n"),
        WordsFault::Command(word) => put_command(lines, word.as_str()),
        WordsFault::Unfit { option, command } => {
            put_unfit(lines, *option, command.as_str());
        }
        WordsFault::Value { option } => put_value(lines, *option),
        WordsFault::Memory => put_memory(lines),
    }
}

fn put_memory<W: Sink>(lines: &mut Lines<'_, W>)
    ensures { Puts W.view memory_line lines.old lines.new }
{
    lines.put(b"snapraid: out of memory\n");
}

fn put_config<W: Sink>(lines: &mut Lines<'_, W>, file: &str, fault: ConfigFault)
    ensures { Puts W.view (config_line file.now fault) lines.old lines.new }
{
    match fault {
        ConfigFault::BadLine { line, why } => lines.put_all(&[
            Piece::Text("snapraid: "),
            Piece::Printed(file),
            Piece::Text(":"),
            Piece::Number(u128::from(line)),
            Piece::Text(": "),
            Piece::Text(why.as_str()),
            Piece::Text("\n"),
        ]),
        ConfigFault::Memory => put_memory(lines),
    }
}

fn put_no_disk<W: Sink>(lines: &mut Lines<'_, W>, name: &str)
    ensures { Puts W.view (no_disk_line name.now) lines.old lines.new }
{
    lines.put_all(&[
        Piece::Text("snapraid: no disk '"),
        Piece::Printed(name),
        Piece::Text("'\n"),
    ]);
}

fn put_open<W: Sink>(lines: &mut Lines<'_, W>, fault: OpenFault)
    ensures { Puts W.view (open_line fault) lines.old lines.new }
{
    match fault {
        OpenFault::Failed => lines.put(b"snapraid: configuration or opening failed\n"),
        OpenFault::Memory => put_memory(lines),
    }
}

fn put_refusal<W: Sink>(lines: &mut Lines<'_, W>, refusal: &Refusal)
    ensures { Puts W.view (refusal_line refusal.now) lines.old lines.new }
{
    match refusal {
        Refusal::Words(fault) => put_words(lines, fault),
        Refusal::Config { file, fault } => put_config(lines, file.as_str(), *fault),
        Refusal::NoDisk(name) => put_no_disk(lines, name.as_str()),
        Refusal::Unread(fault) | Refusal::Unopened(fault) => put_open(lines, *fault),
    }
}

fn put_damage<W: Sink>(lines: &mut Lines<'_, W>, copy: u32, damage: Damage)
    ensures { Puts W.view (damage_line (copy, damage)) lines.old lines.new }
{
    lines.put_all(&[
        Piece::Text("snapraid: content "),
        Piece::Number(u128::from(copy) + 1),
        Piece::Text(" is damaged at byte "),
        Piece::Number(u128::from(damage.offset)),
        Piece::Text(": "),
        Piece::Text(damage.why.as_str()),
        Piece::Text("\n"),
    ]);
}

// A line for each damaged copy, in order.
fn put_damages<W: Sink>(lines: &mut Lines<'_, W>, damages: &Damages)
    ensures { Puts W.view (flat_map damage_line damages.now) lines.old lines.new }
{
    for i in 0..damages.len() {
        let (copy, damage) = damages.at(i);
        put_damage(lines, copy, damage);
    }
}

fn put_load<W: Sink>(lines: &mut Lines<'_, W>, fault: &LoadFault)
    ensures { Puts W.view (load_line fault.now) lines.old lines.new }
{
    match fault {
        LoadFault::Failed => lines.put(b"snapraid: parity or content failed\n"),
        LoadFault::Damaged(damages) => put_damages(lines, damages),
        LoadFault::Memory => put_memory(lines),
    }
}

/// The name of a table's disk, if there is one.
pub(crate) fn column_name(table: &Table, column: u32) -> Option<&str>
    ensures { option_map (λ name. name.now) result ≡ slice_get (column_names table.now) column }
{
    if column < table.disks() {
        Some(table.name(column))
    } else {
        None
    }
}

/// The name of a configuration's disk, if there is one.
pub(crate) fn disk_name(setup: &Setup, column: u32) -> Option<&str>
    ensures { option_map (λ name. name.now) result ≡ slice_get (disk_names (setup_value setup.now)) column }
{
    match setup.disks.as_slice().get(column as usize) {
        Some(disk) => Some(disk.name.as_str()),
        None => None,
    }
}

fn column_or_sign(table: &Table, column: u32) -> &str
    ensures { result.now ≡ name_or_sign (column_names table.now) column }
{
    match column_name(table, column) {
        Some(name) => name,
        None => "-",
    }
}

fn disk_or_sign(setup: &Setup, column: u32) -> &str
    ensures { result.now ≡ name_or_sign (disk_names (setup_value setup.now)) column }
{
    match disk_name(setup, column) {
        Some(name) => name,
        None => "-",
    }
}

fn put_sizes<W: Sink>(lines: &mut Lines<'_, W>, content: u32, configuration: u32)
    ensures { Puts W.view (size_line content configuration) lines.old lines.new }
{
    lines.put_all(&[
        Piece::Text("snapraid: content has block size "),
        Piece::Number(u128::from(content)),
        Piece::Text(", the configuration "),
        Piece::Number(u128::from(configuration)),
        Piece::Text("\n"),
    ]);
}

fn put_levels<W: Sink>(lines: &mut Lines<'_, W>, content: u32, configuration: u32)
    ensures { Puts W.view (levels_line content configuration) lines.old lines.new }
{
    lines.put_all(&[
        Piece::Text("snapraid: content has "),
        Piece::Number(u128::from(content)),
        Piece::Text(" levels, the configuration "),
        Piece::Number(u128::from(configuration)),
        Piece::Text("\n"),
    ]);
}

fn put_names<'a, W: Sink>(
    lines: &mut Lines<'_, W>,
    content: &'a str,
    column: u32,
    configuration: &'a str,
)
    ensures { Puts W.view (names_line content.now column configuration.now) lines.old lines.new }
{
    lines.put_all(&[
        Piece::Text("snapraid: content has disk '"),
        Piece::Printed(content),
        Piece::Text("' in column "),
        Piece::Number(u128::from(column)),
        Piece::Text(", the configuration '"),
        Piece::Printed(configuration),
        Piece::Text("'\n"),
    ]);
}

fn put_difference<'a, W: Sink>(
    lines: &mut Lines<'_, W>,
    setup: &'a Setup,
    table: &'a Table,
    difference: Difference,
)
    ensures { Puts W.view (difference_line (setup_value setup.now) table.now difference) lines.old lines.new }
{
    match difference {
        Difference::BlockSize {
            content,
            configuration,
        } => put_sizes(lines, content, configuration),
        Difference::Levels {
            content,
            configuration,
        } => put_levels(lines, content, configuration),
        Difference::DiskName { column } => put_names(
            lines,
            column_or_sign(table, column),
            column,
            disk_or_sign(setup, column),
        ),
    }
}

// The name of the disk that an answer names.
fn disk_named(setup: &Setup, answer: Answer) -> &str
    ensures { result.now ≡ disk_named (setup_value setup.now) answer }
{
    match answer.disk() {
        Some(disk) => disk_name(setup, disk).unwrap_or(""),
        None => "",
    }
}

// The path of the file that an answer names.
fn path_named(named: &Option<Table>, answer: Answer) -> &str
    ensures { result.now ≡ path_named named.now answer }
{
    match (named, answer) {
        (Some(table), Answer::Zeroed { disk, rec })
            if disk < table.disks() && rec < table.records(disk) => {
            table.path(disk, rec).as_str()
        }
        _ => "",
    }
}

fn put_ending<W: Sink>(lines: &mut Lines<'_, W>, setup: &Setup, ending: &Ending)
    ensures { Puts W.view (ending_line (setup_value setup.now) ending.now) lines.old lines.new }
{
    match ending {
        Ending::NotLoaded(fault) => put_load(lines, fault),
        Ending::NoTable => put_memory(lines),
        Ending::OtherArray {
            difference,
            content,
        } => put_difference(lines, setup, content, *difference),
        Ending::Answered { answer, named } => {
            lines.tell_answer(
                *answer,
                disk_named(setup, *answer),
                path_named(named, *answer),
            );
        }
    }
}

fn put_end<W: Sink>(lines: &mut Lines<'_, W>, end: &End)
    ensures { Puts W.view (line_of end.now) lines.old lines.new }
{
    match end {
        End::Refused(refusal) => put_refusal(lines, refusal),
        End::Worked { setup, ending } => put_ending(lines, setup, ending),
        End::Exercised(answer) => lines.tell_answer(*answer, "", ""),
    }
}

fn tell_end<W: Sink>(lines: &mut Lines<'_, W>, end: &End)
    ensures puts { Puts W.view (line_of end.now) lines.old lines.new }
    ensures settled { Settled (state_of W.view lines.new) }
{
    put_end(lines, end);
    lines.hand_on();
}

// Writes the line of an end, and answers whether a write failed.
fn write_end<E: Sink>(err: &mut E, end: &End) -> bool
    ensures { Tells (line_of end.now) (between false (E.view err.old)) (between result (E.view err.new)) }
{
    let mut lines = Lines::over(err);
    tell_end(&mut lines, end);
    lines.failed()
}

/// Writes the line of an end, if there is one.
pub(crate) fn say<E: Sink>(err: &mut E, end: &End)
    ensures { IsSaid (line_of end.now) (E.view err.old) (E.view err.new) }
{
    let _failed = write_end(err, end);
}
