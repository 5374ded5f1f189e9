// What `list` prints.
ghost use Rattle.std.specs.Prelude.{◌≡◌, ◌<◌, length};
ghost use Rattle.file_table.specs.Table.{column_at, record_at};
ghost use Rattle.snap_report.specs.Telling.{Settled};
ghost use Rattle.snap_report.specs.State.{state_of, Puts};
ghost use Rattle.snap_report.specs.EventFits.{IsRecordOf};
ghost use Rattle.snap_report.specs.Text.{totals_text};
ghost use Rattle.snap_report.specs.ListText.{record_line, column_lines, list_lines, list_text};

use crate::totals::totals_of;
use crate::{Lines, Piece};
use disk_model::Sink;
use file_table::Table;

impl<'a, W: Sink> Lines<'a, W> {
    fn put_record(&mut self, table: &Table, disk: u32, rec: u32)
        requires { IsRecordOf table.now.columns disk rec }
        ensures { Puts W.view
            (record_line (column_at table.now.columns disk).name (record_at table.now.columns disk rec))
            self.old self.new }
    {
        self.put_all(&[
            Piece::Meta(table.meta(disk, rec)),
            Piece::Text(" "),
            Piece::File(table.name(disk), table.path(disk, rec).as_str()),
            Piece::Text("\n"),
        ]);
    }

    fn put_column(&mut self, table: &Table, disk: u32)
        requires { disk < length table.now.columns }
        ensures { Puts W.view (column_lines (column_at table.now.columns disk)) self.old self.new }
    {
        for rec in 0..table.records(disk) {
            self.put_record(table, disk, rec);
        }
    }

    fn put_columns(&mut self, table: &Table)
        ensures { Puts W.view (list_lines table.now.columns) self.old self.new }
    {
        for disk in 0..table.disks() {
            self.put_column(table, disk);
        }
    }

    fn put_totals(&mut self, files: u64, bytes: u128)
        ensures { Puts W.view (totals_text files bytes) self.old self.new }
    {
        self.put_all(&[
            Piece::Number(u128::from(files)),
            Piece::Text(" files, "),
            Piece::Number(bytes),
            Piece::Text(" bytes\n"),
        ]);
    }
}

/// Tells a line for each file, in order of columns and paths, and how many files and bytes there are. Full
/// pages are handed on, and not one write a line.
pub fn list_text<W: Sink>(lines: &mut Lines<'_, W>, table: &Table)
    ensures puts { Puts W.view (list_text table.now.columns) lines.old lines.new }
    ensures settled { Settled (state_of W.view lines.new) }
{
    lines.put_columns(table);
    let totals = totals_of(table);
    lines.put_totals(totals.files, totals.bytes);
    lines.hand_on();
}
