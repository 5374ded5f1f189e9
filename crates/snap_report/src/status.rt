// What `status` prints.
ghost use Rattle.std.specs.Prelude.{◌≡◌, ◌*◌, ◌^◌, ◌<◌, ◌≤◌, length};
ghost use Rattle.file_table.specs.Table.{column_at, column_blocks};
ghost use Rattle.snap_report.specs.Telling.{Settled};
ghost use Rattle.snap_report.specs.State.{state_of, Puts};
ghost use Rattle.snap_report.specs.StatusText.{number_line, counts_text, oldest_line, disk_line, disks_text, free_in, bad_line, bad_text, status_text};

use crate::stripes::{marks_of, oldest};
use crate::totals::totals_of;
use crate::{Lines, Piece};
use disk_model::Sink;
use file_table::Table;

// How many positions a column has no block at: each of its blocks stands at a position of its own.
fn free_of(table: &Table, disk: u32) -> u128
    requires { disk < length table.now.columns }
    ensures { result ≡ free_in (length table.now.infos) (column_at table.now.columns disk) }
{
    u128::from(table.length()).saturating_sub(blocks_of(table, disk))
}

// How many blocks a column has.
fn blocks_of(table: &Table, disk: u32) -> u128
    requires { disk < length table.now.columns }
    ensures { result ≡ length (column_blocks (column_at table.now.columns disk)) }
{
    let mut blocks: u128 = 0;
    for rec in 0..table.records(disk) {
        blocks += table.blocks(disk, rec).len() as u128;
    }
    blocks
}

impl<'a, W: Sink> Lines<'a, W> {
    fn put_number_line(&mut self, word: &str, number: u128)
        ensures { Puts W.view (number_line word.now number) self.old self.new }
    {
        self.put_all(&[Piece::Text(word), Piece::Number(number), Piece::Text("\n")]);
    }

    fn put_counts(&mut self, table: &Table)
        ensures { Puts W.view (counts_text table.now) self.old self.new }
    {
        let totals = totals_of(table);
        let marks = marks_of(table);
        self.put_number_line("files ", u128::from(totals.files));
        self.put_number_line("bytes ", totals.bytes);
        self.put_number_line("stripes ", u128::from(table.length()));
        self.put_number_line("synced ", u128::from(marks.synced));
        self.put_number_line("pending ", u128::from(marks.pending));
        self.put_number_line("fresh ", u128::from(marks.fresh));
        self.put_number_line("bad ", u128::from(marks.bad));
    }

    fn put_oldest(&mut self, table: &Table)
        ensures { Puts W.view (oldest_line table.now) self.old self.new }
    {
        match oldest(table) {
            Some(last) => self.put_number_line("oldest ", u128::from(last)),
            None => self.put(b"oldest -\n"),
        }
    }

    fn put_disk(&mut self, table: &Table, disk: u32)
        requires { disk < length table.now.columns }
        ensures { Puts W.view
            (disk_line (length table.now.infos) (column_at table.now.columns disk))
            self.old self.new }
    {
        self.put_all(&[
            Piece::Text("disk "),
            Piece::Text(table.name(disk)),
            Piece::Text(" files "),
            Piece::Number(u128::from(table.records(disk))),
            Piece::Text(" blocks "),
            Piece::Number(blocks_of(table, disk)),
            Piece::Text(" free "),
            Piece::Number(free_of(table, disk)),
            Piece::Text("\n"),
        ]);
    }

    fn put_disks(&mut self, table: &Table)
        ensures { Puts W.view (disks_text table.now) self.old self.new }
    {
        for disk in 0..table.disks() {
            self.put_disk(table, disk);
        }
    }

    // A line for a bad stripe.
    fn put_if_bad(&mut self, table: &Table, stripe: u32)
        requires { stripe < length table.now.infos }
        ensures { Puts W.view (bad_line table.now stripe) self.old self.new }
    {
        if table.info(stripe).bad {
            self.put_number_line("bad stripe ", u128::from(stripe));
        }
    }

    fn put_bad(&mut self, table: &Table)
        ensures { Puts W.view (bad_text table.now) self.old self.new }
    {
        for stripe in 0..table.length() {
            self.put_if_bad(table, stripe);
        }
    }
}

/// Tells how much there is, what is known of the stripes, a line for each disk, and one for each bad stripe.
/// Full pages are handed on, and not one write a line.
pub fn status_text<W: Sink>(lines: &mut Lines<'_, W>, table: &Table)
    ensures puts { Puts W.view (status_text table.now) lines.old lines.new }
    ensures settled { Settled (state_of W.view lines.new) }
{
    lines.put_counts(table);
    lines.put_oldest(table);
    lines.put_disks(table);
    lines.put_bad(table);
    lines.hand_on();
}
