// The lines of events.
ghost use Rattle.std.specs.Prelude.{◌≡◌, ◌<◌, []};
ghost use Rattle.snap_report.specs.Telling.{Settled};
ghost use Rattle.snap_report.specs.State.{state_of, Puts};
ghost use Rattle.snap_report.specs.Pieces.{piece_text};
ghost use Rattle.snap_report.specs.EventFits.{IsRecordOf};
ghost use Rattle.snap_report.specs.EventFits.{Fits};
ghost use Rattle.snap_report.specs.EventLines.{event_line, file_event, block_event, level_event};
ghost use Rattle.snap_report.specs.Text.{record_text};

use crate::events::Event;
use crate::{Lines, Piece};
use block_hash::Digest16;
use disk_model::{Meta, Sink};
use file_table::Table;

// Where in the array: the stripe, the record of a disk, and the number of its block.
#[derive(Clone, Copy)]
struct Place {
    stripe: u32,
    disk: u32,
    rec: u32,
    index: u32,
}

impl Place {
    fn new(stripe: u32, disk: u32, rec: u32, index: u32) -> Place
        ensures { result ≡ record { stripe = stripe; disk = disk; rec = rec; index = index } }
    {
        Place {
            stripe,
            disk,
            rec,
            index,
        }
    }
}

// The file of a record.
fn file(table: &Table, disk: u32, rec: u32) -> Piece<'_>
    requires { IsRecordOf table.now.columns disk rec }
    ensures { piece_text result ≡ record_text table.now.columns disk rec }
{
    Piece::File(table.name(disk), table.path(disk, rec).as_str())
}

impl<'a, W: Sink> Lines<'a, W> {
    fn put_changed(&mut self, table: &Table, disk: u32, rec: u32, found: Option<Meta>)
        requires { IsRecordOf table.now.columns disk rec }
        ensures { Puts W.view
            (event_line table.now.columns (Event.Changed disk rec found))
            self.old self.new }
    {
        self.put_all(&[
            Piece::Text("changed "),
            file(table, disk, rec),
            Piece::Text(" recorded "),
            Piece::Meta(table.meta(disk, rec)),
            Piece::Found(found),
            Piece::Text("\n"),
        ]);
    }

    fn put_changed_block(&mut self, table: &Table, place: Place, found: Option<Meta>, got: u32)
        requires { IsRecordOf table.now.columns place.disk place.rec }
        ensures { Puts W.view
            (event_line table.now.columns (Event.ChangedBlock place.stripe place.disk place.rec place.index found got))
            self.old self.new }
    {
        self.put_all(&[
            Piece::Text("changed-block "),
            Piece::Number(u128::from(place.stripe)),
            Piece::Text(" "),
            file(table, place.disk, place.rec),
            Piece::Text(" "),
            Piece::Number(u128::from(place.index)),
            Piece::Text(" recorded "),
            Piece::Meta(table.meta(place.disk, place.rec)),
            Piece::Found(found),
            Piece::Text(" got "),
            Piece::Number(u128::from(got)),
            Piece::Text("\n"),
        ]);
    }

    fn put_silent(&mut self, table: &Table, place: Place, recorded: Digest16, found: Digest16)
        requires { IsRecordOf table.now.columns place.disk place.rec }
        ensures { Puts W.view
            (event_line table.now.columns (Event.Silent place.stripe place.disk place.rec place.index recorded found))
            self.old self.new }
    {
        self.put_all(&[
            Piece::Text("silent "),
            Piece::Number(u128::from(place.stripe)),
            Piece::Text(" "),
            file(table, place.disk, place.rec),
            Piece::Text(" "),
            Piece::Number(u128::from(place.index)),
            Piece::Text(" recorded "),
            Piece::Hash(recorded),
            Piece::Text(" found "),
            Piece::Hash(found),
            Piece::Text("\n"),
        ]);
    }

    // A word, and where a block is.
    fn put_block<'b>(&mut self, word: &'b str, table: &'b Table, place: Place)
        requires { IsRecordOf table.now.columns place.disk place.rec }
        ensures { Puts W.view
            (block_event table.now.columns word.now place.stripe place.disk place.rec place.index)
            self.old self.new }
    {
        self.put_all(&[
            Piece::Text(word),
            Piece::Number(u128::from(place.stripe)),
            Piece::Text(" "),
            file(table, place.disk, place.rec),
            Piece::Text(" "),
            Piece::Number(u128::from(place.index)),
            Piece::Text("\n"),
        ]);
    }

    // A word, and a block of a level.
    fn put_level_block(&mut self, word: &str, stripe: u32, level: u32)
        ensures { Puts W.view (level_event word.now stripe level) self.old self.new }
    {
        self.put_all(&[
            Piece::Text(word),
            Piece::Number(u128::from(stripe)),
            Piece::Text(" "),
            Piece::Level(level),
            Piece::Text("\n"),
        ]);
    }

    fn put_unsynced(&mut self, stripe: u32)
        ensures { Puts W.view (event_line [] (Event.Unsynced stripe)) self.old self.new }
    {
        self.put_all(&[
            Piece::Text("unsynced "),
            Piece::Number(u128::from(stripe)),
            Piece::Text("\n"),
        ]);
    }

    // A word, and a file.
    fn put_file_event<'b>(&mut self, word: &'b str, table: &'b Table, disk: u32, rec: u32)
        requires { IsRecordOf table.now.columns disk rec }
        ensures { Puts W.view (file_event table.now.columns word.now disk rec) self.old self.new }
    {
        self.put_all(&[Piece::Text(word), file(table, disk, rec), Piece::Text("\n")]);
    }

    // Tells an event's line.
    fn put_event(&mut self, table: &Table, event: &Event)
        requires { Fits table.now.columns event.now }
        ensures { Puts W.view (event_line table.now.columns event.now) self.old self.new }
    {
        match *event {
            Event::Changed { disk, rec, found } => self.put_changed(table, disk, rec, found),
            Event::ChangedBlock {
                stripe,
                disk,
                rec,
                index,
                found,
                got,
            } => self.put_changed_block(table, Place::new(stripe, disk, rec, index), found, got),
            Event::Silent {
                stripe,
                disk,
                rec,
                index,
                recorded,
                found,
            } => self.put_silent(table, Place::new(stripe, disk, rec, index), recorded, found),
            Event::Io {
                stripe,
                disk,
                rec,
                index,
            } => self.put_block("io ", table, Place::new(stripe, disk, rec, index)),
            Event::ParityIo { stripe, level } => self.put_level_block("io-parity ", stripe, level),
            Event::Parity { stripe, level } => self.put_level_block("wrong-parity ", stripe, level),
            Event::Unsynced { stripe } => self.put_unsynced(stripe),
            Event::Lost {
                stripe,
                disk,
                rec,
                index,
            } => self.put_block(
                "unrecoverable ",
                table,
                Place::new(stripe, disk, rec, index),
            ),
            Event::Blocked { disk, rec } => self.put_file_event("blocked ", table, disk, rec),
            Event::Fixed {
                stripe,
                disk,
                rec,
                index,
            } => self.put_block("fixed ", table, Place::new(stripe, disk, rec, index)),
            Event::FixedParity { stripe, level } => self.put_level_block(
                "fixed-parity ",
                stripe,
                level,
            ),
            Event::Restored { disk, rec } => self.put_file_event("restored ", table, disk, rec),
            Event::Renamed { disk, rec } => self.put_file_event("renamed ", table, disk, rec),
            Event::NoStamp { disk, rec } => self.put_file_event("no-stamp ", table, disk, rec),
        }
    }

    /// Tells an event's line, and hands it on.
    pub(crate) fn tell(&mut self, table: &Table, event: &Event)
        requires { Fits table.now.columns event.now }
        ensures puts { Puts W.view (event_line table.now.columns event.now) self.old self.new }
        ensures settled { Settled (state_of W.view self.new) }
    {
        self.put_event(table, event);
        self.hand_on();
    }
}
