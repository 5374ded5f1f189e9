// The last lines of the commands.
ghost use Rattle.std.specs.Prelude.{◌≡◌};
ghost use Rattle.snap_report.specs.Telling.{Settled};
ghost use Rattle.snap_report.specs.State.{state_of, Puts};
ghost use Rattle.snap_report.specs.Pieces.{pieces_text};
ghost use Rattle.snap_report.specs.Text.{sync_text};
ghost use Rattle.snap_report.specs.EndLines.{scrub_text, check_text, fix_text};

use crate::{Lines, Piece};
use disk_model::Sink;

impl<'a, W: Sink> Lines<'a, W> {
    // Tells pieces, and hands them on.
    fn put_last(&mut self, pieces: &[Piece<'_>])
        ensures puts { Puts W.view (pieces_text pieces.now) self.old self.new }
        ensures settled { Settled (state_of W.view self.new) }
    {
        self.put_all(pieces);
        self.hand_on();
    }

    /// The last line of a sync: how many stripes it synced, and how many are pending at its end.
    pub fn end_sync(&mut self, synced: u32, pending: u32)
        ensures puts { Puts W.view (sync_text synced pending) self.old self.new }
        ensures settled { Settled (state_of W.view self.new) }
    {
        self.put_last(&[
            Piece::Text("sync: "),
            Piece::Number(u128::from(synced)),
            Piece::Text(" stripes synced, "),
            Piece::Number(u128::from(pending)),
            Piece::Text(" pending\n"),
        ]);
    }

    /// The last line of a scrub: how many stripes it checked, and how many findings there are.
    pub fn end_scrub(&mut self, checked: u32, findings: u64)
        ensures puts { Puts W.view (scrub_text checked findings) self.old self.new }
        ensures settled { Settled (state_of W.view self.new) }
    {
        self.put_last(&[
            Piece::Text("scrub: "),
            Piece::Number(u128::from(checked)),
            Piece::Text(" stripes checked, "),
            Piece::Number(u128::from(findings)),
            Piece::Text(" findings\n"),
        ]);
    }

    /// The last line of a check.
    pub fn end_check(&mut self, findings: u64)
        ensures puts { Puts W.view (check_text findings) self.old self.new }
        ensures settled { Settled (state_of W.view self.new) }
    {
        self.put_last(&[
            Piece::Text("check: "),
            Piece::Number(u128::from(findings)),
            Piece::Text(" findings\n"),
        ]);
    }

    /// The last line of a fix: how many blocks of files and of levels it wrote anew, and how many findings it left.
    pub fn end_fix(&mut self, blocks: u64, parities: u64, left: u64)
        ensures puts { Puts W.view (fix_text blocks parities left) self.old self.new }
        ensures settled { Settled (state_of W.view self.new) }
    {
        self.put_last(&[
            Piece::Text("fix: "),
            Piece::Number(u128::from(blocks)),
            Piece::Text(" blocks and "),
            Piece::Number(u128::from(parities)),
            Piece::Text(" parities fixed, "),
            Piece::Number(u128::from(left)),
            Piece::Text(" findings left\n"),
        ]);
    }
}
