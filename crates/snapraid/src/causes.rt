// Why a run failed, for whoever has to mend it: behind the lines of the run itself, on standard error.
use disk_host::{DiskFolder, DiskOpener, DiskVault, Failure, Failures, Request};
use disk_model::Sink;
use progress::{MeteredFolder, MeteredVault};
use snap_report::{Lines, Piece};
use snap_top::Outcome;
use std::rt::Files;

// The most files that could not be read of which a run says why.
const MANY: usize = 20;

/// Prints the failures of the objects of a run, and others: first what a run ends at, then the files that could not be
/// read.
pub fn print_causes<W: Sink, R: Files, C, T>(
    err: &mut W,
    opener: &DiskOpener<R>,
    ended: &Outcome<MeteredFolder<'_, DiskFolder<R>, C, T>, MeteredVault<'_, DiskVault<R>, C, T>>,
    others: &Failures,
) {
    let mut causes = Causes {
        lines: Lines::over(err),
        left: MANY,
    };
    for reading in [false, true] {
        causes.put_all(opener.failures(), reading);
        for folder in &ended.folders {
            causes.put_all(folder.get_ref().failures(), reading);
        }
        if let Some(vault) = &ended.vault {
            causes.put_all(vault.get_ref().failures(), reading);
        }
        causes.put_all(others.as_slice(), reading);
    }
    causes.lines.hand_on();
}

#[derive(Drop)]
struct Causes<'a, W: Sink> {
    lines: Lines<'a, W>,
    // how many readings are still told
    left: usize,
}

impl<'a, W: Sink> Causes<'a, W> {
    // Those that are readings, or those that are none.
    fn put_all(&mut self, failures: &[Failure], reading: bool) {
        for failure in failures {
            if failure.request.is_reading() != reading {
                continue;
            }
            if reading {
                if self.left == 0 {
                    return;
                }
                self.left -= 1;
            }
            self.put(failure);
        }
    }

    fn put(&mut self, failure: &Failure) {
        match failure.request {
            Request::FindParity(_) => self.put_parity(failure.name.as_str()),
            request => self.lines.put_all(&[
                Piece::Text("snapraid: "),
                Piece::Text(request.as_str()),
                Piece::Text(" '"),
                Piece::Printed(failure.name.as_str()),
                Piece::Text("': "),
                Piece::Printed(failure.why.as_str()),
                Piece::Text("\n"),
            ]),
        }
    }

    // What to do with a lost file depends on how many its level has, which the configuration says.
    fn put_parity(&mut self, name: &str) {
        self.lines.put_all(&[
            Piece::Text("snapraid: parity file '"),
            Piece::Printed(name),
            Piece::Text("' was not there: mount its disk, make it empty if it is new, "),
            Piece::Text("or give it its full length if it is lost (see the manual)\n"),
        ]);
    }
}
