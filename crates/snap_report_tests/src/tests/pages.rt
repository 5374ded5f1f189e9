// In how many writes texts are handed on.
ghost use Rattle.std.specs.Prelude.{◌≡◌, ◌<◌, ◌≤◌, [], length};

use crate::tests::{HASH, RECORDED, SHAPE, table_of};
use disk_model::{Failed, Path, Sink, Text};
use file_table::{BuildFault, Builder, Info, Mark, Table};
use snap_report::events::Event;
use snap_report::{Lines, Report, list_text, status_text, tell};
use std::alloc::Global;
use std::test::Fail;

const PAGE: u64 = 4096;

// The longest text that is put at once in what is printed here, `bad stripe `.
const LONGEST: u64 = 11;

// Counts writes and bytes. `least` are the bytes of the shortest write but the last.
#[derive(Drop)]
struct Counting {
    writes: u64,
    bytes: u64,
    least: u64,
    last: u64,
}

const NOTHING: Counting = Counting {
    writes: 0,
    bytes: 0,
    least: PAGE,
    last: PAGE,
};

impl Sink for Counting {
    ghost use Rattle.disk_model.specs.Sink.{quiet_sink};

    ghost view = { λ _. quiet_sink 0 };

    fn faults(&self) -> u64 {
        0
    }

    fn write(&mut self, bytes: &[u8]) -> Result<(), Failed> {
        self.writes = self.writes.saturating_add(1);
        self.bytes = self.bytes.saturating_add(bytes.len() as u64);
        self.least = self.least.min(self.last);
        self.last = bytes.len() as u64;
        Ok(())
    }
}

// A file of a block, whose name is its number and ten thousand.
fn push_file(builder: &mut Builder, alloc: Global, number: u32) -> Result<(), Fail>
    requires before_infos { builder.old.infos ≡ [] }
    requires column { 0 < length builder.old.columns }
    requires number { number ≤ 1000 }
    ensures before_infos { builder.new.infos ≡ [] }
    ensures column { 0 < length builder.new.columns }
{
    let name = format!(in alloc; "{}", 10_000 + number)?;
    builder.push_record(Path::new(alloc, name.as_str())?, RECORDED)?;
    builder.push_block(number, HASH)?;
    Ok(())
}

// A thousand such files.
fn push_files(builder: &mut Builder, alloc: Global) -> Result<(), Fail>
    requires before_infos { builder.old.infos ≡ [] }
    requires column { 0 < length builder.old.columns }
{
    for number in 0..1000 {
        push_file(builder, alloc, number)?;
    }
    Ok(())
}

// What is known of a thousand bad stripes.
fn push_bad(builder: &mut Builder) -> Result<(), BuildFault> {
    for _ in 0..1000 {
        builder.push_info(Info {
            mark: Mark::Synced,
            last: 100,
            bad: true,
            fresh: true,
        })?;
    }
    Ok(())
}

// One disk with a thousand files of one block each, at stripes that are all bad.
fn long_table(alloc: Global) -> Result<Table, Fail> {
    let mut builder = Builder::new(alloc, SHAPE, 1000)?;
    builder.push_disk(Text::new(alloc, "d1")?)?;
    push_files(&mut builder, alloc)?;
    push_bad(&mut builder)?;
    Ok(builder.finish()?)
}

// A line of `list` has 24 bytes here, and so has its last one. `status` has nine lines of 127 bytes together, and then
// one of 13 to 15 bytes for each stripe.
#[test]
fn list_and_status_are_handed_on_in_pages(rt: HostRuntime) -> Result<(), Fail> {
    let alloc = rt.alloc();
    let table = long_table(alloc)?;
    let mut out = NOTHING;
    let mut lines = Lines::over(&mut out);
    list_text(&mut lines, &table);
    assert!(rt; !lines.failed());
    assert_eq!(rt; out.bytes, 24 * 1000 + 24);
    assert_eq!(rt; out.writes, out.bytes.div_ceil(PAGE));
    assert!(rt; out.least > PAGE - LONGEST);
    let mut out = NOTHING;
    let mut lines = Lines::over(&mut out);
    status_text(&mut lines, &table);
    assert!(rt; !lines.failed());
    assert_eq!(rt; out.bytes, 127 + 13 * 10 + 14 * 90 + 15 * 900);
    assert_eq!(rt; out.writes, out.bytes.div_ceil(PAGE));
    assert!(rt; out.least > PAGE - LONGEST);
    Ok(())
}

// The longest path of a record, each byte of it printed as four.
#[test]
fn the_longest_line_is_handed_on_in_pages(rt: HostRuntime) -> Result<(), Fail> {
    let alloc = rt.alloc();
    let path = "\\".repeat(alloc, 4082)?;
    let table = table_of(alloc, path.as_str())?;
    assert!(rt; table.disks() == 1);
    assert!(rt; table.records(0) == 1);
    let mut reports: Vec<Box<dyn Report>> = Vec::new(alloc);
    let mut out = NOTHING;
    let mut lines = Lines::over(&mut out);
    tell(
        &mut reports,
        &mut lines,
        &table,
        &Event::Restored { disk: 0, rec: 0 },
    );
    assert!(rt; !lines.failed());
    assert_eq!(rt; out.bytes, 9 + 3 + 4 * 4082 + 1);
    assert_eq!(rt; out.writes, 4);
    Ok(())
}
