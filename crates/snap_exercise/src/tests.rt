// What an exercise tells of a few numbers.
use crate::exercise;
use disk_model::{Failed, Sink};
use snap_report::Lines;
use std::str;
use std::test::Fail;

// Keeps what is written to it.
#[derive(Drop)]
struct Kept {
    text: Vec<u8>,
}

impl Sink for Kept {
    ghost use Rattle.disk_model.specs.Sink.{quiet_sink};

    ghost view = { λ _. quiet_sink 0 };

    fn faults(&self) -> u64 {
        0
    }

    // A text that memory refuses is missed in the comparison.
    fn write(&mut self, bytes: &[u8]) -> Result<(), Failed> {
        let _kept = self.text.extend_from_slice(bytes);
        Ok(())
    }
}

// A number, and what its exercise tells. Of four files in a row one has no block, and the others have one to three.
const TEXTS: [(u16, &str); 3] = [
    (
        0,
        "exercise 0: 8 files, 8400 bytes, 3 stripes\nsync: 3 stripes synced, 0 pending\nfix: 2 blocks and 0 parities fixed, 0 findings left\ncheck: 0 findings\ntrees equal\n",
    ),
    (
        3,
        "exercise 3: 32 files, 33600 bytes, 6 stripes\nsync: 6 stripes synced, 0 pending\nfix: 15 blocks and 0 parities fixed, 0 findings left\ncheck: 0 findings\ntrees equal\n",
    ),
    (
        999,
        "exercise 999: 8000 files, 8400000 bytes, 1500 stripes\nsync: 1500 stripes synced, 0 pending\nfix: 3750 blocks and 0 parities fixed, 0 findings left\ncheck: 0 findings\ntrees equal\n",
    ),
];

#[test]
fn an_exercise_tells_its_text(rt: HostRuntime) -> Result<(), Fail> {
    for (n, text) in TEXTS {
        let mut out = Kept {
            text: Vec::new(rt.alloc()),
        };
        let mut lines = Lines::over(&mut out);
        assert!(rt; exercise(&rt, rt.alloc(), u32::from(n), &mut lines)?);
        assert!(rt; !lines.failed());
        assert_eq!(rt; str::from_utf8(out.text.as_slice())?, text);
    }
    Ok(())
}
