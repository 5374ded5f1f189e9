// A scripted folder answers by what its files are at each call.
use crate::tests::play::of_file;
use crate::tests::steps::Answer::{self, Done, Missing};
use crate::tests::steps::FileStep::{self, Lists, Look, Reads};
use crate::tests::steps::STAMP;
use disk_memory::{Event, MemFolder, ScriptedFolder};
use disk_model::{Folder, Meta, Path, Stamp};
use std::alloc::Global;
use std::test::Fail;

const OTHER: Stamp = Stamp {
    seconds: -8,
    nanos: 999_999_999,
};

const WHOLE: Answer = Answer::Meta(Meta {
    size: 4,
    stamp: STAMP,
});

const CUT: Answer = Answer::Meta(Meta {
    size: 2,
    stamp: STAMP,
});

const LONGER: Answer = Answer::Meta(Meta {
    size: 6,
    stamp: OTHER,
});

// One file is cut, grows with another stamp, and is taken away; another is not there.
fn scripted(alloc: Global) -> Result<ScriptedFolder, Fail> {
    let mut base = MemFolder::new(alloc, true);
    base.put(Path::new(alloc, "a")?, STAMP, b"text")?;
    let mut script = Vec::new(alloc);
    for (call, path, stamp, text) in [
        (1u64, "b", OTHER, "none"),
        (2, "a", STAMP, "te"),
        (4, "a", OTHER, "text and more"),
        (4, "a", OTHER, "longer"),
    ] {
        let bytes = Vec::from_slice(alloc, text.as_bytes())?;
        script.push(Event::rewrites(call, Path::new(alloc, path)?, stamp, bytes))?;
    }
    script.push(Event::removes(6, Path::new(alloc, "a")?))?;
    Ok(ScriptedFolder::new(base, script))
}

#[test]
fn a_scripted_folder_answers_by_what_it_holds_then(rt: HostRuntime) -> Result<(), Fail> {
    static STEPS: [(FileStep, Answer); 7] = [
        (Look(false), WHOLE),
        (Look(false), CUT),
        (Reads(false, 0, 2, b"te\x09\x09\x09\x09"), Done),
        (Look(false), LONGER),
        (Reads(false, 0, 6, b"longer"), Done),
        (Look(false), Missing),
        (Lists(&[]), Done),
    ];
    let alloc = rt.alloc();
    let mut folder = scripted(alloc)?;
    let path = Path::new(alloc, "a")?;
    for (step, answer) in &STEPS {
        assert_eq!(rt; of_file(alloc, &mut folder, &path, *step), *answer);
    }
    assert_eq!(rt; folder.faults(), 0);
    Ok(())
}
