// Configurations that are refused. Nothing is opened then.
use crate::tests::usual::REFUSED;
use snap_top_memory::arrays::{Array, Disk, EMPTY};
use snap_top_memory::cases::{Case, LISTED, plays};
use std::alloc::Global;
use std::test::Fail;
use std::thread::Threads;

fn refuses<'a, R: Threads + Sync>(
    rt: &R,
    alloc: Global,
    config: &'a str,
    err: &'a str,
) -> Result<(), Fail> {
    let case = Case {
        array: Array { config, ..EMPTY },
        err,
        ..REFUSED
    };
    plays(rt, alloc, &[case])
}

#[test]
fn refused_lines(rt: HostRuntime) -> Result<(), Fail> {
    static CASES: [(&str, &str); 10] = [
        ("parity", "snapraid: FILE:1: bad value\n"),
        ("\nsmart a\n", "snapraid: FILE:2: unknown keyword\n"),
        ("# a\nz-parity p\n", "snapraid: FILE:2: not supported\n"),
        ("parity p,,q\n", "snapraid: FILE:1: bad value\n"),
        ("parity p\nparity q\n", "snapraid: FILE:2: repeated\n"),
        ("exclude a/b\\\n", "snapraid: FILE:1: bad pattern\n"),
        (
            "content c\ndata d1 d\n",
            "snapraid: FILE:0: missing parity\n",
        ),
        (
            "parity p\ndata d1 d\n",
            "snapraid: FILE:0: missing content\n",
        ),
        ("parity p\ncontent c\n", "snapraid: FILE:0: missing data\n"),
        ("blocksize 0\n", "snapraid: FILE:1: bad value\n"),
    ];
    for (config, err) in &CASES {
        refuses(&rt, rt.alloc(), config, err)?;
    }
    Ok(())
}

#[test]
fn the_name_of_a_refused_file(rt: HostRuntime) -> Result<(), Fail> {
    static CASES: [Case; 1] = [Case {
        words: &["snapraid", "list", "-c", "a\tb"],
        array: Array {
            config: "",
            ..EMPTY
        },
        err: "snapraid: a\\x09b:0: missing parity\n",
        ..REFUSED
    }];
    plays(&rt, rt.alloc(), &CASES)
}

// A configuration of so many disks, the first at line 3.
fn config_of(alloc: Global, disks: usize) -> Result<String, Fail> {
    let mut config = String::from_str(alloc, "parity p\ncontent c\n")?;
    for disk in 0..disks {
        let line = format!(in alloc; "data d{disk} f{disk}\n")?;
        config.push_str(line.as_str())?;
    }
    Ok(config)
}

fn plays_with<'a, R: Threads + Sync>(
    rt: &R,
    alloc: Global,
    config: &'a str,
    disks: &'a [Disk<'a>],
    case: &Case<'a>,
) -> Result<(), Fail> {
    let array = Array {
        config,
        disks,
        ..EMPTY
    };
    plays(rt, alloc, &[Case { array, ..*case }])
}

// Makes a run over so many disks.
fn plays_over<R: Threads + Sync>(
    rt: &R,
    alloc: Global,
    disks: &'static [Disk<'static>],
    case: &'static Case<'static>,
) -> Result<(), Fail> {
    let config = config_of(alloc, disks.len())?;
    plays_with(rt, alloc, config.as_str(), disks, case)
}

#[test]
fn at_most_251_disks(rt: HostRuntime) -> Result<(), Fail> {
    static DISKS: [Disk<'static>; 252] = [&[]; 252];
    static NO_FILES: Case = Case {
        out: "0 files, 0 bytes\n",
        ..LISTED
    };
    static TOO_MANY: Case = Case {
        put: &[],
        err: "snapraid: FILE:254: too many\n",
        ..REFUSED
    };
    plays_over(&rt, rt.alloc(), &DISKS[..251], &NO_FILES)?;
    plays_over(&rt, rt.alloc(), &DISKS, &TOO_MANY)
}
