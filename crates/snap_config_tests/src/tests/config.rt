// Configurations, and what comes of them.
use crate::tests::usual::USUAL;
use array_setup::Disk;
use disk_model::Text;
use snap_config::{ConfigFault, read_config};
use std::alloc::{AllocError, Global};
use std::test::Fail;

// Texts, each with a space behind it.
fn joined(alloc: Global, texts: &[Text]) -> Result<String, AllocError> {
    let mut made = String::new(alloc);
    for text in texts {
        made.push_str(text.as_str())?;
        made.push_str(" ")?;
    }
    Ok(made)
}

fn names_of(alloc: Global, disks: &[Disk]) -> Result<String, AllocError> {
    let mut made = String::new(alloc);
    for disk in disks {
        made.push_str(disk.name.as_str())?;
        made.push_str(" ")?;
    }
    Ok(made)
}

#[test]
fn a_usual_configuration(rt: HostRuntime) -> Result<(), Fail> {
    let alloc = rt.alloc();
    let log = Text::new(alloc, "/var//log/x/")?;
    let Ok(setup) = read_config(alloc, USUAL.as_bytes(), Some(log)) else {
        return Err(Fail::from("refused"));
    };
    let names = names_of(alloc, setup.disks.as_slice())?;
    assert_eq!(rt; names.as_str(), "d1 d2 d3 d4 ");
    let dirs = joined(alloc, setup.places.dirs.as_slice())?;
    assert_eq!(rt;
        dirs.as_str(),
        "/mnt/disk1 /mnt/disk2 /mnt/disk3 /mnt/disk4 "
    );
    let parities = joined(alloc, setup.places.parities.as_slice())?;
    assert_eq!(rt;
        parities.as_str(),
        "/mnt/parity1/snapraid.parity /mnt/parity2/snapraid.2-parity "
    );
    let contents = joined(alloc, setup.places.contents.as_slice())?;
    assert_eq!(rt;
        contents.as_str(),
        "/var/snapraid/snapraid.content /mnt/disk1/snapraid.content /mnt/disk2/snapraid.content "
    );
    assert_eq!(rt; setup.rules.as_slice().len(), 2);
    assert_eq!(rt; setup.block_size, 262_144);
    assert_eq!(rt; setup.autosave, 500_000_000_000);
    assert_eq!(rt; setup.parts.as_slice(), [1, 1].as_slice());
    assert_eq!(rt; setup.split, 15_999_999_934_464);
    assert!(rt; !setup.nohidden);
    let log = setup.log.ok_or("no log")?;
    assert_eq!(rt; log.as_str(), "/var/log/x/");
    Ok(())
}

// Lines that make a setup with any that follow.
const FRONT: &str = "parity /p\ncontent /c\ndata d1 /d1\n";

// The first line that is refused, and why.
fn outcome(alloc: Global, bytes: &[u8]) -> Result<String, AllocError> {
    match read_config(alloc, bytes, None) {
        Ok(_) => String::from_str(alloc, "taken"),
        Err(ConfigFault::BadLine { line, why }) => format!(in alloc; "{line}: {}", why.as_str()),
        Err(ConfigFault::Memory) => String::from_str(alloc, "memory"),
    }
}

// What is behind these lines, and what comes of the whole.
static BEHIND: [(&str, &str); 76] = [
    ("", "taken"),
    ("\n \t \n\r\n# comment\r\n \t# comment\n#", "taken"),
    (
        "include *.txt\r\nexclude\t/a/ \t\r\nnohidden\n \tnohidden\t\n",
        "taken",
    ),
    (
        "blocksize 0256\nhashsize 016\nautosave 0\npool x\nshare x\nsmartctl d1 x",
        "taken",
    ),
    ("pool x\npool x\nshare x\nshare x", "taken"),
    ("blocksize 1", "taken"),
    ("blocksize 4096\nautosave 1000000", "taken"),
    ("content /c,d\ncontent /c d", "taken"),
    ("data\td2 \t /d2//\ndisk dX /d,3", "taken"),
    ("data d2 /\nexclude  a b", "taken"),
    ("data p /p\ndata d- d1\ndata ._- /c", "taken"),
    (
        "6-parity /6\n5-parity /5\n4-parity /4\n3-parity /3\n2-parity /2",
        "taken",
    ),
    ("\nzzz", "5: unknown keyword"),
    ("Data d2 /x", "4: unknown keyword"),
    ("nohidden\r\r", "4: unknown keyword"),
    ("1-parity /x", "4: unknown keyword"),
    ("7-parity /x", "4: unknown keyword"),
    ("hashsize 8", "4: not supported"),
    ("hashsize 16\nhashsize 8", "5: not supported"),
    ("z-parity", "4: not supported"),
    ("z-parity /x,/y", "4: not supported"),
    ("hashsize x", "4: bad value"),
    ("hashsize", "4: bad value"),
    ("blocksize", "4: bad value"),
    ("blocksize 1234567890", "4: bad value"),
    ("blocksize 0000000001", "4: bad value"),
    ("blocksize 0", "4: bad value"),
    ("blocksize 4097", "4: bad value"),
    ("blocksize 1\nblocksize 0", "5: bad value"),
    ("blocksize +1", "4: bad value"),
    ("blocksize 1 # KiB", "4: bad value"),
    ("autosave 1000001", "4: bad value"),
    ("nohidden x", "4: bad value"),
    ("data", "4: bad value"),
    ("data d2", "4: bad value"),
    ("data parity /x", "4: bad value"),
    ("disk 6-parity /x", "4: bad value"),
    ("data d:1 /x", "4: bad value"),
    ("parity", "4: bad value"),
    ("content\t", "4: bad value"),
    ("exclude", "4: bad value"),
    ("include \t", "4: bad value"),
    ("pool", "4: bad value"),
    ("2-parity /x,/y", "taken"),
    ("2-parity /x, /y ,/z", "taken"),
    ("2-parity a,b,c,d,e,f,g,h", "taken"),
    ("splitsize 1", "taken"),
    ("splitsize 1000000", "taken"),
    ("2-parity /x,,/y", "4: bad value"),
    ("2-parity /x,", "4: bad value"),
    ("parity ,", "4: bad value"),
    ("2-parity a,a,,", "4: bad value"),
    ("splitsize 0", "4: bad value"),
    ("splitsize 1000001", "4: bad value"),
    ("splitsize", "4: bad value"),
    ("splitsize 1\nsplitsize 0", "5: bad value"),
    ("2-parity a,a", "4: repeated"),
    ("2-parity a,b,c,d,e,f,g,h,a", "4: repeated"),
    ("2-parity a//b,a/b", "4: repeated"),
    ("2-parity /x,//p", "4: repeated"),
    ("splitsize 1\nsplitsize 1", "5: repeated"),
    ("2-parity a,b,c,d,e,f,g,h,i", "4: too many"),
    ("parity /x", "4: repeated"),
    ("2-parity //c", "4: repeated"),
    ("content //p", "4: repeated"),
    ("content /c", "4: repeated"),
    ("disk d1 /x", "4: repeated"),
    ("disk d2\t//d1/", "4: repeated"),
    ("blocksize 1\nblocksize 1", "5: repeated"),
    ("hashsize 16\nhashsize 16", "5: repeated"),
    ("autosave 0\nautosave 0", "5: repeated"),
    ("exclude a/b", "4: bad pattern"),
    ("include [x]", "4: bad pattern"),
    ("exclude /", "4: bad pattern"),
    ("3-parity /x", "0: missing parity"),
    ("3-parity /x\nzzz", "5: unknown keyword"),
];

// Wholes, and what comes of them.
static WHOLES: [(&[u8], &str); 10] = [
    (b"", "0: missing parity"),
    (b" \t \n\t\n ", "0: missing parity"),
    (b"\r\n\r\n\r", "0: missing parity"),
    (b"2-parity /p\ncontent /c", "0: missing parity"),
    (b"parity /p\ndata d1 /a", "0: missing content"),
    (b"parity /p\ncontent /c", "0: missing data"),
    (b"data d1 /a\nzzz", "2: unknown keyword"),
    (b"# \xff", "1: not UTF-8"),
    (b"parity /p\n\xffparity /p", "2: not UTF-8"),
    (b"zzz\n\xff", "1: unknown keyword"),
];

#[test]
fn lines_and_what_comes_of_them(rt: HostRuntime) -> Result<(), Fail> {
    let alloc = rt.alloc();
    for (lines, want) in &BEHIND {
        let text = format!(in alloc; "{FRONT}{lines}")?;
        let came = outcome(alloc, text.as_bytes())?;
        assert_eq!(rt; came.as_str(), *want, "{lines}");
    }
    for (bytes, want) in &WHOLES {
        let came = outcome(alloc, bytes)?;
        assert_eq!(rt; came.as_str(), *want);
    }
    Ok(())
}

// Front, and as many lines as these, each of a file or folder of its own; the keywords take turns.
fn numbered(
    alloc: Global,
    front: &str,
    keywords: [&str; 2],
    lines: u32,
) -> Result<String, AllocError> {
    let mut text = String::from_str(alloc, front)?;
    for number in 0..lines {
        let [even, odd] = keywords;
        let keyword = if number % 2 == 0 { even } else { odd };
        write!(text, "{keyword}{number} /{number}\n")?;
    }
    Ok(text)
}

#[test]
fn as_many_as_there_may_be_and_one_more(rt: HostRuntime) -> Result<(), Fail> {
    let alloc = rt.alloc();
    for (front, keywords, lines, want) in [
        (
            "parity /p\ncontent /c\n",
            ["data d", "disk d"],
            251,
            "taken",
        ),
        (
            "parity /p\ncontent /c\n",
            ["data d", "disk d"],
            252,
            "254: too many",
        ),
        (
            "parity /p\ndata d /d\n",
            ["content ", "content "],
            64,
            "taken",
        ),
        (
            "parity /p\ndata d /d\n",
            ["content ", "content "],
            65,
            "67: too many",
        ),
    ] {
        let text = numbered(alloc, front, keywords, lines)?;
        let came = outcome(alloc, text.as_bytes())?;
        assert_eq!(rt; came.as_str(), want);
    }
    for (length, want) in [(1_048_576, "0: missing parity"), (1_048_577, "0: too long")] {
        let bytes = vec![in alloc; b'#'; length]?;
        let came = outcome(alloc, bytes.as_slice())?;
        assert_eq!(rt; came.as_str(), want);
    }
    Ok(())
}
