// Which files are kept.
use crate::tests::usual::USUAL;
use array_setup::keeps;
use disk_model::Path;
use snap_config::read_config;
use std::test::Fail;

const EXCLUDING: &str = "parity /d1/p\ncontent /c\ncontent /d1/c\ndata d1 /d1/\nexclude /a/\n";

const INCLUDING: &str =
    "parity /p.txt\ncontent /c.txt\ncontent //d//x.txt\ndata d1 /\ndata d2 /d\nexclude /a/\ninclude *.txt\nnohidden\n";

const MIXED: &str =
    "parity p\ncontent c\ndata d1 .\ninclude /a/b/\nexclude /a/\ninclude *.TXT\nexclude b?\n";

static FILES: [(&str, usize, &str, bool); 41] = [
    // content files of two of the disks, and their drafts
    (USUAL, 0, "snapraid.content", false),
    (USUAL, 0, "snapraid.content.tmp", false),
    (USUAL, 1, "snapraid.content", false),
    (USUAL, 1, "snapraid.content.tmp", false),
    (USUAL, 2, "snapraid.content", true),
    (USUAL, 2, "snapraid.content.tmp", false),
    (USUAL, 3, "a/snapraid.content", true),
    (USUAL, 3, "a/b.tmp", false),
    (USUAL, 3, "lost+found/b", false),
    (USUAL, 3, "a/lost+found/b", true),
    (USUAL, 3, "lost+found", true),
    // own files, and what no rule matches where the last one leaves files out
    (EXCLUDING, 0, "a/x.txt", false),
    (EXCLUDING, 0, "b/a/x.txt", true),
    (EXCLUDING, 0, "p", false),
    (EXCLUDING, 0, "p.tmp", true),
    (EXCLUDING, 0, "c", false),
    (EXCLUDING, 0, "c.tmp", false),
    (EXCLUDING, 0, "c.tmp.tmp", true),
    (EXCLUDING, 0, "b/c", true),
    (EXCLUDING, 0, ".hidden", true),
    (EXCLUDING, 0, "x.unrecoverable", false),
    (EXCLUDING, 0, "x.unrecoverable/y", false),
    // the root as a folder, hidden files, and a last rule that keeps files
    (INCLUDING, 0, "a/x.txt", false),
    (INCLUDING, 0, "b/x.txt", true),
    (INCLUDING, 0, "b/x.jpg", false),
    (INCLUDING, 0, "b/.x.txt", false),
    (INCLUDING, 0, ".b/x.txt", false),
    (INCLUDING, 0, "b./x.txt", true),
    (INCLUDING, 0, "p.txt", false),
    (INCLUDING, 1, "p.txt", true),
    (INCLUDING, 0, "d/x.txt", false),
    (INCLUDING, 1, "x.txt", false),
    (INCLUDING, 1, "d/x.txt", true),
    // the first rule that matches decides, and a name of another folder is no own file
    (MIXED, 0, "a/b/c", true),
    (MIXED, 0, "a/c.TXT", false),
    (MIXED, 0, "bc", false),
    (MIXED, 0, "bcd", true),
    (MIXED, 0, "b.TXT", true),
    (MIXED, 0, "b.txt", true),
    (MIXED, 0, "p", true),
    (MIXED, 0, "c", true),
];

#[test]
fn files_that_are_kept(rt: HostRuntime) -> Result<(), Fail> {
    let alloc = rt.alloc();
    for (lines, column, path, want) in &FILES {
        let Ok(setup) = read_config(alloc, lines.as_bytes(), None) else {
            return Err(Fail::from("refused"));
        };
        let known = *column < 4 && *column < setup.disks.as_slice().len();
        assert!(rt; known);
        let path = Path::new(alloc, path)?;
        assert!(rt;
            keeps(&setup, *column as u32, &path) == *want,
            "{}",
            path.as_str()
        );
    }
    Ok(())
}
