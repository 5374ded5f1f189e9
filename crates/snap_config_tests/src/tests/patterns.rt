// Patterns, and the paths that they match.
use array_setup::{PatternFault, matches, read_pattern};
use disk_model::Path;
use std::alloc::Global;
use std::test::Fail;

fn is_match(alloc: Global, pattern: &str, path: &str) -> Result<bool, Fail> {
    let pattern = read_pattern(alloc, pattern)?;
    let path = Path::new(alloc, path)?;
    Ok(matches(&pattern, &path))
}

#[test]
fn texts_that_are_no_patterns(rt: HostRuntime) -> Result<(), Fail> {
    for text in [
        "", "/", "a/b", "a/b/", "[x]", "a**", "a//", "//", "//a", "/a//b",
    ] {
        let made = read_pattern(rt.alloc(), text);
        assert_eq!(rt; made.err(), Some(PatternFault::Bad), "{text}");
    }
    Ok(())
}

#[test]
fn paths_by_the_form_of_the_pattern(rt: HostRuntime) -> Result<(), Fail> {
    for (pattern, path, want) in [
        ("*.txt", "a/x.txt", true),
        ("*.txt", "x.txt/y", false),
        ("x.txt", "a/x.txt", true),
        ("X.txt", "x.txt", false),
        ("a/", "a/x", true),
        ("a/", "b/a/x", true),
        ("a/", "b/a", false),
        ("a*/", "b/abc/x", true),
        ("/a/*.txt", "a/x.txt", true),
        ("/a/*.txt", "b/a/x.txt", false),
        ("/*.txt", "a/x.txt", false),
        ("/a?b", "a/b", false),
        ("/a/b/", "a/b/c", true),
        ("/a/b/", "a/b/c/d", true),
        ("/a/b/", "a/b", false),
        ("/a/b/", "c/a/b/d", false),
        ("/*/", "a/b/c", true),
        ("*", "a/b", true),
        ("a*b*c", "axbxbxc", true),
        ("a*b*c", "axbxbx", false),
        ("*aab*", "aaaabc", true),
        ("??", "é!", true),
        ("??", "é", false),
        ("*?é", "xé", true),
    ] {
        assert_eq!(rt;
            is_match(rt.alloc(), pattern, path)?,
            want,
            "{pattern} {path}"
        );
    }
    Ok(())
}
