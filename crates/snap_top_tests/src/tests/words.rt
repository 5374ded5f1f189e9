// Words that are refused. Nothing is opened then.
use crate::tests::usual::REFUSED;
use snap_top_memory::cases::{Case, plays};
use std::test::Fail;

const USAGE: Case = Case {
    err: "snapraid: cannot read the arguments\n",
    ..REFUSED
};

#[test]
fn refused_words(rt: HostRuntime) -> Result<(), Fail> {
    static CASES: [Case; 12] = [
        Case {
            words: &["snapraid"],
            ..USAGE
        },
        Case {
            words: &["snapraid", "list", "-c"],
            ..USAGE
        },
        Case {
            words: &["snapraid", "list", "-C", "a"],
            ..USAGE
        },
        Case {
            words: &["snapraid", "--help"],
            ..USAGE
        },
        Case {
            words: &["snapraid", "frob", "-c", "FILE"],
            err: "snapraid: unknown command 'frob'\n",
            ..REFUSED
        },
        Case {
            words: &["snapraid", "a\\b", "-c", "FILE"],
            err: "snapraid: unknown command 'a\\x5cb'\n",
            ..REFUSED
        },
        Case {
            words: &["snapraid", "list", "-c", "FILE", "--readers", "4"],
            err: "snapraid: option '--readers' does not go with 'list'\n",
            ..REFUSED
        },
        Case {
            words: &["snapraid", "status", "-Z", "-m"],
            err: "snapraid: option '--filter-missing' does not go with 'status'\n",
            ..REFUSED
        },
        Case {
            words: &["snapraid", "status", "--older-than", "x"],
            err: "snapraid: option '--older-than' does not go with 'status'\n",
            ..REFUSED
        },
        Case {
            words: &["snapraid", "exercise"],
            err: "snapraid: bad number for 'exercise'\n",
            ..REFUSED
        },
        Case {
            words: &["snapraid", "exercise", "x"],
            err: "snapraid: bad number for 'exercise'\n",
            ..REFUSED
        },
        Case {
            words: &["snapraid", "list", "5"],
            err: "snapraid: a number does not go with 'list'\n",
            ..REFUSED
        },
    ];
    plays(&rt, rt.alloc(), &CASES)
}
