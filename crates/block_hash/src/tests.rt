//! The vectors of the two standards whose message has 16 bytes or more: the first 16 are the seed.

use super::*;
use std::test::Fail;

// A message cut into seed and block, and what the standard gives for it.
struct Vector {
    kind: Kind,
    seed: &'static [u8; 16],
    block: &'static [u8],
    text: &'static str,
}

const VECTORS: [Vector; 5] = [
    Vector {
        kind: Kind::Md5,
        seed: b"abcdefghijklmnop",
        block: b"qrstuvwxyz",
        text: "c3fcd3d76192e4007dfb496cca67e13b",
    },
    Vector {
        kind: Kind::Md5,
        seed: b"ABCDEFGHIJKLMNOP",
        block: b"QRSTUVWXYZabcdefghijklmnopqrstuvwxyz0123456789",
        text: "d174ab98d277d9f5a5611c2c9f419d9f",
    },
    Vector {
        kind: Kind::Md5,
        seed: b"1234567890123456",
        block: b"7890123456789012345678901234567890123456789012345678901234567890",
        text: "57edf4a22be3c955ac49da2e2107b67a",
    },
    Vector {
        kind: Kind::Sha256,
        seed: b"abcdbcdecdefdefg",
        block: b"efghfghighijhijkijkljklmklmnlmnomnopnopq",
        text: "248d6a61d20638b8e5c026930c3e6039",
    },
    Vector {
        kind: Kind::Sha256,
        seed: b"abcdefghbcdefghi",
        block: b"cdefghijdefghijkefghijklfghijklmghijklmnhijklmnoijklmnopjklmnopqklmnopqrlmnopqrsmnopqrstnopqrstu",
        text: "cf5b16a778af8380036ce59e7b049237",
    },
];

#[test]
fn digests_of_the_standards_vectors(rt: HostRuntime) -> Result<(), Fail> {
    for vector in &VECTORS {
        assert!(rt; vector.block.len() <= 4_194_304);
        let found = digest(vector.kind, vector.seed, vector.block);
        let text = found.to_string(rt.alloc())?;
        assert_eq!(rt; text.as_str(), vector.text);
    }
    Ok(())
}

// The FIPS example of a million times the letter a.
#[test]
fn sha256_of_a_million_letters(rt: HostRuntime) -> Result<(), Fail> {
    let block = vec![in rt.alloc(); b'a'; 999_984]?;
    let found = digest(Kind::Sha256, b"aaaaaaaaaaaaaaaa", block.as_slice());
    let text = found.to_string(rt.alloc())?;
    assert_eq!(rt; text.as_str(), "cdc76e5c9914fb9281a1c7e284d73e67");
    Ok(())
}
