//! The eight digests beside the standard's vectors, beside one digest at a time, and of blocks of unequal lengths.

ghost use Rattle.std.specs.Prelude.{◌≤◌, length};

use super::*;
use block_hash::Kind;
use std::alloc::Global;
use std::test::Fail;

// A message of RFC 1321, A.5, of 16 bytes or more, cut into seed and block, and its digest.
struct Vector {
    seed: &'static [u8; 16],
    block: &'static [u8],
    text: &'static str,
}

const VECTORS: [Vector; 3] = [
    Vector {
        seed: b"abcdefghijklmnop",
        block: b"qrstuvwxyz",
        text: "c3fcd3d76192e4007dfb496cca67e13b",
    },
    Vector {
        seed: b"ABCDEFGHIJKLMNOP",
        block: b"QRSTUVWXYZabcdefghijklmnopqrstuvwxyz0123456789",
        text: "d174ab98d277d9f5a5611c2c9f419d9f",
    },
    Vector {
        seed: b"1234567890123456",
        block: b"7890123456789012345678901234567890123456789012345678901234567890",
        text: "57edf4a22be3c955ac49da2e2107b67a",
    },
];

// How many of the bytes 0, 1, .. 250, 0, 1, .. a block has, and its digest behind the seed.
struct Prefix {
    len: usize,
    text: &'static str,
}

// Lengths beside the ends of chunks, of the blocks, and of the messages, from another implementation of the standard.
const PREFIXES: [Prefix; 16] = [
    Prefix {
        len: 0,
        text: "416798e40c2bdb6649c8e19f86f741dd",
    },
    Prefix {
        len: 55,
        text: "3dc4353568daec5a6bad15110c9e97d9",
    },
    Prefix {
        len: 56,
        text: "dd3b7041357b2bb9579def490e446895",
    },
    Prefix {
        len: 63,
        text: "698839798f8083c60eef867979c43e48",
    },
    Prefix {
        len: 64,
        text: "6c929111959f5ef9a5e79862b5bb2cd3",
    },
    Prefix {
        len: 119,
        text: "adfaaaa25721d1537a56407504980137",
    },
    Prefix {
        len: 120,
        text: "2cb48cd949e1b65c9ebbe881e9650a73",
    },
    Prefix {
        len: 262_144,
        text: "4ab0054ce33f1180e340eaf293e6f472",
    },
    Prefix {
        len: 39,
        text: "a704fa2fac079221487a1d37b9d285e3",
    },
    Prefix {
        len: 40,
        text: "ac6827cbee866f7f15541393294d5dd2",
    },
    Prefix {
        len: 47,
        text: "88937a95a564fc039475a3f70ac91ac2",
    },
    Prefix {
        len: 48,
        text: "ebe38296e10e6bbae0fe94e7c094119b",
    },
    Prefix {
        len: 103,
        text: "a25585059a88f87118159b0a81ab8e03",
    },
    Prefix {
        len: 104,
        text: "bca5ba74653419600a42e3b5d94fed77",
    },
    Prefix {
        len: 111,
        text: "d5e5313a1b72b2125efa83b56410ed61",
    },
    Prefix {
        len: 112,
        text: "c9c902efb02c74500753460fd4dba987",
    },
];

fn counted(alloc: Global, len: usize) -> Result<Vec<u8>, Fail> {
    let mut bytes = vec![in alloc; 0u8; len]?;
    for i in 0..bytes.len() {
        bytes[i] = (i % 251) as u8;
    }
    Ok(bytes)
}

fn first<'a>(bytes: &'a [u8], prefix: &Prefix) -> &'a [u8]
    ensures { length result.now ≤ 262144 }
{
    &bytes[..prefix.len.min(262_144).min(bytes.len())]
}

#[test]
fn digests_of_the_standards_vectors_in_one_lane_among_others(rt: HostRuntime) -> Result<(), Fail> {
    let dashes = [b'-'; 64];
    for vector in &VECTORS {
        let block = vector.block;
        assert!(rt; block.len() <= 64);
        let other = &dashes[..block.len()];
        let blocks = [other, other, other, other, other, block, other, other];
        let found = digest_eight(vector.seed, &blocks);
        let text = found[5].to_string(rt.alloc())?;
        assert_eq!(rt; text.as_str(), vector.text);
        assert!(rt; found[4] != found[5]);
    }
    Ok(())
}

#[test]
fn every_length_to_300_as_one_at_a_time(rt: HostRuntime) {
    let mut bytes = [0u8; 600];
    for i in 0..600 {
        bytes[i] = (i % 251) as u8;
    }
    let seed = b"sixteen bytes ..";
    for len in 0..301 {
        let blocks = [
            &bytes[..len],
            &bytes[1..len + 1],
            &bytes[2..len + 2],
            &bytes[3..len + 3],
            &bytes[50..len + 50],
            &bytes[100..len + 100],
            &bytes[150..len + 150],
            &bytes[299..len + 299],
        ];
        let eight = digest_eight(seed, &blocks);
        for i in 0..8 {
            assert!(rt; blocks[i].len() <= 4_194_304);
            assert!(rt; eight[i] == block_hash::digest(Kind::Md5, seed, blocks[i]));
        }
    }
}

#[test]
fn digests_of_unequal_lengths_in_each_lane(rt: HostRuntime) -> Result<(), Fail> {
    let bytes = counted(rt.alloc(), 262_144)?;
    let seed = b"sixteen bytes ..";
    for turn in 0..16 {
        let base = turn / 8 * 8;
        let blocks = [
            first(&bytes, &PREFIXES[base + turn % 8]),
            first(&bytes, &PREFIXES[base + (turn + 1) % 8]),
            first(&bytes, &PREFIXES[base + (turn + 2) % 8]),
            first(&bytes, &PREFIXES[base + (turn + 3) % 8]),
            first(&bytes, &PREFIXES[base + (turn + 4) % 8]),
            first(&bytes, &PREFIXES[base + (turn + 5) % 8]),
            first(&bytes, &PREFIXES[base + (turn + 6) % 8]),
            first(&bytes, &PREFIXES[base + (turn + 7) % 8]),
        ];
        let found = digest_eight(seed, &blocks);
        for i in 0..8 {
            let text = found[i].to_string(rt.alloc())?;
            assert_eq!(rt; text.as_str(), PREFIXES[base + (turn + i) % 8].text);
        }
    }
    Ok(())
}
