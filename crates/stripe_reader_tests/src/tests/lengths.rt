// Blocks of many lengths, which are hashed together.
use super::scene::{folder, read, seen, table};
use disk_memory::MemFolder;
use std::alloc::Global;
use std::test::Fail;
use stripe_reader::Starts;

// A column whose file is one block of the bytes 0, 1, .. 250, 0, 1, .., and its MD5 behind the seed, as Python's hashlib
// has it.
struct Case {
    size: u64,
    digest: &'static str,
}

const CASES: [Case; 10] = [
    Case {
        size: 37,
        digest: "83080011e39273e9b6d312a6dbd4d4d8",
    },
    Case {
        size: 1024,
        digest: "6010086205f1d61d17350de15a3f83de",
    },
    Case {
        size: 1,
        digest: "7ee3871ac1f76e95dda9bd49a0bd388a",
    },
    Case {
        size: 513,
        digest: "0270ee564831a415168b01475e25f7db",
    },
    Case {
        size: 300,
        digest: "fa9e3c5ed755124709dfb18317c80fc6",
    },
    Case {
        size: 1000,
        digest: "11f9115e76c4ac9680af2c1e99783327",
    },
    Case {
        size: 39,
        digest: "4df6bf4baac72ba01ca2cbbdcb2b11c7",
    },
    Case {
        size: 512,
        digest: "e92b511ccfed5c899f436f37eeb77127",
    },
    Case {
        size: 511,
        digest: "d737f9a3bfefd0be5dbe56417e530ae0",
    },
    Case {
        size: 40,
        digest: "5dc1b9c49ca1f61c856b991eaf38de6d",
    },
];

// A last column has a block at each stripe.
const LAST: [u8; 3000] = [7; 3000];

fn folders(alloc: Global) -> Result<Vec<MemFolder>, Fail> {
    let mut bytes = [0; 1024];
    for i in 0..1024 {
        bytes[i] = (i % 251) as u8;
    }
    let mut folders = Vec::new(alloc);
    for case in &CASES {
        let size = case.size.min(1024) as usize;
        folders.push(folder(alloc, "a", 1, &bytes[..size])?)?;
    }
    folders.push(folder(alloc, "a", 1, &LAST)?)?;
    Ok(folders)
}

#[test]
fn each_block_of_any_length_has_its_digest(rt: HostRuntime) -> Result<(), Fail> {
    let alloc = rt.alloc();
    let mut sizes = Vec::new(alloc);
    for case in &CASES {
        sizes.push(case.size)?;
    }
    sizes.push(3000)?;
    let table = table(alloc, sizes.as_slice())?;
    let starts = Starts::recorded(alloc, &table)?;
    let mut folders = folders(alloc)?;
    let window = read(&rt, alloc, folders.as_mut_slice(), &table, &starts, 4)?;
    let mut d = 0u32;
    for case in &CASES {
        let Some((_, Some(digest), _)) = seen(&window, &table, 0, d) else {
            return Err(Fail::new(format_args!("no digest of {} bytes", case.size)));
        };
        let found = format!(in alloc; "{digest}")?;
        assert_eq!(rt; found.as_str(), case.digest, "{} bytes", case.size);
        d = d.saturating_add(1);
    }
    Ok(())
}
