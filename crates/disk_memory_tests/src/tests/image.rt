// What a stop may leave of a vault, as bytes pick it. The first eight bytes of a choice tell the moment, eight more the
// length of a parity file or the number of a content.
use disk_memory::MemVault;
use disk_model::{Failed, NoMemory, Vault};
use std::alloc::Global;
use std::test::Fail;

// The length and the bytes of an image's parity file.
fn parity_in(mut image: MemVault) -> Result<(usize, [u8; 6]), Failed> {
    let mut out = [0; 6];
    if image.levels() == 0 {
        return Err(Failed);
    }
    let found = image.parity_read(0, 0, &mut out)?;
    Ok((found, out))
}

// The size and the bytes of an image's content copy.
fn content_in(mut image: MemVault) -> Result<(Option<u64>, [u8; 3]), Failed> {
    let mut out = [0; 3];
    if image.copies() == 0 {
        return Err(Failed);
    }
    image.content_read(0, 0, &mut out)?;
    Ok((image.content_size(0)?, out))
}

fn torn(alloc: Global) -> Result<MemVault, Fail> {
    let mut vault = MemVault::new(alloc, 1, 0)?;
    vault.parity_write(0, 0, b"abcd")?;
    vault.parity_sync(0)?;
    vault.parity_write(0, 1, b"XY")?;
    Ok(vault)
}

#[test]
fn a_torn_write_leaves_any_bytes_where_it_wrote(rt: HostRuntime) -> Result<(), Fail> {
    let vault = torn(rt.alloc())?;
    for (choice, bytes) in [
        (b"\x02\0\0\0\0\0\0\0\x04\0\0\0\0\0\0\0wxyz", b"abcd\0\0"),
        (b"\x03\0\0\0\0\0\0\0\x04\0\0\0\0\0\0\0wxyz", b"axyd\0\0"),
        (b"\x03\0\0\0\0\0\0\0\xff\0\0\0\0\0\0\0wXYz", b"aXYd\0\0"),
    ] {
        let (found, out) = parity_in(vault.image(choice)?)?;
        assert_eq!(rt; found, 4);
        assert_eq!(rt; out, *bytes);
    }
    Ok(())
}

fn cut_and_grown(alloc: Global) -> Result<MemVault, Fail> {
    let mut vault = MemVault::new(alloc, 1, 0)?;
    vault.parity_write(0, 0, b"abcdef")?;
    vault.parity_sync(0)?;
    vault.parity_set_len(0, 2)?;
    vault.parity_set_len(0, 4)?;
    Ok(vault)
}

#[test]
fn a_level_that_was_cut_and_grew_has_any_length_between(rt: HostRuntime) -> Result<(), Fail> {
    let vault = cut_and_grown(rt.alloc())?;
    for (choice, length, bytes) in [
        (
            b"\x04\0\0\0\0\0\0\0\x01\0\0\0\0\0\0\0uvwxyz",
            2,
            b"ab\0\0\0\0",
        ),
        (b"\x04\0\0\0\0\0\0\0\x05\0\0\0\0\0\0\0uvwxyz", 5, b"abwxy\0"),
        (b"\x04\0\0\0\0\0\0\0\x09\0\0\0\0\0\0\0uvwxyz", 6, b"abwxyz"),
    ] {
        let (found, out) = parity_in(vault.image(choice)?)?;
        assert_eq!(rt; found, length);
        assert_eq!(rt; out, *bytes);
    }
    Ok(())
}

fn published_unsealed(alloc: Global) -> Result<MemVault, Fail> {
    let mut vault = MemVault::new(alloc, 0, 1)?;
    vault.set_content(0, Some(b"old"))?;
    vault.draft_begin(0)?;
    vault.draft_append(0, b"new")?;
    vault.publish(0)?;
    Ok(vault)
}

#[test]
fn an_unsealed_draft_leaves_anything_or_no_file(rt: HostRuntime) -> Result<(), Fail> {
    let vault = published_unsealed(rt.alloc())?;
    for (choice, size, bytes) in [
        (b"\x02\0\0\0\0\0\0\0\x03\0\0\0\0\0\0\0xyz", Some(3), b"old"),
        (b"\x03\0\0\0\0\0\0\0\x03\0\0\0\0\0\0\0xyz", Some(2), b"xy\0"),
        (b"\x03\0\0\0\0\0\0\0\0\0\0\0\0\0\0\0xyz", None, b"\0\0\0"),
    ] {
        let (found, out) = content_in(vault.image(choice)?)?;
        assert_eq!(rt; found, size);
        assert_eq!(rt; out, *bytes);
    }
    Ok(())
}

// A vault whose calls stop after so many: a parity file is written and synced, and then a content copy published.
fn stopped(alloc: Global, calls: u64) -> Result<MemVault, NoMemory> {
    let mut vault = MemVault::new(alloc, 1, 1)?;
    vault.stop_after(calls);
    let Ok(()) = vault.parity_write(0, 0, b"ab") else {
        return Ok(vault);
    };
    let Ok(()) = vault.parity_sync(0) else {
        return Ok(vault);
    };
    let Ok(()) = vault.draft_begin(0) else {
        return Ok(vault);
    };
    let Ok(()) = vault.draft_append(0, b"new") else {
        return Ok(vault);
    };
    let Ok(()) = vault.draft_seal(0) else {
        return Ok(vault);
    };
    let Ok(()) = vault.publish(0) else {
        return Ok(vault);
    };
    Ok(vault)
}

#[test]
fn each_stop_leaves_what_was_synced_and_published(rt: HostRuntime) -> Result<(), Fail> {
    let old = b"\xff\0\0\0\0\0\0\0\0\0\0\0\0\0\0\0yz\0\0\0\0\0\0\0\0";
    let new = b"\xff\0\0\0\0\0\0\0\0\0\0\0\0\0\0\0yz\x01\0\0\0\0\0\0\0";
    for (calls, length, size, other) in [
        (0, 0, None, None),
        (1, 0, None, None),
        (2, 2, None, None),
        (3, 2, None, None),
        (4, 2, None, None),
        (5, 2, None, Some(3)),
        (6, 2, Some(3), Some(3)),
    ] {
        let vault = stopped(rt.alloc(), calls)?;
        assert_eq!(rt; parity_in(vault.image(old)?)?.0, length);
        assert_eq!(rt; content_in(vault.image(old)?)?.0, size);
        assert_eq!(rt; content_in(vault.image(new)?)?.0, other);
    }
    Ok(())
}
