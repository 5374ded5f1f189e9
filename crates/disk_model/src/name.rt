// Names of data disks.
ghost use Rattle.std.specs.Prelude.{◌≡◌, ◌↔◌, IsTrue, Contains};
ghost use Rattle.std.specs.List.{list_all};
ghost use Rattle.disk_model.specs.Name.{IsName, is_name_byte, level_names};

const LONGEST: usize = 64;

/// Whether a disk may have this name.
pub fn is_name(name: &str) -> bool
    ensures { IsTrue result ↔ IsName name.now }
{
    let bytes = name.as_bytes();
    if bytes.is_empty() || bytes.len() > LONGEST || is_level_name(bytes) {
        return false;
    }
    has_name_bytes(bytes)
}

fn has_name_bytes(bytes: &[u8]) -> bool
    ensures { result ≡ list_all is_name_byte bytes.now }
{
    bytes.iter().all(|byte| may_stand_in_name(*byte))
}

fn may_stand_in_name(byte: u8) -> bool
    ensures { result ≡ is_name_byte byte }
{
    byte.is_ascii_alphanumeric() || byte == b'_' || byte == b'-' || byte == b'.'
}

fn is_level_name(name: &[u8]) -> bool
    ensures { IsTrue result ↔ Contains level_names name.now }
{
    name == b"parity".as_slice()
        || name == b"2-parity".as_slice()
        || name == b"3-parity".as_slice()
        || name == b"4-parity".as_slice()
        || name == b"5-parity".as_slice()
        || name == b"6-parity".as_slice()
}
