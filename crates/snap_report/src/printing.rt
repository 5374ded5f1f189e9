// How a byte of a path or a word is printed.
ghost use Rattle.std.specs.Prelude.{◌≡◌, ◌<◌};
ghost use Rattle.snap_report.specs.Text.{hex_digit as hex_digit_of, is_escaped as is_escaped_byte};

pub(crate) const ZEROS: &[u8; 9] = b"000000000";

// A hexadecimal digit in lower case.
pub(crate) fn hex_digit(n: u8) -> u8
    requires { n < 16 }
    ensures { result ≡ hex_digit_of n }
{
    if n < 10 { b'0' + n } else { b'a' - 10 + n }
}

pub(crate) fn is_escaped(byte: u8) -> bool
    ensures { result ≡ is_escaped_byte byte }
{
    byte < 32 || byte == 127 || byte == b'\\'
}
