// Numbers as a configuration and the command line write them.
ghost use Rattle.std.specs.Prelude.{◌≡◌};
ghost use Rattle.std.specs.List.{list_all};
ghost use Rattle.std.specs.Char.{is_ascii_digit};
ghost use Rattle.snap_config.specs.Number.{number_of};

const MOST_DIGITS: usize = 9;

/// The number that a text is: 1 to 9 decimal digits, leading zeros among them.
pub fn read_number(text: &str) -> Option<u32>
    ensures { result ≡ number_of text.now }
{
    if text.len() > MOST_DIGITS || !has_digits_alone(text.as_bytes()) {
        return None;
    }
    text.parse().ok()
}

fn has_digits_alone(bytes: &[u8]) -> bool
    ensures { result ≡ list_all is_ascii_digit bytes.now }
{
    bytes.iter().all(|byte| byte.is_ascii_digit())
}
