// The pieces of a line.
ghost use Rattle.std.specs.Prelude.{◌≡◌, ◌<◌};
ghost use Rattle.snap_report.specs.Text.{printed_byte, printed, nine_digits, meta_text, found_text, file_text};
ghost use Rattle.hex.specs.Hex.{encode_lower};
ghost use Rattle.snap_report.specs.EventLines.{level_text};
ghost use Rattle.snap_report.specs.State.{Puts};
ghost use Rattle.snap_report.specs.Pieces.{piece_text, pieces_text};

use crate::Lines;
use crate::printing::{ZEROS, hex_digit, is_escaped};
use block_hash::Digest16;
use disk_model::{Meta, Sink};
use itoa::{Buffer, Integer};

/// A piece of a line.
#[derive(Clone, Copy)]
pub enum Piece<'a> {
    /// A text as it is.
    Text(&'a str),
    /// A path or a word, with escapes.
    Printed(&'a str),
    /// A disk's name, a colon and a path with escapes.
    File(&'a str, &'a str),
    /// In decimal digits.
    Number(u128),
    /// Size and stamp.
    Meta(Meta),
    /// What was found in the place of a file.
    Found(Option<Meta>),
    /// In lower-case hexadecimal digits.
    Hash(Digest16),
    /// The name of a level, which is below 6.
    Level(u32),
}

impl<'a, W: Sink> Lines<'a, W> {
    fn put_byte(&mut self, byte: u8)
        ensures { Puts W.view (printed_byte byte) self.old self.new }
    {
        if is_escaped(byte) {
            self.put(&[b'\\', b'x', hex_digit(byte / 16), hex_digit(byte % 16)]);
        } else {
            self.put(&[byte]);
        }
    }

    // Tells a path or a word as it is printed.
    fn put_printed(&mut self, bytes: &[u8])
        ensures { Puts W.view (printed bytes.now) self.old self.new }
    {
        for byte in bytes {
            self.put_byte(*byte);
        }
    }

    fn put_number<I: Integer>(&mut self, number: I)
        ensures { Puts W.view (I.text number) self.old self.new }
    {
        let mut buffer = Buffer::new();
        self.put(buffer.format(number).as_bytes());
    }

    // Tells a number in nine digits, with zeros before it.
    fn put_nine_digits(&mut self, number: u32)
        ensures { Puts W.view (nine_digits number) self.old self.new }
    {
        let mut buffer = Buffer::new();
        let digits = buffer.format(number).as_bytes();
        let missing = ZEROS.len().saturating_sub(digits.len());
        self.put(&ZEROS[..missing]);
        self.put(digits);
    }

    fn put_meta(&mut self, meta: Meta)
        ensures { Puts W.view (meta_text meta) self.old self.new }
    {
        self.put_number(meta.size);
        self.put(b" ");
        self.put_number(meta.stamp.seconds);
        self.put(b".");
        self.put_nine_digits(meta.stamp.nanos);
    }

    fn put_file(&mut self, name: &str, path: &str)
        ensures { Puts W.view (file_text name.now path.now) self.old self.new }
    {
        self.put(name.as_bytes());
        self.put(b":");
        self.put_printed(path.as_bytes());
    }

    fn put_found(&mut self, found: Option<Meta>)
        ensures { Puts W.view (found_text found) self.old self.new }
    {
        match found {
            Some(meta) => {
                self.put(b" found ");
                self.put_meta(meta);
            }
            None => self.put(b" found nothing"),
        }
    }

    fn put_hash(&mut self, hash: Digest16)
        ensures { Puts W.view (encode_lower hash.0) self.old self.new }
    {
        let mut digits = [0u8; 32];
        let Ok(()) = hex::encode_to_slice(hash.0, &mut digits) else {
            unreachable!();
        };
        self.put(&digits);
    }

    fn put_level(&mut self, level: u32)
        ensures { Puts W.view (level_text level) self.old self.new }
    {
        if level == 0 {
            self.put(b"parity");
        } else {
            self.put_number(u64::from(level) + 1);
            self.put(b"-parity");
        }
    }

    fn put_piece(&mut self, piece: Piece<'_>)
        ensures { Puts W.view (piece_text piece.entry) self.old self.new }
    {
        match piece {
            Piece::Text(text) => self.put(text.as_bytes()),
            Piece::Printed(text) => self.put_printed(text.as_bytes()),
            Piece::File(name, path) => self.put_file(name, path),
            Piece::Number(number) => self.put_number(number),
            Piece::Meta(meta) => self.put_meta(meta),
            Piece::Found(found) => self.put_found(found),
            Piece::Hash(hash) => self.put_hash(hash),
            Piece::Level(level) => self.put_level(level),
        }
    }

    /// Tells pieces, one after another.
    pub fn put_all(&mut self, pieces: &[Piece<'_>])
        ensures { Puts W.view (pieces_text pieces.now) self.old self.new }
    {
        for piece in pieces {
            self.put_piece(*piece);
        }
    }
}
