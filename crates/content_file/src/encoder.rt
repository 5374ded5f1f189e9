// A table as the bytes of a content file, in pieces.
ghost use Rattle.std.specs.Prelude.{◌≡◌, ◌≢◌, ◌↔◌, ◌+◌, ◌-◌, ◌<◌, ◌≤◌, [], ◌++◌, length, take, drop, min, IsTrue};
ghost use Rattle.content_file.specs.Encoding.{IsDigestOf};
ghost use Rattle.content_file.specs.Spelling.{spelling};

use crate::TableDigest;
use crate::field::Field;
use crate::remaining::Remaining;
use arrayvec::ArrayVec;
use file_table::Table;
use std::marker::Model;

/// The one spelling of a table, given in pieces of any length. It is seen as the bytes that are still to be given.
/// No call takes memory.
#[derive(Drop)]
pub struct Encoder<'a> {
    fields: Remaining<'a>,
    field: Field,
    // How many bytes of the field were given.
    given: usize,
}

impl<'a> Model for Encoder<'a> {
    ghost use Rattle.std.specs.Prelude.{List, ℕ, ◌≤◌, ◌++◌, length, drop};

    ghost Value = { List ℕ };

    ghost view = { λ e. drop e.given e.field.items ++ e.fields };

    ghost invariant = { λ e. e.given ≤ length e.field.items };
}

impl<'a> Encoder<'a> {
    /// Of a table and its digest.
    pub fn new(table: &'a Table, digest: TableDigest) -> Encoder<'a>
        requires { IsDigestOf table.now digest }
        ensures { result ≡ spelling table.now }
    {
        Encoder {
            fields: Remaining::new(table, digest),
            field: ArrayVec::new(),
            given: 0,
        }
    }

    /// Whether all was given.
    pub fn is_done(&self) -> bool
        ensures { IsTrue result ↔ (self.now ≡ []) }
    {
        self.given == self.field.len() && self.fields.is_done()
    }

    /// Fills `out`, or a front of it where fewer bytes are left. The answer is how many were given: 0 only at the
    /// end or for an empty `out`.
    pub fn next(&mut self, out: &mut [u8]) -> usize
        ensures count { result ≡ min (length out.old) (length self.old) }
        ensures piece { take result out.new ≡ take result self.old }
        ensures rest { self.new ≡ drop result self.old }
    {
        let mut filled = 0;
        while filled < out.len() && !self.is_done() {
            filled += self.give(out, filled);
        }
        filled
    }

    // Gives bytes of one field from a place of `out` on.
    fn give(&mut self, out: &mut [u8], at: usize) -> usize
        requires room { at < length out.old }
        requires more { self.old ≢ [] }
        ensures some { 0 < result }
        ensures within { at + result ≤ length out.old }
        ensures rest { self.old ≡ take result (drop at out.new) ++ self.new }
        ensures before { take at out.new ≡ take at out.old }
    {
        self.given = refill(&mut self.fields, &mut self.field, self.given);
        let count = copy_front(out, at, &self.field.as_slice()[self.given..]);
        self.given += count;
        count
    }
}

// Makes the next field where all of the last one was given. The answer is how much of the field was given then.
fn refill(fields: &mut Remaining<'_>, field: &mut Field, given: usize) -> usize
    requires { given ≤ length field.old.items }
    ensures within { result ≤ length field.new.items }
    ensures same { drop result field.new.items ++ fields.new ≡ drop given field.old.items ++ fields.old }
    ensures some { drop given field.old.items ++ fields.old ≢ [] → result < length field.new.items }
{
    if given < field.len() {
        return given;
    }
    fields.next(field);
    0
}

// Copies a front of the bytes, as many as `out` has room for from a place on.
fn copy_front(out: &mut [u8], at: usize, bytes: &[u8]) -> usize
    requires { at ≤ length out.old }
    ensures count { result ≡ min (length bytes.now) (length out.old - at) }
    ensures copied { take result (drop at out.new) ≡ take result bytes.now }
    ensures before { take at out.new ≡ take at out.old }
{
    let count = bytes.len().min(out.len() - at);
    out[at..at + count].copy_from_slice(&bytes[..count]);
    count
}
