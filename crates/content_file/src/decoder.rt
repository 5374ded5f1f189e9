// A content file that comes in pieces.
ghost use Rattle.std.specs.Prelude.{◌≡◌, ◌+◌, ◌<◌, ◌≤◌, ℕ, List, [], ◌++◌, length, drop, take, All, OnOk, OnErr, IfOk, IfErr, IfSome, IsSome, IsTrue, ◌↔◌, None, Some, Ok, Err};
ghost use Rattle.file_table.specs.Valid.{IsValid};
ghost use Rattle.content_file.specs.Body.{GoesOn, IsEnded};
ghost use Rattle.content_file.specs.Decoding.{Decodes, Feeds, IsHolding, HasFed, IsFaultOf, IsPlace, MayGoOn, IsCut, ReadsFields, ReadsWhole, refusal_of, fault_in};

use crate::body::Body;
use crate::ending::{end_of, read_on, told};
use crate::{Damage, DecodeFault, Flaw};
use disk_model::NoMemory;
use file_table::Table;
use sha2::{Digest, Sha256};
use std::alloc::Global;

// How many bytes are taken in at once.
const CHUNK: usize = 65_536;

/// Reads a content file from its pieces, however they are cut. Memory is taken for a table's parts as they are read,
/// and for what is cut off at the end of a piece.
#[derive(Drop)]
pub struct Decoder {
    // What stands behind the head. `None` until that was read.
    body: Option<Body>,
    // It holds what was read.
    hasher: Sha256,
    // What was fed and is not read yet.
    held: Vec<u8>,
    // How many bytes were fed.
    fed: u64,
    // What was answered, where that was a refusal.
    fault: Option<DecodeFault>,
}

impl Decoder {
    pub fn new(alloc: Global) -> Result<Decoder, NoMemory>
        ensures { IfOk result (λ made. HasFed made []) }
    {
        Ok(Decoder {
            body: None,
            hasher: Sha256::new(),
            held: Vec::with_capacity(alloc, CHUNK)?,
            fed: 0,
            fault: None,
        })
    }

    /// Takes the next piece. It is refused as soon as a field is wrong, whatever would follow. After a refusal each
    /// further call answers the same one.
    pub fn feed(&mut self, piece: &[u8]) -> Result<(), DecodeFault>
        ensures fed { (fed : List ℕ) → HasFed self.old fed → HasFed self.new (fed ++ piece.now) }
        ensures answer { (fed : List ℕ) → HasFed self.old fed → Feeds (fed ++ piece.now) result }
        ensures kept { refusal_of self.new ≡ fault_in result }
        ensures stays { IfSome (refusal_of self.old) (λ fault. result ≡ Err fault) }
    {
        if let Some(fault) = self.fault {
            return Err(fault);
        }
        match self.take_all(piece) {
            Ok(()) => Ok(()),
            Err(fault) => {
                self.fault = Some(fault);
                Err(fault)
            }
        }
    }

    /// The table that all pieces together spell.
    pub fn finish(self) -> Result<Table, DecodeFault>
        ensures valid { IfOk result IsValid }
        ensures answer { (fed : List ℕ) → HasFed self fed → Decodes fed result }
        ensures stays { IfSome (refusal_of self) (λ fault. result ≡ Err fault) }
    {
        if let Some(fault) = self.fault {
            return Err(fault);
        }
        let mut decoder = self;
        decoder.read_whole()?;
        let Decoder { body, .. } = decoder;
        match body {
            Some(body) => body.finish(),
            None => unreachable!(),
        }
    }

    // Takes a piece, chunk by chunk.
    fn take_all(&mut self, piece: &[u8]) -> Result<(), DecodeFault>
        requires { refusal_of self.old ≡ None }
        ensures fed { OnOk result ((fed : List ℕ) → HasFed self.old fed → HasFed self.new (fed ++ piece.now)) }
        ensures answer { (fed : List ℕ) → HasFed self.old fed → Feeds (fed ++ piece.now) result }
        ensures same { refusal_of self.new ≡ None }
    {
        let mut rest = piece;
        while !rest.is_empty() {
            let (chunk, after) = rest.split_at(rest.len().min(CHUNK));
            self.take_in(chunk)?;
            rest = after;
        }
        Ok(())
    }

    // Holds a chunk, and reads the fields that are whole.
    fn take_in(&mut self, chunk: &[u8]) -> Result<(), DecodeFault>
        requires { refusal_of self.old ≡ None }
        ensures fed { OnOk result ((fed : List ℕ) → HasFed self.old fed → HasFed self.new (fed ++ chunk.now)) }
        ensures answer { (fed : List ℕ) → HasFed self.old fed → Feeds (fed ++ chunk.now) result }
        ensures same { refusal_of self.new ≡ None }
    {
        self.hold(chunk)?;
        match self.read_whole() {
            Ok(()) => Ok(()),
            Err(fault) => past_cut(fault),
        }
    }

    fn hold(&mut self, chunk: &[u8]) -> Result<(), DecodeFault>
        ensures holds { OnOk result ((fed : List ℕ) → IsHolding self.old fed → IsHolding self.new (fed ++ chunk.now)) }
        ensures memory { IfErr result (λ fault. fault ≡ DecodeFault.Memory) }
        ensures same { refusal_of self.new ≡ refusal_of self.old }
    {
        let Some(fed) = self.fed.checked_add(chunk.len() as u64) else {
            return Err(DecodeFault::Memory);
        };
        if self.held.extend_from_slice(chunk).is_err() {
            return Err(DecodeFault::Memory);
        }
        self.fed = fed;
        Ok(())
    }

    // Reads what is held, the digest too.
    fn read_whole(&mut self) -> Result<(), DecodeFault>
        ensures holds { (fed : List ℕ) → IsHolding self.old fed → IsHolding self.new fed }
        ensures reads { (fed : List ℕ) → IsHolding self.old fed → ReadsWhole self.new fed result }
        ensures some { OnOk result (IsSome self.new.body) }
        ensures ended { OnOk result (IfSome self.new.body IsEnded) }
        ensures same { refusal_of self.new ≡ refusal_of self.old }
    {
        self.read_fields()?;
        let Ok(hasher) = self.hasher.clone() else {
            return Err(DecodeFault::Memory);
        };
        told(self.fed, end_of(hasher, self.held.as_slice()))
    }

    // Reads the fields that are held whole, up to the digest.
    fn read_fields(&mut self) -> Result<(), DecodeFault>
        ensures holds { (fed : List ℕ) → IsHolding self.old fed → IsHolding self.new fed }
        ensures reads { (fed : List ℕ) → IsHolding self.old fed → ReadsFields self.new fed result }
        ensures some { OnOk result (IsSome self.new.body) }
        ensures ended { OnOk result (IfSome self.new.body IsEnded) }
        ensures same { refusal_of self.new ≡ refusal_of self.old }
    {
        let alloc = *self.held.allocator();
        let (rest, stop) = read_on(alloc, &mut self.body, self.held.as_slice());
        let count = self.held.len() - rest.len();
        let answer = told(self.fed, stop);
        self.hasher.update(&self.held.as_slice()[..count]);
        drop_front(&mut self.held, count);
        answer
    }
}

// A field that is cut off may be whole with the next piece.
fn past_cut(fault: DecodeFault) -> Result<(), DecodeFault>
    ensures cut { OnOk result (IsCut fault) }
    ensures other { IfErr result (λ answer. (answer ≡ fault) × ¬ (IsCut fault)) }
{
    match fault {
        DecodeFault::Damaged(
            Damage {
                why: Flaw::Short,
                ..
            },
        ) => Ok(()),
        _ => Err(fault),
    }
}

// Drops the first bytes.
fn drop_front(bytes: &mut Vec<u8>, count: usize)
    requires { count ≤ length bytes.old.items }
    ensures { bytes.new.items ≡ drop count bytes.old.items }
{
    let left = bytes.len() - count;
    bytes.as_mut_slice().copy_within(count.., 0);
    bytes.truncate(left);
}
