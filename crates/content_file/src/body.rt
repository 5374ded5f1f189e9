// The fields behind the head, each pushed into the builder as it is read.
ghost use Rattle.std.specs.Prelude.{◌≡◌, ◌<◌, ◌≤◌, length, IfOk, IfErr, OnErr, IsTrue, ◌↔◌, true, false, Option, None, Some};
ghost use Rattle.content_file.specs.FirstFlaw.{read_head};
ghost use Rattle.content_file.specs.Giving.{Refuses};
ghost use Rattle.content_file.specs.Body.{IsPastColumns, IsDone, IsEnded, GoesOn, StepsTo, StopsAt, ReadsAll, StartsWith, table_of};
ghost use Rattle.file_table.specs.Valid.{IsValid};

use crate::DecodeFault;
use crate::checked::{block_of, blocks_for, count_of, file_of, info_of, name_of};
use crate::fault::{Refusal, out_of_memory};
use crate::head::{Head, head_of};
use file_table::{BuildFault, Builder, Table};
use std::alloc::Global;
use std::marker::Model;

/// A table that is read, field by field, behind its head.
#[derive(Drop)]
pub(crate) struct Body {
    head: Head,
    builder: Builder,
    // How many columns are still to come.
    columns: u8,
    // Whether the number of records of the last column is still to come.
    named: bool,
    // How many records of the last column are still to come.
    records: u32,
    // How many blocks of the last record are still to come.
    blocks: u64,
    // Of how many stripes the information is still to come.
    stripes: u32,
    // How many records were read.
    read: u32,
}

impl Model for Body {
    ghost use Rattle.content_file.specs.ReadingOn.{BodyValue};

    ghost Value = { BodyValue };

    ghost use Rattle.content_file.specs.BodyState.{body_of, IsBody};

    ghost view = { body_of };

    ghost invariant = { IsBody };
}

impl Body {
    /// Reads the head.
    pub(crate) fn start(alloc: Global, bytes: &[u8]) -> Result<(Body, &[u8]), Refusal<'_>>
        ensures ok { IfOk result (λ x. StartsWith bytes.now x.0 x.1.now) }
        ensures err { IfErr result (λ refusal. Refuses refusal (read_head bytes.now)) }
    {
        let (head, rest) = head_of(bytes)?;
        let builder = Builder::new(alloc, head.shape, head.length)?;
        Ok((
            Body {
                head,
                builder,
                columns: head.columns,
                named: false,
                records: 0,
                blocks: 0,
                stripes: head.length,
                read: 0,
            },
            rest,
        ))
    }

    /// Reads as many fields as the bytes have whole. The answer is what is left of them, and why reading
    /// stopped where that was before the digest.
    pub(crate) fn read<'a>(
        &mut self,
        alloc: Global,
        bytes: &'a [u8],
    ) -> (&'a [u8], Result<(), Refusal<'a>>)
        ensures goes { GoesOn (Some self.old) bytes.now (Some self.new) result.0.now }
        ensures stops { ReadsAll self.new result.0.now result.1 }
    {
        let mut rest = bytes;
        while !self.is_done() {
            match self.read_next(alloc, rest) {
                Ok(after) => rest = after,
                Err(refusal) => return (rest, Err(refusal)),
            }
        }
        if !self.builder.length_fits() {
            return (rest, Err(Refusal::Length));
        }
        (rest, Ok(()))
    }

    /// The table of all that was read.
    pub(crate) fn finish(self) -> Result<Table, DecodeFault>
        requires ended { IsEnded self }
        ensures ok { IfOk result (λ table. table ≡ table_of self.builder) }
        ensures valid { IfOk result IsValid }
        ensures memory { IfErr result (λ fault. fault ≡ DecodeFault.Memory) }
    {
        let Body { builder, .. } = self;
        match builder.finish() {
            Ok(table) => Ok(table),
            Err(BuildFault::Memory) => Err(DecodeFault::Memory),
            // All that it would refuse was asked before.
            Err(_) => unreachable!(),
        }
    }

    // Whether all was read but the digest.
    fn is_done(&self) -> bool
        ensures { IsTrue result ↔ IsDone self.now }
    {
        self.blocks == 0
            && !self.named
            && self.records == 0
            && self.columns == 0
            && self.stripes == 0
    }

    // Reads what comes next.
    fn read_next<'a>(&mut self, alloc: Global, bytes: &'a [u8]) -> Result<&'a [u8], Refusal<'a>>
        requires more { ¬ (IsDone self.old) }
        ensures ok { IfOk result (λ rest. StepsTo self.old bytes.now self.new rest.now) }
        ensures err { IfErr result (λ refusal. StopsAt (Some self.old) bytes.now refusal) }
        ensures same { OnErr result (self.new ≡ self.old) }
    {
        if self.blocks > 0 {
            return self.read_block(bytes);
        }
        if self.named {
            return self.read_count(bytes);
        }
        if self.records > 0 {
            return self.read_record(alloc, bytes);
        }
        if self.columns > 0 {
            return self.read_name(alloc, bytes);
        }
        self.read_stripe(bytes)
    }

    fn read_block<'a>(&mut self, bytes: &'a [u8]) -> Result<&'a [u8], Refusal<'a>>
        requires more { 0 < self.old.blocks }
        ensures ok { IfOk result (λ rest. StepsTo self.old bytes.now self.new rest.now) }
        ensures err { IfErr result (λ refusal. StopsAt (Some self.old) bytes.now refusal) }
        ensures same { OnErr result (self.new ≡ self.old) }
    {
        let (block, rest) = block_of(&self.builder, bytes)?;
        match self.builder.push_block(block.position, block.hash) {
            Ok(()) => {
                self.blocks -= 1;
                Ok(rest)
            }
            Err(fault) => Err(out_of_memory(fault)),
        }
    }

    fn read_count<'a>(&mut self, bytes: &'a [u8]) -> Result<&'a [u8], Refusal<'a>>
        requires no_block { self.old.blocks ≡ 0 }
        requires more { self.old.named ≡ true }
        ensures ok { IfOk result (λ rest. StepsTo self.old bytes.now self.new rest.now) }
        ensures err { IfErr result (λ refusal. StopsAt (Some self.old) bytes.now refusal) }
        ensures same { OnErr result (self.new ≡ self.old) }
    {
        let (count, rest) = count_of(&self.builder, self.read, bytes)?;
        self.records = count;
        self.named = false;
        Ok(rest)
    }

    fn read_record<'a>(&mut self, alloc: Global, bytes: &'a [u8]) -> Result<&'a [u8], Refusal<'a>>
        requires no_block { self.old.blocks ≡ 0 }
        requires no_count { self.old.named ≡ false }
        requires more { 0 < self.old.records }
        ensures ok { IfOk result (λ rest. StepsTo self.old bytes.now self.new rest.now) }
        ensures err { IfErr result (λ refusal. StopsAt (Some self.old) bytes.now refusal) }
        ensures same { OnErr result (self.new ≡ self.old) }
    {
        let (path, meta, rest) = file_of(alloc, &self.builder, bytes)?;
        let blocks = blocks_for(self.head.shape.block_size, meta.size);
        match self.builder.push_record(path, meta) {
            Ok(()) => {
                self.records -= 1;
                self.read += 1;
                self.blocks = blocks;
                Ok(rest)
            }
            Err(fault) => Err(out_of_memory(fault)),
        }
    }

    fn read_name<'a>(&mut self, alloc: Global, bytes: &'a [u8]) -> Result<&'a [u8], Refusal<'a>>
        requires no_block { self.old.blocks ≡ 0 }
        requires no_count { self.old.named ≡ false }
        requires no_record { self.old.records ≡ 0 }
        requires more { 0 < self.old.columns }
        ensures ok { IfOk result (λ rest. StepsTo self.old bytes.now self.new rest.now) }
        ensures err { IfErr result (λ refusal. StopsAt (Some self.old) bytes.now refusal) }
        ensures same { OnErr result (self.new ≡ self.old) }
    {
        let rest = name_of(alloc, &mut self.builder, bytes)?;
        self.columns -= 1;
        self.named = true;
        Ok(rest)
    }

    fn read_stripe<'a>(&mut self, bytes: &'a [u8]) -> Result<&'a [u8], Refusal<'a>>
        requires past { IsPastColumns self.old }
        requires more { 0 < self.old.stripes }
        ensures ok { IfOk result (λ rest. StepsTo self.old bytes.now self.new rest.now) }
        ensures err { IfErr result (λ refusal. StopsAt (Some self.old) bytes.now refusal) }
        ensures same { OnErr result (self.new ≡ self.old) }
    {
        if !self.builder.length_fits() {
            return Err(Refusal::Length);
        }
        let (info, rest) = info_of(&self.builder, bytes)?;
        match self.builder.push_info(info) {
            Ok(()) => {
                self.stripes -= 1;
                Ok(rest)
            }
            Err(fault) => Err(out_of_memory(fault)),
        }
    }
}
