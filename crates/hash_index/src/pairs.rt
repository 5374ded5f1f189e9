// The duplicates of a table, one by one.
ghost use Rattle.std.specs.Prelude.{◌≡◌, ◌<◌, ◌≤◌, ◌^◌, ℕ, length, slice_index, All, IfOk, IfSome, None};
ghost use Rattle.hash_index.specs.Duplicates.{IsPairOf, pairs_of, spots_of, pair_of, spot_in};
ghost use Rattle.hash_index.specs.Linking.{link_at};
ghost use Rattle.hash_index.specs.Listing.{Gives, IsNextLinked};

use crate::Pair;
use crate::links::links_of;
use crate::records::Records;
use disk_model::NoMemory;
use file_table::Table;
use std::alloc::Global;
use std::marker::Model;

/// The pairs of a table that are still to come. Beside the table it keeps 4 bytes a record.
#[derive(Drop)]
pub struct Pairs<'a> {
    records: Records<'a>,
    // For each record the next one that is the same, or 0.
    links: Vec<u32>,
    // The records of the pair that came last.
    first: u32,
    other: u32,
}

impl<'a> Model for Pairs<'a> {
    ghost use Rattle.std.specs.Prelude.{List};
    ghost use Rattle.hash_index.specs.declared.pair.Pair.{Pair};

    ghost Value = { List Pair };

    ghost use Rattle.hash_index.specs.ListingState.{left_of, IsListing};

    ghost view = { left_of };

    ghost invariant = { IsListing };
}

impl<'a> Pairs<'a> {
    /// All pairs of a table. While it is made it takes 20 bytes a record.
    pub fn new(alloc: Global, table: &'a Table) -> Result<Pairs<'a>, NoMemory>
        ensures all { IfOk result (λ pairs. pairs ≡ pairs_of table.now) }
        ensures within { IfOk result (λ pairs. All (IsPairOf table.now.columns) (pairs_of table.now)) }
        ensures few { IfOk result (λ pairs. length (pairs_of table.now) ≤ 2 ^ 48) }
    {
        let records = Records::new(alloc, table)?;
        let links = links_of(alloc, &records)?;
        Ok(Pairs {
            records,
            links,
            first: 0,
            other: 0,
        })
    }

    /// The next pair. It takes no memory.
    pub fn next(&mut self) -> Option<Pair>
        ensures { Gives self.old result self.new }
    {
        let link = link_of(&self.links, self.other);
        if link != 0 {
            self.other = link;
            return Some(pair(&self.records, self.first, link));
        }
        match next_linked(&self.links, self.first + 1) {
            Some(first) => {
                let other = self.links[first as usize];
                self.first = first;
                self.other = other;
                Some(pair(&self.records, first, other))
            }
            None => {
                self.first = self.records.len();
                self.other = self.first;
                None
            }
        }
    }
}

// The link of a record; 0 where there is no such record.
fn link_of(links: &[u32], number: u32) -> u32
    ensures { result ≡ link_at links.now number }
{
    match links.get(number as usize) {
        Some(link) => *link,
        None => 0,
    }
}

// The first record from a number on that has a link.
fn next_linked(links: &[u32], from: u32) -> Option<u32>
    requires { length links.now ≤ 16777216 }
    ensures { IsNextLinked links.now from result }
{
    for number in from as usize..links.len() {
        if links[number] != 0 {
            return Some(number as u32);
        }
    }
    None
}

// The pair of two records.
fn pair(records: &Records, first: u32, other: u32) -> Pair
    requires first { first < length (spots_of records.now) }
    requires other { other < length (spots_of records.now) }
    ensures { let spots = spots_of records.now in
        result ≡ pair_of (spot_in spots first) (spot_in spots other) }
{
    let one = records.place(first);
    let second = records.place(other);
    Pair {
        disk: one.disk,
        rec: one.rec,
        other_disk: second.disk,
        other_rec: second.rec,
    }
}
