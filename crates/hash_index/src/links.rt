// For each record the next one that is the same.
ghost use Rattle.std.specs.Prelude.{◌≡◌, ◌<◌, length, IfOk};
ghost use Rattle.std.specs.List.Sorted.{IsNonDecreasingBy, IsPermutation};
ghost use Rattle.hash_index.specs.Duplicates.{spots_of};
ghost use Rattle.hash_index.specs.Linking.{order_in, key_at, keys_from, AreKeys, IsLink, AreLinks};

use crate::records::Records;
use disk_model::NoMemory;
use std::alloc::Global;
use std::mem::size_of;

/// A record by the mark of its content, and by its number.
#[derive(Clone, Copy)]
pub struct Key {
    pub mark: u64,
    pub number: u32,
}

// What a record costs at most while links are made, in bytes: its key and its link.
const _: () = prove!(size_of::<Key>() + size_of::<u32>() <= 20);

/// The link of each record: the number of the next one that is the same, or 0 where there is none.
/// It takes O(n log n) steps, but for records that have one mark and are not the same.
pub fn links_of(alloc: Global, records: &Records) -> Result<Vec<u32>, NoMemory>
    ensures { IfOk result (λ links. AreLinks (spots_of records.now) links.items) }
{
    let mut keys = keys_of(alloc, records)?;
    sort_keys(&mut keys);
    let mut links = vec![in alloc; 0u32; records.len() as usize]?;
    for place in 0..keys.len() {
        let number = keys[place].number;
        links[number as usize] = next_same(records, &keys, place);
    }
    Ok(links)
}

// The keys of all records that have content and all its hashes, in the order of their numbers.
fn keys_of(alloc: Global, records: &Records) -> Result<Vec<Key>, NoMemory>
    ensures { IfOk result (λ keys. keys.items ≡ keys_from 0 (spots_of records.now)) }
{
    let count = records.len();
    let mut keys = Vec::with_capacity(alloc, count as usize)?;
    for number in 0..count {
        if let Some(mark) = records.mark(number) {
            keys.push(Key { mark, number })?;
        }
    }
    Ok(keys)
}

// The place of a key in the order: by mark, and where that is the same by number.
fn order_of(key: Key) -> u128
    ensures { result ≡ order_in key }
{
    (u128::from(key.mark) << 32) + u128::from(key.number)
}

// Puts keys into their order.
fn sort_keys(keys: &mut [Key])
    ensures same { IsPermutation keys.old keys.new }
    ensures rise { IsNonDecreasingBy order_in keys.new }
{
    keys.sort_unstable_by_key(|key| order_of(*key));
}

// The number of the next record that is the same as that of the key at a place, or 0.
fn next_same(records: &Records, keys: &[Key], place: usize) -> u32
    requires within { place < length keys.now }
    requires keys { AreKeys (spots_of records.now) keys.now }
    ensures { IsLink (spots_of records.now) (key_at keys.now place).number result }
{
    let key = keys[place];
    for at in place + 1..keys.len() {
        let next = keys[at];
        if next.mark != key.mark {
            return 0;
        }
        if records.is_same(key.number, next.number) {
            return next.number;
        }
    }
    0
}
