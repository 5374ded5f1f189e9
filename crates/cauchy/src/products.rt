//! The products of one coefficient with the bytes of a block, added to a level: 32 bytes at a time, and the rest one by one.

ghost use Rattle.std.specs.Prelude.{◌≡◌, ◌/◌, ◌*◌, length};
ghost use Rattle.cauchy.specs.Products.{AddsWithin, AddsProducts};

use crate::lanes::{LANES, doubled, lane_tables, load, products, store, sums};
use gf256::mul;

/// Adds the products with the bytes from `start` on, one by one. From 0 on this is the whole sum, slowly.
pub fn add_bytes(start: usize, coefficient: u8, block: &[u8], out: &mut [u8])
    requires { length block.now ≡ length out.old }
    ensures { AddsWithin start (length out.old) coefficient block.now out.old out.new }
{
    for i in start..out.len() {
        out[i] ^= mul(coefficient, block[i]);
    }
}

/// Adds the block itself.
fn add_block(block: &[u8], out: &mut [u8])
    requires { length block.now ≡ length out.old }
    ensures { AddsProducts 1 block.now out.old out.new }
{
    for i in 0..out.len() {
        out[i] ^= block[i];
    }
}

/// Adds twice the block, as far as whole vectors go.
fn add_doubled_groups(block: &[u8], out: &mut [u8])
    requires { length block.now ≡ length out.old }
    ensures { AddsWithin 0 (32 * (length out.old / 32)) 2 block.now out.old out.new }
{
    for group in 0..out.len() / LANES {
        let start = LANES * group;
        let lanes = sums(load(out, start), doubled(load(block, start)));
        store(lanes, start, out);
    }
}

/// Adds the products, as far as whole vectors go.
fn add_groups(coefficient: u8, block: &[u8], out: &mut [u8])
    requires { length block.now ≡ length out.old }
    ensures { AddsWithin 0 (32 * (length out.old / 32)) coefficient block.now out.old out.new }
{
    let tables = lane_tables(coefficient);
    for group in 0..out.len() / LANES {
        let start = LANES * group;
        let lanes = sums(load(out, start), products(&tables, load(block, start)));
        store(lanes, start, out);
    }
}

/// Adds the coefficient times the block to `out`.
pub fn add_products(coefficient: u8, block: &[u8], out: &mut [u8])
    requires { length block.now ≡ length out.old }
    ensures { AddsProducts coefficient block.now out.old out.new }
{
    if coefficient == 1 {
        add_block(block, out);
        return;
    }
    if coefficient == 2 {
        add_doubled_groups(block, out);
    } else {
        add_groups(coefficient, block, out);
    }
    let rest = LANES * (out.len() / LANES);
    add_bytes(rest, coefficient, block, out);
}
