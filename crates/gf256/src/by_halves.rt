//! The products with one factor, by the two halves of a byte.

ghost use Rattle.std.specs.Prelude.{◌≡◌, ℕ, ◌*◌, ◌<◌, ◌≤◌, slice_index};
ghost use Rattle.gf256.specs.Field.{product};
ghost use Rattle.gf256.specs.Halves.{AreHalves, halves_sum};

use crate::field::mul;

/// The products of `k` with 0, `step`, 2 times `step` and so on.
fn products_by(k: u8, step: u8) -> [u8; 16]
    requires { step ≤ 16 }
    ensures { (i : ℕ) → i < 16 → slice_index result i ≡ product k (step * i) }
{
    let mut products = [0; 16];
    for i in 0..16u8 {
        products[i as usize] = mul(k, step * i);
    }
    products
}

/// The products of `k` with the bytes below 16, and with 16 times each of these. The product with any byte is the sum of
/// the entry for its low half and of that for its high half.
pub fn halves(k: u8) -> [[u8; 16]; 2]
    ensures tables { AreHalves k result }
    ensures sum { (a : ℕ) → a < 256 → halves_sum result a ≡ product k a }
{
    [products_by(k, 1), products_by(k, 16)]
}

#[cfg(test)]
mod tests {
    use super::*;
    use std::test::Fail;

    #[test]
    fn products_of_two_by_halves(rt: HostRuntime) -> Result<(), Fail> {
        let [low, high] = halves(2);
        assert_eq!(rt; [low[0], low[1], low[15]], [0x00, 0x02, 0x1e]);
        assert_eq!(rt;
            [high[0], high[7], high[8], high[15]],
            [0x00, 0xe0, 0x1d, 0xfd]
        );
        Ok(())
    }
}
