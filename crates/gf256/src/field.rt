//! Products, quotients and powers of elements, by tables of logarithms.

ghost use Rattle.std.specs.Prelude.{◌≡◌, ◌<◌};
ghost use Rattle.gf256.specs.Field.{product, quotient, inverse, power};

use crate::tables::{LOGARITHMS, POWERS};

/// The n below 255 for which 2 to the n is `a`, which isn't 0.
fn logarithm(a: u8) -> usize
    requires { 0 < a }
    ensures below { result < 255 }
    ensures power_is { power result ≡ a }
{
    LOGARITHMS[a as usize] as usize
}

/// 2 to the n, at n up to the greatest sum of two logarithms and of one with 255.
#[tactic(auto, using(crate::proofs::TableLemmas::powers_at))]
fn power_at(n: usize) -> u8
    requires { n < 510 }
    ensures { result ≡ power n }
{
    POWERS[n]
}

/// The product of two elements.
pub fn mul(a: u8, b: u8) -> u8
    ensures { result ≡ product a b }
{
    if a == 0 || b == 0 {
        0
    } else {
        power_at(logarithm(a) + logarithm(b))
    }
}

/// The element whose product with `b` is `a`.
pub fn div(a: u8, b: u8) -> u8
    requires { 0 < b }
    ensures quotient_is { result ≡ quotient a b }
    ensures product_is { product result b ≡ a }
{
    mul(a, inv(b))
}

/// The element whose product with `a` is 1.
pub fn inv(a: u8) -> u8
    requires { 0 < a }
    ensures inverse_is { result ≡ inverse a }
    ensures product_is { product a result ≡ 1 }
{
    power_at(255 - logarithm(a))
}

/// 2 to the n.
pub fn pow2(n: u32) -> u8
    ensures { result ≡ power n }
{
    power_at((n % 255) as usize)
}

#[cfg(test)]
mod tests {
    use super::*;
    use std::test::Fail;

    /// Twice an element.
    fn doubled(a: u8) -> u8
        ensures { result ≡ product 2 a }
    {
        let twice = a as u16 * 2;
        if twice < 256 {
            twice as u8
        } else {
            (twice ^ 0x11d) as u8
        }
    }

    /// The product by shifts and sums, without a table.
    fn product_by_shifts(a: u8, b: u8) -> u8
        ensures { result ≡ product a b }
    {
        let mut sum = 0;
        let mut shifted = a;
        let mut rest = b;
        while rest != 0 {
            if rest % 2 == 1 {
                sum ^= shifted;
            }
            shifted = doubled(shifted);
            rest /= 2;
        }
        sum
    }

    #[test]
    fn all_products_are_those_by_shifts(rt: HostRuntime) -> Result<(), Fail> {
        for a in 0..=255u8 {
            for b in 0..=255u8 {
                assert_eq!(rt; mul(a, b), product_by_shifts(a, b));
            }
        }
        Ok(())
    }

    #[test]
    fn values_of_the_published_code(rt: HostRuntime) -> Result<(), Fail> {
        assert_eq!(rt; mul(0xf5, 0x8c), 0x03);
        assert_eq!(rt;
            [div(1, 2), div(1, 4), div(1, 3), inv(2)],
            [0x8e, 0x47, 0xf4, 0x8e]
        );
        assert_eq!(rt;
            [pow2(8), pow2(25), pow2(250), pow2(255)],
            [0x1d, 0x03, 0x6c, 0x01]
        );
        Ok(())
    }
}
