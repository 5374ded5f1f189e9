//! The field of 256 elements of the polynomial x^8 + x^4 + x^3 + x^2 + 1 (0x11d).
//!
//! An element is a byte, and the sum of two is their exclusive or, `a ^ b`. Begin at `mul` in `field.rt`. The product is
//! defined in `specs/Field.antt`, as the carry-less product of two polynomials, reduced by long division.
//! Proved: `mul`, `div`, `inv` and `pow2`, which look up logarithms and powers of 2 in tables, give exactly the product,
//! the quotient, the inverse and the power, and the field laws hold of these (module `laws`). `halves` gives two tables of
//! sixteen products, whose entries for the two halves of a byte add up to its product.
#![tactic(auto)]

mod by_halves;
mod field;
pub mod laws;
mod tables;

pub use by_halves::halves;
pub use field::{div, inv, mul, pow2};
