// Eight states of MD5. They stand in a file of their own, since the definitions of `specs/` name the struct, and its
// ghost field must not import them.
ghost use Rattle.std.specs.Prelude.{◌≡◌, length};

use std::simd::prelude::*;

/// The four variables of eight states.
#[derive(Clone, Copy)]
pub(crate) struct State {
    pub(crate) a: u32x8,
    pub(crate) b: u32x8,
    pub(crate) c: u32x8,
    pub(crate) d: u32x8,
    ghost eight: { (length a ≡ 8) × (length b ≡ 8) × (length c ≡ 8) × (length d ≡ 8) },
}
