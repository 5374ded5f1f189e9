//! The laws of the field, each the contract of a function that does nothing.

ghost use Rattle.std.specs.Prelude.{◌≡◌, ◌↔◌, ℕ, ◌+◌, ◌*◌, ◌/◌, ◌%◌, ◌<◌, ◌≤◌, List};
ghost use Rattle.gf256.specs.Field.{field_sum, carryless_product, modulus, product, power, inverse, quotient};
ghost use Rattle.gf256.specs.Halves.{AreHalves, halves_sum};

/// Elements form a group under the sum, in which each element is its own negative.
pub fn sums()
    ensures closed { (a b : ℕ) → a < 256 → b < 256 → field_sum a b < 256 }
    ensures commutative { (a b : ℕ) → field_sum a b ≡ field_sum b a }
    ensures associative { (a b c : ℕ) → field_sum (field_sum a b) c ≡ field_sum a (field_sum b c) }
    ensures zero { (a : ℕ) → field_sum a 0 ≡ a }
    ensures negative { (a : ℕ) → field_sum a a ≡ 0 }
{}

/// The product is commutative and associative, has the unit 1, and distributes over sums.
pub fn products()
    ensures closed { (a b : ℕ) → a < 256 → b < 256 → product a b < 256 }
    ensures commutative { (a b : ℕ) → a < 256 → b < 256 → product a b ≡ product b a }
    ensures associative { (a b c : ℕ) → a < 256 → b < 256 → c < 256 → product (product a b) c ≡ product a (product b c) }
    ensures one { (a : ℕ) → a < 256 → product 1 a ≡ a }
    ensures zero { (a : ℕ) → product a 0 ≡ 0 }
    ensures distributive { (a b c : ℕ) → product a (field_sum b c) ≡ field_sum (product a b) (product a c) }
{}

/// Every element but 0 has one inverse, and may be divided by.
pub fn inverses()
    ensures element { (a : ℕ) → 0 < a → a < 256 → inverse a < 256 }
    ensures inverse_is { (a : ℕ) → 0 < a → a < 256 → product a (inverse a) ≡ 1 }
    ensures only { (a b : ℕ) → 0 < a → a < 256 → b < 256 → product a b ≡ 1 → b ≡ inverse a }
    ensures no_zero_factor { (a b : ℕ) → 0 < a → a < 256 → b < 256 → product a b ≡ 0 → b ≡ 0 }
    ensures quotient_is { (a b : ℕ) → a < 256 → 0 < b → b < 256 → product (quotient a b) b ≡ a }
    ensures only_quotient { (a b c : ℕ) → a < 256 → 0 < b → b < 256 → c < 256 → product c b ≡ a → c ≡ quotient a b }
{}

/// Powers of 2 multiply by adding exponents, and 2 has order 255.
pub fn powers()
    ensures element { (n : ℕ) → (0 < power n) × (power n < 256) }
    ensures apart { (m n : ℕ) → m < 255 → n < 255 → power m ≡ power n → m ≡ n }
    ensures added { (m n : ℕ) → product (power m) (power n) ≡ power (m + n) }
    ensures order { (n : ℕ) → (power n ≡ 1) ↔ (n % 255 ≡ 0) }
{}

/// The product is what the product without carries leaves when it is divided by the modulus.
pub fn reduction()
    ensures { (a b : ℕ) → (q : ℕ) × (field_sum (carryless_product modulus q) (product a b) ≡ carryless_product a b) }
{}

/// Twice an element is its coefficients moved up by one, and the modulus takes that of x^8 away.
pub fn doubling()
    ensures small { (a : ℕ) → a < 128 → product 2 a ≡ a * 2 }
    ensures large { (a : ℕ) → 128 ≤ a → a < 256 → product 2 a ≡ field_sum (a * 2) modulus }
{}

/// The product with a byte is the sum of the products with its halves, so two tables of sixteen products give it.
pub fn by_halves()
    ensures halves { (k a : ℕ) →
        field_sum (product k (a % 16)) (product k (16 * (a / 16))) ≡ product k a }
    ensures tables { (k a : ℕ) (tables : List (List ℕ)) → AreHalves k tables → a < 256 →
        halves_sum tables a ≡ product k a }
{}
