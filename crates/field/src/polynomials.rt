#![tactic(auto, unfolding(crate::specs::Polynomials::mul_mod, crate::specs::Polynomials::carryless, crate::specs::Polynomials::remainder, crate::specs::PowersOfX::powers_from, crate::specs::PowersOfX::place, crate::specs::PowersOfX::places_from))]

ghost use Rattle.std.specs.Prelude.{◌≡◌, ℕ, ◌-◌, ◌*◌, ◌^◌, ◌<◌, ◌≢◌, refl};
ghost use Rattle.field.specs.Polynomials.{binary};
ghost use Rattle.field.specs.Powers.{power_of_x, Cyclic};
ghost use Rattle.field.specs.PowersOfX.{Tables, powers_table, logs_table};
ghost use Rattle.field.specs.LawfulFields as lawful_fields;

use crate::arithmetic::Field;
use crate::tables;

// A field of binary polynomials of `width` coefficients modulo `modulus`, by the powers of x: each code but 0 is one.
// A code is cast to index a table: Rust has no From of u32 for usize.
trait Binary {
    // How many codes there are: 2 to the width.
    const CODES: u32;

    ghost CODES: { ℕ };

    ghost width: { ℕ };

    ghost modulus: { ℕ };

    // The powers of x, once round and again up to the last sum of two logarithms.
    fn powers() -> &'static [u8]
        ensures { result.now ≡ powers_table width modulus };

    // The power of x that each code is, and 0 for 0.
    fn logs() -> &'static [u8]
        ensures { result.now ≡ logs_table width modulus };

    // The power of x that `a` is.
    #[tactic(auto, using(crate::specs::PowersOfX::logs_length, crate::specs::PowersOfX::log_below, crate::specs::PowersOfX::log_power))]
    fn log(a: u32) -> usize
        requires { (a < 2 ^ width) × (a ≢ 0) }
        ensures below { result < 2 ^ width - 1 }
        ensures right { power_of_x width modulus result ≡ a }
    {
        usize::from(Self::logs()[a as usize])
    }

    // x to the i.
    #[tactic(auto, using(crate::specs::PowersOfX::powers_length, crate::specs::PowersOfX::power_at))]
    fn power(i: usize) -> u32
        requires { i < 2 * (2 ^ width - 1) - 1 }
        ensures { result ≡ power_of_x width modulus i }
    {
        u32::from(Self::powers()[i])
    }

    ghost codes_is: { CODES ≡ 2 ^ width };

    ghost cyclic: { Cyclic width modulus };

    ghost tables: { Tables width modulus };
}

// Sum and difference are exclusive or; a product adds logarithms, and an inverse takes one from a whole turn.
impl<B: Binary> Field for B {
    const ORDER: u32 = B::CODES;

    ghost ORDER = { B.CODES };

    ghost arithmetic = { binary B.width B.modulus };

    ghost order_is = { B.codes_is };

    ghost lawful = { (B.cyclic).laws };

    #[tactic(auto, using(std::proofs::lemmas::Nat::xor_mod))]
    fn sum(a: u32, b: u32) -> u32 {
        (a ^ b) % B::CODES
    }

    fn difference(a: u32, b: u32) -> u32 {
        Self::sum(a, b)
    }

    #[tactic(auto, using(crate::specs::BinaryField::zero_left, crate::specs::BinaryField::zero_right, crate::specs::BinaryField::product_is))]
    fn product(a: u32, b: u32) -> u32 {
        let a = a % B::CODES;
        let b = b % B::CODES;
        if a == 0 || b == 0 {
            0
        } else {
            B::power(B::log(a) + B::log(b))
        }
    }

    #[tactic(auto, using(crate::specs::BinaryField::inverse_is, crate::specs::Laws::some_elsewhere))]
    fn inverse(a: u32) -> Option<u32> {
        let a = a % B::CODES;
        if a == 0 {
            None
        } else {
            Some(B::power(B::CODES as usize - 1 - B::log(a)))
        }
    }
}

// The nibble field: codes of 4 bits, by the polynomial x^4 + x + 1.
pub struct Nibble;

impl Binary for Nibble {
    const CODES: u32 = 16;

    ghost CODES = { 16 };

    ghost width = { 4 };

    ghost modulus = { 0x13 };

    ghost codes_is = { refl };

    ghost cyclic = { lawful_fields.nibble };

    ghost tables = { lawful_fields.nibble_tables };

    fn powers() -> &'static [u8] {
        tables::NIBBLE_POWERS
    }

    fn logs() -> &'static [u8] {
        tables::NIBBLE_LOGS
    }
}

// The byte field: codes of 8 bits, by the polynomial x^8 + x^4 + x^3 + x^2 + 1.
pub struct Byte;

impl Binary for Byte {
    const CODES: u32 = 256;

    ghost CODES = { 256 };

    ghost width = { 8 };

    ghost modulus = { 0x11d };

    ghost codes_is = { refl };

    ghost cyclic = { lawful_fields.byte };

    ghost tables = { lawful_fields.byte_tables };

    fn powers() -> &'static [u8] {
        tables::BYTE_POWERS
    }

    fn logs() -> &'static [u8] {
        tables::BYTE_LOGS
    }
}
