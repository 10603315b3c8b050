ghost use Rattle.std.specs.Prelude.{◌≡◌, ◌<◌, ◌≢◌, refl};
ghost use Rattle.field.specs.Fields.{count};
ghost use Rattle.field.specs.LawfulFields as lawful_fields;

use crate::arithmetic::Field;

// The count field: whole numbers modulo the prime 65,537.
pub struct Count;

impl Field for Count {
    const ORDER: u32 = 65_537;

    ghost ORDER = { 65_537 };

    ghost arithmetic = { count };

    ghost order_is = { refl };

    ghost lawful = { lawful_fields.count };

    fn sum(a: u32, b: u32) -> u32 {
        (a % Self::ORDER + b % Self::ORDER) % Self::ORDER
    }

    fn difference(a: u32, b: u32) -> u32 {
        (a % Self::ORDER + (Self::ORDER - b % Self::ORDER)) % Self::ORDER
    }

    fn product(a: u32, b: u32) -> u32 {
        reduced_product(a % Self::ORDER, b % Self::ORDER)
    }

    fn inverse(a: u32) -> Option<u32> {
        let a = a % Self::ORDER;
        if a == 0 { None } else { Some(count_inverse(a)) }
    }
}

// The product of two codes. A remainder by the order fits 32 bits, so it is cast.
fn reduced_product(a: u32, b: u32) -> u32
    requires { (a < count.order) × (b < count.order) }
    ensures { result ≡ count.mul a b }
{
    (u64::from(a) * u64::from(b) % u64::from(Count::ORDER)) as u32
}

// Divides the order by what is left of `a` until 1 is left: `found` times `a` is always what is left, modulo the order.
#[tactic(auto, using(crate::specs::Prime::prime, crate::specs::Residues::step))]
fn count_inverse(a: u32) -> u32
    requires { (a < count.order) × (a ≢ 0) }
    ensures { result ≡ count.inv a }
{
    let mut rest = a;
    let mut found = 1;
    // Euclid's steps: no index.
    while rest > 1 {
        found = reduced_product(found, Count::ORDER - Count::ORDER / rest);
        rest = Count::ORDER % rest;
    }
    found
}
