// The three fields, computed plainly: binary products by Horner's rule, the count field by whole numbers, inverses by powers.
ghost use Rattle.std.specs.Prelude.{◌<◌};

use field::{Byte, Count, Field, Nibble};
use plan::{AnyPlan, Refusal, Written};

// Which field.
#[derive(Clone, Copy, PartialEq, Eq, Debug)]
pub enum FieldKind {
    Nibble,
    Byte,
    Count,
}

// The product of two polynomials by Horner's rule: from the highest coefficient of `b` on, what is there is shifted, reduced where it has
// outgrown the width, and `a` is added where the coefficient is 1.
fn horner(a: u32, b: u32, width: u32, polynomial: u32) -> u32
    requires { width < 32 }
{
    let mut all = 0u32;
    // No index: the coefficients are the bits of a number.
    for bit in (0..width).rev() {
        all <<= 1;
        if (all >> width) % 2 == 1 {
            all ^= polynomial;
        }
        if (b >> bit) % 2 == 1 {
            all ^= a;
        }
    }
    all
}

// A whole number modulo 65,537.
fn reduced(number: u64) -> u32 {
    (number % 65_537) as u32
}

impl FieldKind {
    // How many codes there are.
    pub fn order(self) -> u32 {
        match self {
            FieldKind::Nibble => 16,
            FieldKind::Byte => 256,
            FieldKind::Count => 65_537,
        }
    }

    pub fn sum(self, a: u32, b: u32) -> u32 {
        match self {
            FieldKind::Nibble | FieldKind::Byte => a ^ b,
            FieldKind::Count => reduced(u64::from(a) + u64::from(b)),
        }
    }

    pub fn difference(self, a: u32, b: u32) -> u32 {
        match self {
            FieldKind::Nibble | FieldKind::Byte => a ^ b,
            FieldKind::Count => reduced(u64::from(a) + 65_537 - u64::from(b % 65_537)),
        }
    }

    pub fn product(self, a: u32, b: u32) -> u32 {
        match self {
            FieldKind::Nibble => horner(a, b, 4, 0b1_0011),
            FieldKind::Byte => horner(a, b, 8, 0b1_0001_1101),
            FieldKind::Count => reduced(u64::from(a) * u64::from(b)),
        }
    }

    // `base` to the `exponent`, by squares.
    pub fn power(self, base: u32, exponent: u32) -> u32 {
        let mut all = 1;
        // No index: the squares go by the bits of a number.
        for bit in (0u32..17).rev() {
            all = self.product(all, all);
            if (exponent >> bit) % 2 == 1 {
                all = self.product(all, base);
            }
        }
        all
    }

    // The inverse of a code that is not zero: its power to the order less 2.
    pub fn inverse(self, a: u32) -> u32 {
        self.power(a, self.order().saturating_sub(2))
    }
}

// A field of the library that is known by its kind.
pub trait Known: Field {
    fn kind() -> FieldKind;

    // A written plan, which is made in the byte field alone.
    fn written(data_bays: usize, check_bays: usize, table: &[u32]) -> Option<AnyPlan<Self>>;
}

impl Known for Nibble {
    fn kind() -> FieldKind {
        FieldKind::Nibble
    }

    fn written(_data_bays: usize, _check_bays: usize, _table: &[u32]) -> Option<AnyPlan<Nibble>> {
        None
    }
}

impl Known for Byte {
    fn kind() -> FieldKind {
        FieldKind::Byte
    }

    fn written(data_bays: usize, check_bays: usize, table: &[u32]) -> Option<AnyPlan<Byte>> {
        match Written::new(data_bays, check_bays, table) {
            Ok(plan) => Some(AnyPlan::Written(plan)),
            Err(Refusal::BaysOutOfRange | Refusal::TableLength) => None,
        }
    }
}

impl Known for Count {
    fn kind() -> FieldKind {
        FieldKind::Count
    }

    fn written(_data_bays: usize, _check_bays: usize, _table: &[u32]) -> Option<AnyPlan<Count>> {
        None
    }
}
