// Both binary multiplication tables whole against a second computation, and every inverse of the three fields.
ghost use Rattle.std.specs.Prelude.{◌<◌};

use field::{Byte, Count, Field, Nibble};
use std::io;

// The product of two polynomials by Horner's rule: from the highest coefficient of `b` on, what is there is shifted, reduced
// where it has outgrown the width, and `a` is added where the coefficient is 1.
fn horner(a: u32, b: u32, width: u32, polynomial: u32) -> u32
    requires { width < 32 }
{
    let mut all = 0u32;
    // No index: the coefficients are the bits of a number.
    for bit in (0..width).rev() {
        all <<= 1;
        if (all >> width) % 2 == 1 {
            all ^= polynomial;
        }
        if (b >> bit) % 2 == 1 {
            all ^= a;
        }
    }
    all
}

// How many products of a row of the table agree with the second computation.
fn agreeing<F: Field>(a: u32, width: u32, polynomial: u32) -> usize
    requires { width < 32 }
{
    (0..F::size())
        .filter(|b| horner(a, *b, width, polynomial) == F::product(a, *b))
        .count()
}

// How many products of the whole table agree.
fn table<F: Field>(width: u32, polynomial: u32) -> usize
    requires { width < 32 }
{
    (0..F::size())
        .map(|a| agreeing::<F>(a, width, polynomial))
        .fold(0, usize::saturating_add)
}

// How many codes times their inverse are one.
fn inverses<F: Field>() -> usize {
    (0..F::size())
        .filter(|a| F::inverse(*a).is_some_and(|inverse| F::product(*a, inverse) == 1))
        .count()
}

// Tells how much of the tables agrees.
pub fn show(rt: &HostRuntime) -> io::Result<()> {
    let nibble = table::<Nibble>(4, 0b1_0011);
    let byte = table::<Byte>(8, 0b1_0001_1101);
    println!(rt; "nibble products that agree: {nibble} of 256")?;
    println!(rt; "byte products that agree: {byte} of 65536")?;
    let (nibble, byte, count) = (
        inverses::<Nibble>(),
        inverses::<Byte>(),
        inverses::<Count>(),
    );
    println!(rt; "nibble inverses: {nibble} of 15")?;
    println!(rt; "byte inverses: {byte} of 255")?;
    println!(rt; "count inverses: {count} of 65536")
}
