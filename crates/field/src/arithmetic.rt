ghost use Rattle.std.specs.Prelude.{◌≡◌, ℕ, ◌%◌};
ghost use Rattle.field.specs.Arithmetic.{Arithmetic, Lawful, inverse_of};

// A finite field. Its elements are the codes 0 to ORDER - 1; code 0 is zero and code 1 is one.
// A code at or above the order that is passed to a call counts as its remainder by the order.
pub trait Field {
    const ORDER: u32;

    ghost ORDER: { ℕ };

    // What the calls compute, on numbers.
    ghost arithmetic: { Arithmetic };

    // How many codes there are.
    fn size() -> u32
        ensures { result ≡ arithmetic.order }
    {
        Self::ORDER
    }

    fn sum(a: u32, b: u32) -> u32
        ensures { result ≡ arithmetic.add (a % arithmetic.order) (b % arithmetic.order) };

    fn difference(a: u32, b: u32) -> u32
        ensures { result ≡ arithmetic.sub (a % arithmetic.order) (b % arithmetic.order) };

    fn product(a: u32, b: u32) -> u32
        ensures { result ≡ arithmetic.mul (a % arithmetic.order) (b % arithmetic.order) };

    // None for zero alone.
    fn inverse(a: u32) -> Option<u32>
        ensures { result ≡ inverse_of arithmetic (a % arithmetic.order) };

    ghost order_is: { ORDER ≡ arithmetic.order };

    ghost lawful: { Lawful arithmetic };
}
