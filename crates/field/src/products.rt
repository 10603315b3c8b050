ghost use Rattle.field.specs.Polynomials.{IsRemainder};

// The products of the two binary fields are the remainders of the whole products by their polynomials.
pub fn products_are_remainders()
    ensures nibble { IsRemainder 4 0x13 }
    ensures byte { IsRemainder 8 0x11d }
{}
