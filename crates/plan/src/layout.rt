ghost use Rattle.std.specs.Prelude.{◌≡◌};
ghost use Rattle.plan.specs.Coefficients.{Coefficients, Fitting};

use field::Field;

// The most data bays and check bays of a plan.
pub const MOST_DATA_BAYS: usize = 15;

pub const MOST_CHECK_BAYS: usize = 8;

// A plan: n data bays, m check bays, and the coefficient f(i, j) of data bay j in check i, a code of its one field.
// It never changes its answers.
pub trait Plan {
    type F: Field;

    ghost coefficients: { Self → Coefficients };

    fn data_bays(&self) -> usize
        ensures { result ≡ (coefficients self.now).n };

    fn check_bays(&self) -> usize
        ensures { result ≡ (coefficients self.now).m };

    // 0 outside its range.
    fn coefficient(&self, i: usize, j: usize) -> u32
        ensures { result ≡ (coefficients self.now).f i j };

    ghost fitting: { (p : Self) → Fitting Self.F.Field.arithmetic (coefficients p) };
}
