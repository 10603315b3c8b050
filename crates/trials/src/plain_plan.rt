// Plans as plain tables of coefficients, and the random ones of the histories.
use crate::generator::Generator;
use crate::plain_fields::{FieldKind, Known};
use plan::{AnyPlan, Groups, MOST_CHECK_BAYS, MOST_DATA_BAYS, Powers};

// A row of a plan, with zeros after its last data bay.
pub type Row = [u32; MOST_DATA_BAYS];

// How many codes a table has at most: 15 for each check bay.
const CODES: usize = MOST_CHECK_BAYS * MOST_DATA_BAYS;

// Which plan.
#[derive(Clone, Copy, PartialEq, Eq)]
pub enum PlanKind {
    Powers,
    Groups,
    Written,
}

// A plan as a table: entry 15 i + j is the coefficient of data bay j in check i.
#[derive(Clone, Copy)]
pub struct PlainPlan {
    pub field: FieldKind,
    pub data_bays: usize,
    pub check_bays: usize,
    table: [u32; CODES],
}

// The coefficient of data bay `j` in check `i`, by the rule of the kind. A written one is drawn.
fn coefficient(
    generator: &mut Generator,
    kind: PlanKind,
    field: FieldKind,
    check_bays: usize,
    i: usize,
    j: usize,
) -> u32 {
    match kind {
        PlanKind::Powers => field.power(j.min(15) as u32 + 1, i.min(8) as u32),
        PlanKind::Groups => u32::from(j % check_bays.max(1) == i),
        // Zeros are as likely as other codes together, so that many sets of bays tell little.
        PlanKind::Written => {
            if generator.chance(50) {
                0
            } else {
                generator.below(field.order())
            }
        }
    }
}

impl PlainPlan {
    // The plan of this kind. A written one has random entries.
    pub fn new(
        generator: &mut Generator,
        kind: PlanKind,
        field: FieldKind,
        data_bays: usize,
        check_bays: usize,
    ) -> PlainPlan {
        let mut table = [0u32; CODES];
        for k in 0..CODES {
            let (i, j) = (k / MOST_DATA_BAYS, k % MOST_DATA_BAYS);
            if i < check_bays && j < data_bays {
                table[k] = coefficient(generator, kind, field, check_bays, i, j);
            }
        }
        PlainPlan {
            field,
            data_bays,
            check_bays,
            table,
        }
    }

    // How many bays there are below.
    pub fn bays(&self) -> usize {
        self.data_bays.saturating_add(self.check_bays)
    }

    // The coefficient of data bay `j` in check `i`.
    fn coefficient(&self, i: usize, j: usize) -> u32 {
        let k = i.saturating_mul(MOST_DATA_BAYS).saturating_add(j);
        if j < MOST_DATA_BAYS {
            self.table.get(k).copied().unwrap_or(0)
        } else {
            0
        }
    }

    // Column `j` of the row of a bay.
    pub fn entry(&self, bay: usize, j: usize) -> u32 {
        if bay < self.data_bays {
            u32::from(bay == j)
        } else {
            self.coefficient(bay - self.data_bays, j)
        }
    }

    // The row of a bay.
    pub fn row(&self, bay: usize) -> Row {
        std::array::from_fn(|j| self.entry(bay, j))
    }

    // What the row of a bay gives on the words, where all are there.
    pub fn word_on(&self, bay: usize, words: &[Option<u32>]) -> Option<u32> {
        let mut all = 0;
        for (j, word) in words.iter().enumerate() {
            if j < self.data_bays {
                let product = self.field.product(self.entry(bay, j), (*word)?);
                all = self.field.sum(all, product);
            }
        }
        Some(all)
    }

    // The plan of the library that is meant by it.
    pub fn built<F: Known>(&self, kind: PlanKind) -> Option<AnyPlan<F>> {
        match kind {
            PlanKind::Powers => match Powers::<F>::new(self.data_bays, self.check_bays) {
                Ok(plan) => Some(AnyPlan::Powers(plan)),
                Err(_) => None,
            },
            PlanKind::Groups => match Groups::<F>::new(self.data_bays, self.check_bays) {
                Ok(plan) => Some(AnyPlan::Groups(plan)),
                Err(_) => None,
            },
            PlanKind::Written => {
                let codes = self.check_bays.min(MOST_CHECK_BAYS) * MOST_DATA_BAYS;
                F::written(self.data_bays, self.check_bays, &self.table[..codes])
            }
        }
    }
}
