// What an archive on disk needs to know of its field beyond the arithmetic.
use anyhow::{anyhow, bail};
use command::FieldName;
use description::{Description, PlanName};
use disk::Format;
use field::{Byte, Count, Field, Nibble};
use packing::Packing;
use plan::{AnyPlan, Groups, MOST_CHECK_BAYS, MOST_DATA_BAYS, Powers, Written};
use std::alloc::Global;

// The limit of an image of marks and words.
const MARKED_LIMIT: u32 = 256;

// A field that an archive on disk can have.
pub trait FieldKind: Field + Sized {
    // Its name in a description.
    fn named() -> FieldName;

    // How the images of its bays are laid out.
    fn format() -> Format;

    // How the bytes of a file go into its words.
    fn packing() -> Packing;

    // A written plan, which only the byte field has.
    fn written(
        _data_bays: usize,
        _check_bays: usize,
        _table: &[u32],
    ) -> anyhow::Result<AnyPlan<Self>> {
        Err(anyhow!("a written plan is in the byte field"))
    }

    // The limit of its disks.
    fn limit() -> u32 {
        match Self::format() {
            Format::Marked => MARKED_LIMIT,
            Format::Wide => Self::size(),
        }
    }
}

impl FieldKind for Nibble {
    fn named() -> FieldName {
        FieldName::Nibble
    }

    fn format() -> Format {
        Format::Marked
    }

    fn packing() -> Packing {
        Packing::Halves
    }
}

impl FieldKind for Byte {
    fn named() -> FieldName {
        FieldName::Byte
    }

    fn format() -> Format {
        Format::Marked
    }

    fn packing() -> Packing {
        Packing::Bytes
    }

    fn written(
        data_bays: usize,
        check_bays: usize,
        table: &[u32],
    ) -> anyhow::Result<AnyPlan<Byte>> {
        match Written::<Byte>::new(data_bays, check_bays, table) {
            Ok(plan) => Ok(AnyPlan::Written(plan)),
            Err(refusal) => Err(refused_plan(refusal)),
        }
    }
}

impl FieldKind for Count {
    fn named() -> FieldName {
        FieldName::Count
    }

    fn format() -> Format {
        Format::Wide
    }

    fn packing() -> Packing {
        Packing::Pairs
    }
}

// What is said of a plan that is not made.
fn refused_plan(refusal: plan::Refusal) -> anyhow::Error {
    let number = refusal.number();
    anyhow!("refused by {number}: {refusal}")
}

// The rows of a written plan as its table: each is filled with zeros up to the most data bays.
fn table_of(heap: Global, rows: &[Vec<u32>]) -> anyhow::Result<Vec<u32>> {
    if rows.len() > MOST_CHECK_BAYS {
        bail!("the plan has more than {MOST_CHECK_BAYS} rows");
    }
    let mut table = vec![in heap; 0u32; rows.len() * MOST_DATA_BAYS]?;
    for (line, row) in table.chunks_mut(MOST_DATA_BAYS).zip(rows) {
        for (entry, code) in line.iter_mut().zip(row) {
            *entry = *code;
        }
    }
    Ok(table)
}

// The plan of a description.
pub fn plan_of<F: FieldKind>(
    heap: Global,
    description: &Description,
) -> anyhow::Result<AnyPlan<F>> {
    let data_bays = description.data_bays as usize;
    let check_bays = description.check_bays as usize;
    match &description.plan {
        PlanName::Powers => match Powers::<F>::new(data_bays, check_bays) {
            Ok(plan) => Ok(AnyPlan::Powers(plan)),
            Err(refusal) => Err(refused_plan(refusal)),
        },
        PlanName::Groups => match Groups::<F>::new(data_bays, check_bays) {
            Ok(plan) => Ok(AnyPlan::Groups(plan)),
            Err(refusal) => Err(refused_plan(refusal)),
        },
        PlanName::Written(rows) => { F::written(data_bays, check_bays, &table_of(heap, rows)?) }
    }
}
