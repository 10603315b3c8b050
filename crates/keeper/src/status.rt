// How an archive stands: which bays run, what is filled, told and lost, and what a further loss would cost.
use account::Standing;
use linear::told_bays;
use plan::{AnyPlan, Plan};
use rack::Rack;
use shelf::{Shape, Shelf, bit};
use std::alloc::Global;
use std::collections::BTreeMap;
use storage::{Archive, FieldKind, Origin, Part};

// What stands below an archive, counted.
#[derive(Drop)]
struct Count {
    // By bay below: how many of its cells are filled.
    filled: Vec<u32>,
    // By the set of the filled bays of a place: how many places have it. Torn places are left out.
    sets: BTreeMap<u32, u32>,
}

// The set of the bays that give a word at a place.
fn filled_at<S: Shelf>(below: &mut Rack<S>, place: usize) -> u32 {
    let bays = Shape::from(below.shape()).bays.min(31);
    let mut set: u32 = 0;
    for bay in 0..bays {
        if below.read(bay, place).is_ok() {
            set |= 1 << bay;
        }
    }
    set
}

// Counts the cells below.
fn count_cells<S: Shelf>(
    heap: Global,
    below: &mut Rack<S>,
    torn: &[bool],
) -> anyhow::Result<Count> {
    let Shape { bays, places, .. } = Shape::from(below.shape());
    let mut filled = vec![in heap; 0u32; bays]?;
    let mut sets = BTreeMap::new(heap);
    for place in 0..places {
        let set = filled_at(below, place);
        for (bay, count) in filled.iter_mut().enumerate() {
            *count = count.saturating_add(u32::from(bit(set, bay)));
        }
        if !torn.get(place).copied().unwrap_or(false) {
            let count = sets.entry(set)?.or_insert(0u32);
            *count = count.saturating_add(1);
        }
    }
    Ok(Count { filled, sets })
}

// How many data bays a set of bays tells.
fn told_count<P: Plan>(plan: &P, set: u32) -> u32 {
    let told = told_bays(plan, set);
    let mut count: u32 = 0;
    for bay in 0..plan.data_bays() {
        count = count.saturating_add(u32::from(bit(told, bay)));
    }
    count
}

// How many cells of the archive are told where the bays of the second set are lost as well.
fn cells_told<P: Plan>(plan: &P, count: &Count, lost: u32) -> u32 {
    let mut cells: u32 = 0;
    for (set, places) in count.sets.iter() {
        let told = told_count(plan, *set & !lost);
        cells = cells.saturating_add(told.saturating_mul(*places));
    }
    cells
}

// What is said of a bay below: whether it runs, and where its words come from.
fn print_bay(
    rt: &HostRuntime,
    bay: usize,
    filled: u32,
    origin: Option<&Origin>,
) -> anyhow::Result<()> {
    let running = Standing::Running { bay, filled };
    let standing = Standing::Filled { bay, filled };
    match origin {
        Some(Origin::Image(image)) => match image.trouble {
            Some(trouble) => println!(rt; "bay {bay}: stopped, {trouble}: {}", image.path)?,
            None => println!(rt; "{running}: {}", image.path)?,
        },
        Some(Origin::Archive(inner)) if inner.absent => {
            println!(rt;
                "bay {bay}: stopped, the archive can't be opened: {}",
                inner.path
            )?
        }
        Some(Origin::Archive(inner)) => println!(rt; "{standing}: {}", inner.path)?,
        None => rt.println(standing)?,
    }
    Ok(())
}

// Prints what is told and lost, and what a further loss would cost.
fn print_costs<F: FieldKind>(
    rt: &HostRuntime,
    plan: &AnyPlan<F>,
    count: &Count,
    torn: usize,
) -> anyhow::Result<()> {
    let mut places: u32 = 0;
    for number in count.sets.values() {
        places = places.saturating_add(*number);
    }
    let all = places.saturating_mul(plan.data_bays() as u32);
    let told = cells_told(plan, count, 0);
    let lost = all.saturating_sub(told);
    rt.println(Standing::Cells { told, lost, torn })?;
    for bay in 0..count.filled.len().min(31) {
        let left = cells_told(plan, count, 1 << bay);
        let cost = told.saturating_sub(left);
        rt.println(Standing::Cost { bay, cells: cost })?;
    }
    Ok(())
}

// Prints how an archive stands.
pub(crate) fn print_status<F: FieldKind, S: Part<F>>(
    rt: &HostRuntime,
    archive: Archive<F, S>,
) -> anyhow::Result<()> {
    let Shape {
        bays: data_bays,
        places,
        ..
    } = archive.shape();
    let Archive { array, inner } = archive;
    let (mut below, plan) = array.take_apart();
    let bays = Shape::from(below.shape()).bays;
    let check_bays = bays.saturating_sub(data_bays);
    println!(rt;
        "{}: {} field, data bays {data_bays}, check bays {check_bays}, places {places}",
        inner.path,
        F::named()
    )?;
    let count = count_cells(rt.alloc(), &mut below, &inner.torn)?;
    let width = if inner.origins.is_empty() {
        1
    } else {
        (bays / inner.origins.len()).max(1)
    };
    for (bay, filled) in count.filled.iter().enumerate() {
        print_bay(rt, bay, *filled, inner.origins.get(bay / width))?;
    }
    let torn = inner.torn.iter().filter(|torn| **torn).count();
    print_costs(rt, &plan, &count, torn)
}

// Prints which places disagree with their checks, and which can't be told from cells that are blank.
pub(crate) fn print_verdicts<F: FieldKind, S: Part<F>>(
    rt: &HostRuntime,
    archive: &Archive<F, S>,
) -> anyhow::Result<()> {
    let mut torn: u32 = 0;
    for (place, is_torn) in archive.inner.torn.iter().enumerate() {
        if *is_torn {
            rt.println(Standing::Torn { place })?;
            torn = torn.saturating_add(1);
        }
    }
    let places = archive.inner.torn.len();
    rt.println(Standing::Verified { places, torn })?;
    Ok(())
}
