// Single cells of an archive, and the list of the lost ones.
use account::{Change, Finding};
use anyhow::anyhow;
use orders::Run;
use shelf::{LostCell, Refusal, Shape, Shelf, survey};
use storage::{Archive, FieldKind, Part};

// What is said of a call that is refused.
pub(crate) fn refused(refusal: Refusal) -> anyhow::Error {
    anyhow!("refused by {}: {refusal}", refusal.number())
}

// What is said of a call on a cell that is refused.
fn refused_cell<F: FieldKind, S: Part<F>>(
    archive: &Archive<F, S>,
    bay: usize,
    place: usize,
    refusal: Refusal,
) -> anyhow::Error {
    if refusal == Refusal::Lost && archive.is_torn(place) {
        anyhow!("bay {bay} place {place}: the place is torn")
    } else {
        let number = refusal.number();
        anyhow!("bay {bay} place {place}: refused by {number}: {refusal}")
    }
}

// Reads a cell.
pub(crate) fn read<F: FieldKind, S: Part<F>>(
    rt: &HostRuntime,
    archive: &mut Archive<F, S>,
    bay: usize,
    place: usize,
) -> anyhow::Result<()> {
    match archive.array.read(bay, place) {
        Ok(word) => rt.println(Finding::Word { bay, place, word })?,
        Err(refusal) => return Err(refused_cell(archive, bay, place, refusal)),
    }
    Ok(())
}

// Writes a cell.
pub(crate) fn write<F: FieldKind, S: Part<F>>(
    archive: &mut Archive<F, S>,
    bay: usize,
    place: usize,
    word: u32,
) -> anyhow::Result<Change> {
    match archive.array.write(bay, place, word) {
        Ok(()) => Ok(Change::Written { bay, place, word }),
        Err(refusal) => Err(refused_cell(archive, bay, place, refusal)),
    }
}

// What is said of a call on a run of places that is refused.
pub(crate) fn refused_run(first: usize, count: usize, refusal: Refusal) -> anyhow::Error {
    let number = refusal.number();
    anyhow!("{count} places from place {first} on: refused by {number}: {refusal}")
}

// The run that is meant: all places where none is said.
pub(crate) fn run_of(run: Option<Run>, places: usize) -> (usize, usize) {
    match run {
        Some(run) => (run.first as usize, run.count as usize),
        None => (0, places),
    }
}

// Lists the cells of a run that are lost, place after place.
pub(crate) fn list_lost<F: FieldKind, S: Part<F>>(
    rt: &HostRuntime,
    archive: &mut Archive<F, S>,
    run: Option<Run>,
) -> anyhow::Result<()> {
    let Shape { bays, places, .. } = archive.shape();
    let (first, count) = run_of(run, places);
    let room = bays.saturating_mul(count.min(places));
    let mut list = vec![in rt.alloc(); LostCell { bay: 0, place: 0 }; room]?;
    let found = match survey(&mut archive.array, first, count, &mut list) {
        Ok(found) => found,
        Err(refusal) => return Err(refused_run(first, count, refusal)),
    };
    rt.println(Finding::Surveyed { lost: found })?;
    for cell in list.iter().take(found) {
        let LostCell { bay, place } = *cell;
        if archive.is_torn(place) {
            rt.println(Finding::TornCell { place, bay })?;
        } else {
            rt.println(Finding::LostCell { place, bay })?;
        }
    }
    Ok(())
}
