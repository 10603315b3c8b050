// Fresh devices in the bays below an archive, and what mends them.
use account::{Change, Tally};
use shelf::{Shape, Shelf};
use storage::{Archive, FieldKind, Origin, Part};

// How many places are swept between two words of progress.
const STEP: usize = 4096;

// Puts a fresh device in a bay below. Its image is written anew, whatever was there.
pub(crate) fn exchange<F: FieldKind, S: Part<F>>(
    archive: &mut Archive<F, S>,
    bay: usize,
) -> anyhow::Result<Change> {
    S::exchange(&mut archive.array, bay).map_err(|e| e.error(bay))?;
    if let Some(Origin::Image(image)) = archive.inner.origins.get_mut(bay) {
        image.before = None;
        image.trouble = None;
    }
    Ok(Change::Exchanged { bay })
}

// Sweeps a bay below over all places, and says on standard error how far it is.
fn sweep_bay<F: FieldKind, S: Part<F>>(
    rt: &HostRuntime,
    archive: &mut Archive<F, S>,
    bay: usize,
) -> anyhow::Result<Change> {
    let Shape { places, .. } = archive.shape();
    let mut answers = vec![in rt.alloc(); 0u8; STEP]?;
    let mut counts = Tally::new();
    for first in (0..places).step_by(STEP) {
        let count = STEP.min(places - first);
        S::sweep(&mut archive.array, bay, first, &mut answers[..count]).map_err(|e| e.error(bay))?;
        counts = counts.and(&answers[..count]);
        if places > STEP {
            eprintln!(rt; "bay {bay}: swept {} of {places} places", first + count)?;
        }
    }
    let Tally {
        whole,
        mended,
        lost,
        stopped,
    } = counts;
    Ok(Change::Swept {
        bay,
        whole,
        mended,
        lost,
        stopped,
    })
}

// Sweeps one bay below, or all, and lists what was done.
pub(crate) fn sweep<F: FieldKind, S: Part<F>>(
    rt: &HostRuntime,
    archive: &mut Archive<F, S>,
    bay: Option<u32>,
    changes: &mut Vec<Change>,
) -> anyhow::Result<()> {
    match bay {
        Some(bay) => changes.push(sweep_bay(rt, archive, bay as usize)?)?,
        None => {
            let bays = Shape::from(archive.array.below().shape()).bays;
            for bay in 0..bays {
                changes.push(sweep_bay(rt, archive, bay)?)?;
            }
        }
    }
    Ok(())
}
