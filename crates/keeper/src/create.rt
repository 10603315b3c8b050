// The blank images of a new archive.
use account::Change;
use anyhow::{Context, bail};
use description::{Below, Description};
use plan::Plan;
use storage::{FieldKind, Filing, fit_places, image_bytes, is_there, plan_of, text_of};
use trays::blank_words;

// Writes aside a blank image for each path, where there is no file yet.
fn write_blank<F: FieldKind>(
    rt: &HostRuntime,
    paths: &[Vec<u8>],
    places: usize,
    filing: &mut Filing,
) -> anyhow::Result<()> {
    let bytes = image_bytes::<F>(rt, &blank_words(rt.alloc(), places)?)?;
    for path in paths {
        let path = text_of(rt.alloc(), path)?;
        if is_there(rt, &path) {
            bail!("{path} is there already");
        }
        filing.write(rt, &path, &bytes)?;
    }
    Ok(())
}

// Writes a blank image for each bay of a description. Where one of the files is there already, none is written.
pub(crate) fn create<F: FieldKind>(
    rt: &HostRuntime,
    path: &str,
    description: &Description,
) -> anyhow::Result<()> {
    let plan = plan_of::<F>(rt.alloc(), description).context(format_args!("{path}"))?;
    let Below::Disks(paths) = &description.below else {
        bail!("{path}: its bays are those of archives: create each by its own description");
    };
    let bays = plan.data_bays() + plan.check_bays();
    if paths.len() != bays {
        bail!(
            "{path}: the plan has {bays} bays, and {} are named",
            paths.len()
        );
    }
    let fit = fit_places(path, description)?;
    let mut filing = Filing::new(rt.alloc());
    match write_blank::<F>(rt, paths, fit, &mut filing) {
        Ok(()) => filing.finish(rt, path)?,
        Err(e) => {
            filing.remove(rt);
            return Err(e);
        }
    }
    let places = description.places;
    println!(rt; "{path}: {}", Change::Created { bays, places })?;
    Ok(())
}
