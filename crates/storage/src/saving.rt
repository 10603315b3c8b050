// What is written of an archive that changed.
use crate::archive::Archive;
use crate::field_kind::FieldKind;
use crate::filing::Filing;
use crate::origin::Inner;
use crate::part::{Part, Row};
use disk::all_torn;

// Writes aside the parts of a row that changed.
pub fn save_parts<F: FieldKind, S: Part<F>>(
    rt: &HostRuntime,
    array: Row<F, S>,
    inner: &Inner,
    torn: &[bool],
    filing: &mut Filing,
) -> anyhow::Result<()> {
    let torn = all_torn(rt.alloc(), &inner.torn, torn, inner.torn.len())?;
    let (rack, _) = array.take_apart();
    for (part, origin) in rack.into_shelves().into_iter().zip(inner.origins.iter()) {
        part.save(rt, origin, &torn, filing)?;
    }
    Ok(())
}

// Saves an archive: every image that changed is written aside, and only then are they renamed, bay after bay. Answers how many there
// were.
pub fn save<F: FieldKind, S: Part<F>>(
    rt: &HostRuntime,
    archive: Archive<F, S>,
) -> anyhow::Result<usize> {
    let Archive { array, inner } = archive;
    let mut filing = Filing::new(rt.alloc());
    match save_parts(rt, array, &inner, &[], &mut filing) {
        Ok(()) => {
            filing.finish(rt, &inner.path)?;
            Ok(filing.count())
        }
        Err(e) => {
            filing.remove(rt);
            Err(e)
        }
    }
}
