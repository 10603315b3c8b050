use crate::archive::{described, open_described};
use crate::field_kind::{FieldKind, plan_of};
use crate::filing::Filing;
use crate::image::{image_bytes, open_disk, stopped_disk};
use crate::origin::{Inner, Origin, Trouble};
use crate::saving::save_parts;
use crate::text::text_of;
use anyhow::{anyhow, bail};
use array::Array;
use description::{Below, Description};
use disk::{Disk, words_to_save};
use plan::AnyPlan;
use rack::Rack;
use shelf::{Clearable, Refusal};

// An array over a row of parts.
pub type Row<F, S> = Array<Rack<S>, AnyPlan<F>>;

// Why a bay below an archive was not serviced.
#[derive(Clone, Copy, Debug, PartialEq, Eq)]
pub enum NotServed {
    // The bays below are those of archives, which are serviced by their own descriptions.
    Archives,
    // The call is refused.
    Refused(Refusal),
}

impl NotServed {
    // What is said of it, of a bay below.
    pub fn error(self, bay: usize) -> anyhow::Error {
        match self {
            NotServed::Archives => {
                anyhow!("the bays below are those of archives: service each by its own description")
            }
            NotServed::Refused(refusal) => {
                let number = refusal.number();
                anyhow!("bay {bay}: refused by {number}: {refusal}")
            }
        }
    }
}

// What the row below an archive is made of: disks, or other archives.
pub trait Part<F: FieldKind>: Clearable + Drop + Sized {
    // The paths of the parts that a description names.
    fn paths(description: &Description) -> anyhow::Result<&[Vec<u8>]>;

    // The part at a path, and where it came from. It has so many places.
    fn open(rt: &HostRuntime, path: &[u8], places: usize) -> anyhow::Result<(Self, Origin)>;

    // A part that can't be opened, in the place of the one at a path: its bays are stopped, and its cells blank. It has the shape of the
    // part at the path of the model.
    fn absent(
        rt: &HostRuntime,
        path: &[u8],
        model: &[u8],
        places: usize,
    ) -> anyhow::Result<(Self, Origin)>;

    // Writes aside what changed. A place that is torn keeps the words that it had, where nothing was stored since.
    fn save(
        self,
        rt: &HostRuntime,
        origin: &Origin,
        torn: &[bool],
        filing: &mut Filing,
    ) -> anyhow::Result<()>;

    // Puts a fresh device in a bay below an array over such parts.
    fn exchange(_array: &mut Row<F, Self>, _bay: usize) -> Result<(), NotServed> {
        Err(NotServed::Archives)
    }

    // Sweeps a bay below an array over such parts.
    fn sweep(
        _array: &mut Row<F, Self>,
        _bay: usize,
        _first: usize,
        _answers: &mut [u8],
    ) -> Result<(), NotServed> {
        Err(NotServed::Archives)
    }
}

impl<F: FieldKind> Part<F> for Disk {
    fn paths(description: &Description) -> anyhow::Result<&[Vec<u8>]> {
        match &description.below {
            Below::Disks(paths) => Ok(paths),
            Below::Archives(_) => Err(anyhow!("its bays are those of archives")),
        }
    }

    fn open(rt: &HostRuntime, path: &[u8], places: usize) -> anyhow::Result<(Disk, Origin)> {
        let (disk, image) = open_disk::<F>(rt, path, places)?;
        Ok((disk, Origin::Image(image)))
    }

    fn absent(
        rt: &HostRuntime,
        path: &[u8],
        _model: &[u8],
        places: usize,
    ) -> anyhow::Result<(Disk, Origin)> {
        let path = text_of(rt.alloc(), path)?;
        let (disk, image) = stopped_disk::<F>(rt, path, places, Trouble::Missing)?;
        Ok((disk, Origin::Image(image)))
    }

    // A stopped disk has no image that could change.
    fn save(
        self,
        rt: &HostRuntime,
        origin: &Origin,
        torn: &[bool],
        filing: &mut Filing,
    ) -> anyhow::Result<()> {
        let Origin::Image(image) = origin else {
            return Ok(());
        };
        if !self.running {
            return Ok(());
        }
        let Some(before) = &image.before else {
            let bytes = image_bytes::<F>(rt, &self.words)?;
            return filing.write(rt, &image.path, &bytes);
        };
        let words = words_to_save(rt.alloc(), before, &self.words, torn, self.limit)?;
        if words == *before {
            return Ok(());
        }
        filing.write(rt, &image.path, &image_bytes::<F>(rt, &words)?)
    }

    fn exchange(array: &mut Row<F, Disk>, bay: usize) -> Result<(), NotServed> {
        array.exchange(bay).map_err(NotServed::Refused)
    }

    fn sweep(
        array: &mut Row<F, Disk>,
        bay: usize,
        first: usize,
        answers: &mut [u8],
    ) -> Result<(), NotServed> {
        array.sweep(bay, first, answers).map_err(NotServed::Refused)
    }
}

impl<F: FieldKind, S: Part<F>> Part<F> for Row<F, S> {
    fn paths(description: &Description) -> anyhow::Result<&[Vec<u8>]> {
        match &description.below {
            Below::Archives(paths) => Ok(paths),
            Below::Disks(_) => Err(anyhow!("its bays are disks")),
        }
    }

    fn open(rt: &HostRuntime, path: &[u8], places: usize) -> anyhow::Result<(Row<F, S>, Origin)> {
        let path = text_of(rt.alloc(), path)?;
        let description = described(rt, &path)?;
        if description.field != F::named() || description.places as usize != places {
            bail!("{path}: it has not the field and the places of the archive above it");
        }
        let archive = open_described::<F, S>(rt, path, &description)?;
        Ok((archive.array, Origin::Archive(archive.inner)))
    }

    fn absent(
        rt: &HostRuntime,
        path: &[u8],
        model: &[u8],
        places: usize,
    ) -> anyhow::Result<(Row<F, S>, Origin)> {
        let description = described(rt, &text_of(rt.alloc(), model)?)?;
        let plan = plan_of::<F>(rt.alloc(), &description)?;
        let mut shelves = Vec::new(rt.alloc());
        let mut origins = Vec::new(rt.alloc());
        for part in S::paths(&description)? {
            let (shelf, origin) = S::absent(rt, part, part, places)?;
            shelves.push(shelf)?;
            origins.push(origin)?;
        }
        let inner = Inner {
            path: text_of(rt.alloc(), path)?,
            origins,
            torn: vec![in rt.alloc(); false; places]?,
            absent: true,
        };
        let array = Array::assemble(Rack::new(shelves), plan);
        Ok((array, Origin::Archive(inner)))
    }

    fn save(
        self,
        rt: &HostRuntime,
        origin: &Origin,
        torn: &[bool],
        filing: &mut Filing,
    ) -> anyhow::Result<()> {
        match origin {
            Origin::Archive(inner) => save_parts(rt, self, inner, torn, filing),
            Origin::Image(_) => Ok(()),
        }
    }
}
