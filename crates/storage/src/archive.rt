// An archive on disk, opened.
use crate::field_kind::{FieldKind, plan_of};
use crate::origin::{Inner, Origin};
use crate::part::{Part, Row};
use crate::text::text_of;
use anyhow::{Context, anyhow, bail};
use description::{Description, read_description};
use opening::open;
use plan::Plan;
use rack::Rack;
use shelf::{MOST_PLACES, Shape, Shelf};
use std::fs;

// The array, where its parts came from, and which of its places were torn when it was opened.
#[derive(Drop)]
pub struct Archive<F, S> {
    pub array: Row<F, S>,
    pub inner: Inner,
}

impl<F: FieldKind, S: Part<F>> Archive<F, S> {
    // How many data bays and places it has.
    pub fn shape(&self) -> Shape {
        Shape::from(self.array.shape())
    }

    // Whether a place was torn when the archive was opened.
    pub fn is_torn(&self, place: usize) -> bool {
        self.inner.torn.get(place).copied().unwrap_or(false)
    }
}

// The description at a path.
pub fn described(rt: &HostRuntime, path: &str) -> anyhow::Result<Description> {
    let text = fs::read(rt, path).context(format_args!("{path} can't be read"))?;
    match read_description(rt.alloc(), &text) {
        Ok(description) => Ok(description),
        Err(fault) => Err(anyhow!("{path}: {fault}")),
    }
}

// The first of the paths that has a description.
pub fn first_described<'a>(rt: &HostRuntime, paths: &'a [Vec<u8>]) -> Option<&'a [u8]> {
    for path in paths {
        if let Ok(text) = text_of(rt.alloc(), path) {
            if described(rt, &text).is_ok() {
                return Some(path);
            }
        }
    }
    None
}

// The part at a path. One that can't be opened is said on standard error, and is absent.
fn open_part<F: FieldKind, S: Part<F>>(
    rt: &HostRuntime,
    path: &[u8],
    paths: &[Vec<u8>],
    places: usize,
) -> anyhow::Result<(S, Origin)> {
    match S::open(rt, path, places) {
        Ok(part) => Ok(part),
        Err(e) => {
            eprintln!(rt; "{e:#}: its bays count as stopped")?;
            S::absent(rt, path, first_described(rt, paths).unwrap_or(path), places)
        }
    }
}

// The parts at all paths.
fn open_parts<F: FieldKind, S: Part<F>>(
    rt: &HostRuntime,
    paths: &[Vec<u8>],
    places: usize,
) -> anyhow::Result<(Vec<S>, Vec<Origin>)> {
    let mut shelves = Vec::new(rt.alloc());
    let mut origins = Vec::new(rt.alloc());
    for path in paths {
        let (shelf, origin) = open_part::<F, S>(rt, path, paths, places)?;
        shelves.push(shelf)?;
        origins.push(origin)?;
    }
    Ok((shelves, origins))
}

// The places of a description, where they are 1 to 65,536.
pub fn fit_places(path: &str, description: &Description) -> anyhow::Result<usize> {
    let places = description.places as usize;
    if !(1..=MOST_PLACES).contains(&places) {
        bail!("{path}: an archive has 1 to {MOST_PLACES} places");
    }
    Ok(places)
}

// Opens the archive of a description that was read at a path: its parts, and then every place is tested.
pub fn open_described<F: FieldKind, S: Part<F>>(
    rt: &HostRuntime,
    path: String,
    description: &Description,
) -> anyhow::Result<Archive<F, S>> {
    let plan = plan_of::<F>(rt.alloc(), description).context(format_args!("{path}"))?;
    let places = fit_places(&path, description)?;
    let (shelves, origins) = open_parts::<F, S>(rt, S::paths(description)?, places)?;
    let bays = plan.data_bays() + plan.check_bays();
    let rack = Rack::new(shelves);
    let below = Shape::from(rack.shape());
    if below.bays != bays || below.limit < F::size() {
        bail!(
            "{path}: the plan has {bays} bays, and {} go together below it",
            below.bays
        );
    }
    let opened = open(rt.alloc(), rack, plan)?;
    let torn = opened.torn;
    Ok(Archive {
        array: opened.array,
        inner: Inner {
            path,
            origins,
            torn,
            absent: false,
        },
    })
}
