// The images of disks: read, and made afresh.
use crate::field_kind::FieldKind;
use crate::origin::{Image, Trouble};
use crate::text::text_of;
use anyhow::anyhow;
use disk::{Disk, Format, ImageFault, read_image, write_image};
use std::fs;
use std::io::ErrorKind;
use trays::blank_words;

// The words of the image at a path, or what is wrong with it. Only want of memory is an error.
fn image_words(
    rt: &HostRuntime,
    path: &str,
    format: Format,
    places: usize,
) -> anyhow::Result<Result<Vec<u32>, Trouble>> {
    let bytes = match fs::read(rt, path) {
        Ok(bytes) => bytes,
        Err(e) if e.kind() == ErrorKind::NotFound => return Ok(Err(Trouble::Missing)),
        Err(_) => return Ok(Err(Trouble::Unreadable)),
    };
    match read_image(rt.alloc(), format, &bytes) {
        Ok(words) if words.len() == places => Ok(Ok(words)),
        Ok(words) => Ok(Err(Trouble::Places(words.len()))),
        Err(ImageFault::Memory) => Err(anyhow!("out of memory")),
        Err(fault) => Ok(Err(Trouble::Unfit(fault))),
    }
}

// A stopped disk, whose cells are blank, since its image has this trouble.
pub fn stopped_disk<F: FieldKind>(
    rt: &HostRuntime,
    path: String,
    places: usize,
    trouble: Trouble,
) -> anyhow::Result<(Disk, Image)> {
    let words = blank_words(rt.alloc(), places)?;
    let image = Image {
        path,
        before: None,
        trouble: Some(trouble),
    };
    Ok((Disk::stopped(words, F::limit()), image))
}

// The disk with its image at a path. One without an image is stopped, and its cells are blank.
pub fn open_disk<F: FieldKind>(
    rt: &HostRuntime,
    path: &[u8],
    places: usize,
) -> anyhow::Result<(Disk, Image)> {
    let path = text_of(rt.alloc(), path)?;
    match image_words(rt, &path, F::format(), places)? {
        Ok(words) => {
            let before = Some(words.clone()?);
            let trouble = None;
            let image = Image {
                path,
                before,
                trouble,
            };
            Ok((Disk::new(words, F::limit()), image))
        }
        Err(trouble) => stopped_disk::<F>(rt, path, places, trouble),
    }
}

// The bytes of an image with these words.
pub fn image_bytes<F: FieldKind>(rt: &HostRuntime, words: &[u32]) -> anyhow::Result<Vec<u8>> {
    match write_image(rt.alloc(), F::format(), words) {
        Ok(bytes) => Ok(bytes),
        Err(fault) => Err(anyhow!("{fault}")),
    }
}
