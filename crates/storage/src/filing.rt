// Files are written aside first. Once all are, a list of them is put down, and then they are renamed: from the list on the change is made,
// and what a crash leaves undone of it is done at the next opening.
use crate::text::text_of;
use anyhow::Context;
use command::Cursor;
use journal::{aside_of, list_of, list_text};
use std::alloc::Global;
use std::fs;

// The files that are written aside, by the paths that they are to have, in the order in which they are to be renamed.
#[derive(Drop)]
pub struct Filing {
    paths: Vec<String>,
}

// Renames a file that was written aside. One that is not there was renamed before.
fn rename_aside(rt: &HostRuntime, path: &str) -> anyhow::Result<()> {
    let aside = aside_of(rt.alloc(), path)?;
    if is_there(rt, &aside) {
        fs::rename(rt, &aside, path).context(format_args!("{path} can't be replaced"))?;
    }
    Ok(())
}

impl Filing {
    pub fn new(heap: Global) -> Filing {
        Filing {
            paths: Vec::new(heap),
        }
    }

    // How many files there are.
    pub fn count(&self) -> usize {
        self.paths.len()
    }

    // Writes a file aside.
    pub fn write(&mut self, rt: &HostRuntime, path: &str, bytes: &[u8]) -> anyhow::Result<()> {
        let aside = aside_of(rt.alloc(), path)?;
        // It is listed before it is written, so that what was begun is removed where the write fails.
        self.paths.push(path.to_string(rt.alloc())?)?;
        fs::write(rt, &aside, bytes).context(format_args!("{aside} can't be written"))?;
        Ok(())
    }

    // Makes the change of an archive: puts down the list, renames the files in turn, and removes the list.
    pub fn finish(&self, rt: &HostRuntime, archive: &str) -> anyhow::Result<()> {
        if self.paths.is_empty() {
            return Ok(());
        }
        let list = list_of(rt.alloc(), archive)?;
        let text = list_text(rt.alloc(), &self.paths)?;
        let aside = aside_of(rt.alloc(), &list)?;
        fs::write(rt, &aside, &text).context(format_args!("{aside} can't be written"))?;
        fs::rename(rt, &aside, &list).context(format_args!("{list} can't be written"))?;
        for path in self.paths.iter() {
            rename_aside(rt, path)?;
        }
        fs::remove_file(rt, &list).context(format_args!("{list} can't be removed"))?;
        Ok(())
    }

    // Removes what was written aside, as where not all could be.
    pub fn remove(&self, rt: &HostRuntime) {
        for path in self.paths.iter() {
            if let Ok(aside) = aside_of(rt.alloc(), path) {
                // What can't be removed is left: the next write replaces it.
                let _ = fs::remove_file(rt, &aside);
            }
        }
    }
}

// Renames the files of a list. Answers how many could not be.
fn rename_listed(rt: &HostRuntime, text: &[u8]) -> anyhow::Result<usize> {
    let mut left: usize = 0;
    for path in Cursor::new(text) {
        if rename_aside(rt, &text_of(rt.alloc(), path)?).is_err() {
            left = left.saturating_add(1);
        }
    }
    Ok(left)
}

// Finishes a change of an archive that a crash left undone. Where a file can't be renamed now, the list stays for the next time.
pub fn finish_left(rt: &HostRuntime, archive: &str) -> anyhow::Result<()> {
    let list = list_of(rt.alloc(), archive)?;
    if !is_there(rt, &list) {
        return Ok(());
    }
    let text = fs::read(rt, &list).context(format_args!("{list} can't be read"))?;
    let left = rename_listed(rt, &text)?;
    if left > 0 {
        eprintln!(rt; "{archive}: of a change that was broken off {left} images are left")?;
        return Ok(());
    }
    fs::remove_file(rt, &list).context(format_args!("{list} can't be removed"))?;
    eprintln!(rt; "{archive}: a change that was broken off is made")?;
    Ok(())
}

// Whether there is a file at a path.
pub fn is_there(rt: &HostRuntime, path: &str) -> bool {
    fs::metadata(rt, path).is_ok()
}
