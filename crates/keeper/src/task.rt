// Tasks on an archive, whatever its field and however deep it is.
use crate::cells::{list_lost, read, write};
use crate::create::create;
use crate::files::{get, put};
use crate::service::{exchange, sweep};
use crate::status::{print_status, print_verdicts};
use crate::table::{lay, print_table};
use account::Change;
use anyhow::{Context, anyhow, bail};
use command::FieldName;
use description::{Below, Description};
use disk::Disk;
use field::{Byte, Count, Nibble};
use orders::Task;
use std::fs;
use std::io::Read;
use storage::{
    Archive, FieldKind, Part, Row, described, finish_left, first_described, open_described, save,
    text_of,
};

// Whether a task may read standard input.
#[derive(Clone, Copy, Debug, PartialEq, Eq)]
pub enum Input {
    // It may.
    Free,
    // A script is read from it.
    Taken,
}

// The name and the text of a table: that of a file, or of standard input.
fn table_text(
    rt: &HostRuntime,
    path: Option<&[u8]>,
    input: Input,
) -> anyhow::Result<(String, Vec<u8>)> {
    match path {
        Some(path) => {
            let name = text_of(rt.alloc(), path)?;
            let text = fs::read(rt, &name).context(format_args!("{name} can't be read"))?;
            Ok((name, text))
        }
        None if input == Input::Taken => bail!("a script lays a table from a file"),
        None => {
            let mut text = Vec::new(rt.alloc());
            rt.stdin().read_to_end(&mut text)?;
            Ok(("standard input".to_string(rt.alloc())?, text))
        }
    }
}

// Carries out a task that changes the archive in memory, and lists what was done.
fn change<F: FieldKind, S: Part<F>>(
    rt: &HostRuntime,
    archive: &mut Archive<F, S>,
    task: Task,
    input: Input,
    changes: &mut Vec<Change>,
) -> anyhow::Result<()> {
    match task {
        Task::Lay(path) => {
            let (name, text) = table_text(rt, path, input)?;
            changes.push(lay(rt, archive, &name, &text)?)?;
        }
        Task::Write { bay, place, word } => {
            changes.push(write(archive, bay as usize, place as usize, word)?)?;
        }
        Task::Exchange { bay } => changes.push(exchange(archive, bay as usize)?)?,
        Task::Sweep(bay) => sweep(rt, archive, bay, changes)?,
        Task::Put(path) => {
            let name = text_of(rt.alloc(), path)?;
            let bytes = fs::read(rt, &name).context(format_args!("{name} can't be read"))?;
            changes.push(put(rt, archive, &name, &bytes)?)?;
        }
        _ => {}
    }
    Ok(())
}

// Carries out a task that changes the archive, saves it, and only then says what was done.
fn change_and_save<F: FieldKind, S: Part<F>>(
    rt: &HostRuntime,
    mut archive: Archive<F, S>,
    task: Task,
    input: Input,
) -> anyhow::Result<()> {
    let mut changes = Vec::new(rt.alloc());
    change(rt, &mut archive, task, input, &mut changes)?;
    let written = save(rt, archive)?;
    for change in changes {
        rt.println(change)?;
    }
    rt.println(Change::Images { written })?;
    Ok(())
}

// Carries out a task on an archive over parts of one type.
fn on_parts<F: FieldKind, S: Part<F>>(
    rt: &HostRuntime,
    path: String,
    description: &Description,
    task: Task,
    input: Input,
) -> anyhow::Result<()> {
    let mut archive = open_described::<F, S>(rt, path, description)?;
    match task {
        Task::Read { bay, place } => read(rt, &mut archive, bay as usize, place as usize),
        Task::Print(run) => print_table(rt, &mut archive, run),
        Task::Survey(run) => list_lost(rt, &mut archive, run),
        Task::Status => print_status(rt, archive),
        Task::Verify => print_verdicts(rt, &archive),
        Task::Get(path) => get(rt, &mut archive, &text_of(rt.alloc(), path)?),
        task => change_and_save(rt, archive, task, input),
    }
}

// Carries out a task on an archive over other archives: over disks, or over archives again.
fn on_archives<F: FieldKind>(
    rt: &HostRuntime,
    path: String,
    description: &Description,
    first: &[u8],
    task: Task,
    input: Input,
) -> anyhow::Result<()> {
    let inner = described(rt, &text_of(rt.alloc(), first)?)?;
    match inner.below {
        Below::Disks(_) => on_parts::<F, Row<F, Disk>>(rt, path, description, task, input),
        Below::Archives(_) => {
            on_parts::<F, Row<F, Row<F, Disk>>>(rt, path, description, task, input)
        }
    }
}

// Carries out a task on an archive of a field.
fn in_field<F: FieldKind>(
    rt: &HostRuntime,
    path: String,
    description: &Description,
    task: Task,
    input: Input,
) -> anyhow::Result<()> {
    if task == Task::Create {
        return create::<F>(rt, &path, description);
    }
    match &description.below {
        Below::Disks(_) => on_parts::<F, Disk>(rt, path, description, task, input),
        Below::Archives(paths) => match first_described(rt, paths) {
            Some(first) => on_archives::<F>(rt, path, description, first, task, input),
            None => bail!("{path}: no archive below it has a description"),
        },
    }
}

// Carries out a task on the archive with its description at a path.
pub fn carry_out(rt: &HostRuntime, archive: &[u8], task: Task, input: Input) -> anyhow::Result<()> {
    let path = text_of(rt.alloc(), archive)?;
    let description = described(rt, &path)?;
    finish_left(rt, &path)?;
    match description.field {
        FieldName::Nibble => in_field::<Nibble>(rt, path, &description, task, input),
        FieldName::Byte => in_field::<Byte>(rt, path, &description, task, input),
        FieldName::Count => in_field::<Count>(rt, path, &description, task, input),
    }
}
