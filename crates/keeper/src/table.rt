// The table of an archive: laid from a text, and printed.
use crate::cells::{refused_run, run_of};
use account::Change;
use anyhow::{anyhow, bail};
use orders::Run;
use shelf::{Refusal, Shape, Shelf, fetch};
use storage::{Archive, FieldKind, Part};
use tables::{Cell, Line, Row, Totals, read_row};

// What was laid: how many places, and at how many of them not every cell can be read back.
#[derive(Clone, Copy)]
struct Laid {
    places: u32,
    short: u32,
}

// Lays one row of a table.
fn lay_row<F: FieldKind, S: Part<F>>(
    archive: &mut Archive<F, S>,
    row: &Row,
    laid: Laid,
) -> Result<Laid, Refusal> {
    let bays = archive.shape().bays;
    let bits = archive.array.lay(row.place as usize, &row.words)?;
    let short = (bits.count_ones() as usize) < bays;
    Ok(Laid {
        places: laid.places.saturating_add(1),
        short: laid.short.saturating_add(u32::from(short)),
    })
}

// Lays the rows of a table, whose name is said where one is wrong.
pub(crate) fn lay<F: FieldKind, S: Part<F>>(
    rt: &HostRuntime,
    archive: &mut Archive<F, S>,
    name: &str,
    text: &[u8],
) -> anyhow::Result<Change> {
    let mut laid = Laid {
        places: 0,
        short: 0,
    };
    for (i, line) in text.split(|byte| *byte == b'\n').enumerate() {
        let number = i.saturating_add(1);
        match read_row(rt.alloc(), line) {
            Ok(None) => {}
            Ok(Some(row)) => match lay_row(archive, &row, laid) {
                Ok(next) => laid = next,
                Err(refusal) => {
                    let code = refusal.number();
                    bail!("{name}: line {number}: refused by {code}: {refusal}")
                }
            },
            Err(fault) => bail!("{name}: line {number}: {fault}"),
        }
    }
    let Laid { places, short } = laid;
    Ok(Change::Laid { places, short })
}

// The cells of one bay over a run of places.
fn column<F: FieldKind, S: Part<F>>(
    rt: &HostRuntime,
    archive: &mut Archive<F, S>,
    bay: usize,
    first: usize,
    count: usize,
) -> anyhow::Result<Vec<Cell>> {
    let room = count.min(archive.shape().places.saturating_add(1));
    let mut words = vec![in rt.alloc(); 0u32; room]?;
    let mut marks = vec![in rt.alloc(); 0u8; room]?;
    if let Err(refusal) = fetch(&mut archive.array, bay, first, &mut words, &mut marks) {
        return Err(refused_run(first, count, refusal));
    }
    let cells = words
        .iter()
        .zip(marks.iter())
        .enumerate()
        .map(|(i, (word, mark))| {
            if *mark == 1 {
                Cell::Told(*word)
            } else if archive.is_torn(first.saturating_add(i)) {
                Cell::Torn
            } else {
                Cell::Lost
            }
        })
        .collect(rt.alloc())?;
    Ok(cells)
}

// The cells of a place, one for each column.
fn row_of(rt: &HostRuntime, columns: &[Vec<Cell>], i: usize) -> anyhow::Result<Vec<Cell>> {
    let cells = columns
        .iter()
        .map(|column| column.get(i).copied().unwrap_or(Cell::Lost))
        .collect(rt.alloc())?;
    Ok(cells)
}

// Prints a total, or that it is not told.
fn print_total(rt: &HostRuntime, total: Option<u64>) -> anyhow::Result<()> {
    match total {
        Some(sum) => print!(rt; ",{sum}")?,
        None => print!(rt; ",not told")?,
    }
    Ok(())
}

// Prints the totals of the columns and of the whole table.
fn print_totals(rt: &HostRuntime, totals: &Totals, bays: usize) -> anyhow::Result<()> {
    print!(rt; "total")?;
    for bay in 0..bays {
        print_total(rt, totals.column(bay))?;
    }
    print_total(rt, totals.whole())?;
    println!(rt; "")?;
    Ok(())
}

// Prints the heading of a table.
fn print_heading(rt: &HostRuntime, bays: usize) -> anyhow::Result<()> {
    print!(rt; "place")?;
    for bay in 0..bays {
        print!(rt; ",bay {bay}")?;
    }
    println!(rt; ",total")?;
    Ok(())
}

// Prints the table of a run of places: a line for each, and the totals. A total is told only where all its cells are.
pub(crate) fn print_table<F: FieldKind, S: Part<F>>(
    rt: &HostRuntime,
    archive: &mut Archive<F, S>,
    run: Option<Run>,
) -> anyhow::Result<()> {
    let Shape { bays, places, .. } = archive.shape();
    let (first, count) = run_of(run, places);
    let mut columns = Vec::new(rt.alloc());
    for bay in 0..bays {
        columns.push(column(rt, archive, bay, first, count)?)?;
    }
    let mut totals = Totals::new(rt.alloc(), bays)?;
    print_heading(rt, bays)?;
    for i in 0..count.min(places) {
        let cells = row_of(rt, &columns, i)?;
        totals.add(&cells);
        // A run that was fetched ends at 65,536 at most.
        let place = u32::try_from(first.saturating_add(i)).unwrap_or(u32::MAX);
        println!(rt;
            "{}",
            Line {
                place,
                cells: &cells
            }
        )?;
    }
    print_totals(rt, &totals, bays)
}
