// Reads the text of a description, line after line. Each reader takes the lines that are left, and hands on those after its own.
ghost use Rattle.std.specs.Prelude.{◌≡◌, IfOk, map, vec_items};
ghost use Rattle.command.specs.Outcome as of_tokens;
ghost use Rattle.command.specs.Cursors.{tokens_left};
ghost use Rattle.description.specs.Cuts.{said, lines_left};
ghost use Rattle.description.specs.Describing.{planned, under_of, described};
ghost use Rattle.description.specs.Printable.{Printable};
ghost use Rattle.description.specs.Outcome.{Answers, at_line};
ghost use Rattle.description.specs.Reading.{wanting, one, title_of, field_in, plan_tokens, plan_in, row_in, rows_in, rows_of, places_in, path_in, paths_in, below_in, meaning, reading};

use crate::description::{Below, Description, PlanName};
use crate::fault::{Fault, Wanted, placed};
use crate::kind::PlanKind;
use crate::line::{Line, lines};
use crate::rest::Rest;
use command::{Cursor, FieldName, numbers, read_exactly};
use std::alloc::Global;

// The description that a text says.
#[tactic(auto, using(crate::proofs::Readers::answer_printable))]
pub fn read_description(heap: Global, text: &[u8]) -> Result<Description, Fault>
    // What the text means, or the fault that it has.
    ensures answer { Answers described (reading text.now) result }
    // It can be printed, and read again.
    ensures printable { IfOk result (λ d. Printable (described d)) }
{
    read_lines(heap, lines(text))
}

// The description that these lines say.
#[tactic(auto, unfolding(crate::specs::Reading::meaning))]
fn read_lines(heap: Global, lines: Rest) -> Result<Description, Fault>
    ensures { Answers described (meaning (lines_left lines.entry)) result }
{
    let lines = read_title(lines)?;
    let (field, lines) = read_field(lines)?;
    let ((kind, data_bays, check_bays), lines) = read_plan(heap, lines)?;
    let (plan, lines) = read_table(heap, kind, data_bays, check_bays, lines)?;
    let (places, lines) = read_places(heap, lines)?;
    let below = read_below(heap, lines)?;
    Ok(Description {
        field,
        plan,
        data_bays,
        check_bays,
        places,
        below,
    })
}

// The next line, which is to have this first token.
fn take<'a>(
    mut lines: Rest<'a>,
    first: &[u8],
    wanted: Wanted,
) -> Result<(Line<'a>, Rest<'a>), Fault>
    ensures { Answers (λ x. (said x.0, lines_left x.1)) (wanting first.now wanted (lines_left lines.entry)) result }
{
    let line = lines.next().ok_or(Fault::Missing(wanted))?;
    if line.name != first {
        return Err(Fault::Misplaced {
            line: line.number,
            wanted,
        });
    }
    Ok((line, lines))
}

// The one token after a line's first.
fn only_token<'a>(number: usize, mut arguments: Cursor<'a>) -> Result<&'a [u8], Fault>
    ensures { Answers (λ t. t.now) (at_line number (one (tokens_left arguments.entry))) result }
{
    match (arguments.next(), arguments.next()) {
        (Some(token), None) => Ok(token),
        _ => Err(Fault::Line {
            line: number,
            fault: command::Fault::TokenCount,
        }),
    }
}

// raskold archive
#[tactic(auto, unfolding(crate::specs::Reading::title_of))]
fn read_title<'a>(lines: Rest<'a>) -> Result<Rest<'a>, Fault>
    ensures { Answers lines_left (title_of (lines_left lines.entry)) result }
{
    let (line, lines) = take(lines, b"raskold", Wanted::Title)?;
    if only_token(line.number, line.arguments)? != b"archive".as_slice() {
        return Err(Fault::Misplaced {
            line: line.number,
            wanted: Wanted::Title,
        });
    }
    Ok(lines)
}

// field FIELD
#[tactic(auto, unfolding(crate::specs::Reading::field_in))]
fn read_field<'a>(lines: Rest<'a>) -> Result<(FieldName, Rest<'a>), Fault>
    ensures { Answers (λ x. (x.0, lines_left x.1)) (field_in (lines_left lines.entry)) result }
{
    let (line, lines) = take(lines, b"field", Wanted::Field)?;
    let token = only_token(line.number, line.arguments)?;
    match FieldName::try_from(token) {
        Ok(field) => Ok((field, lines)),
        Err(fault) => Err(placed(line.number, fault)),
    }
}

// PLAN DATA CHECKS
#[tactic(auto, unfolding(crate::specs::Reading::plan_tokens))]
fn read_plan_tokens(
    heap: Global,
    mut arguments: Cursor,
) -> Result<(PlanKind, u32, u32), command::Fault>
    ensures { of_tokens.Answers (λ p. p) (plan_tokens (tokens_left arguments.entry)) result }
{
    let kind = PlanKind::try_from(arguments.next().ok_or(command::Fault::TokenCount)?)?;
    let [data_bays, check_bays] = read_exactly::<2>(heap, arguments, 3)?;
    Ok((kind, data_bays, check_bays))
}

// plan PLAN DATA CHECKS
#[tactic(auto, unfolding(crate::specs::Reading::plan_in))]
fn read_plan<'a>(heap: Global, lines: Rest<'a>) -> Result<((PlanKind, u32, u32), Rest<'a>), Fault>
    ensures { Answers (λ x. (x.0, lines_left x.1)) (plan_in (lines_left lines.entry)) result }
{
    let (line, lines) = take(lines, b"plan", Wanted::Plan)?;
    match read_plan_tokens(heap, line.arguments) {
        Ok(plan) => Ok((plan, lines)),
        Err(fault) => Err(placed(line.number, fault)),
    }
}

// row CODE .., with so many codes
#[tactic(auto, unfolding(crate::specs::Reading::row_in))]
fn read_row<'a>(
    heap: Global,
    data_bays: u32,
    lines: Rest<'a>,
) -> Result<(Vec<u32>, Rest<'a>), Fault>
    ensures { Answers (λ x. (vec_items x.0, lines_left x.1)) (row_in data_bays (lines_left lines.entry)) result }
{
    let (line, lines) = take(lines, b"row", Wanted::Row)?;
    let codes = match numbers(heap, line.arguments, 2) {
        Ok(codes) => codes,
        Err(fault) => return Err(placed(line.number, fault)),
    };
    if codes.len() != data_bays as usize {
        return Err(Fault::Line {
            line: line.number,
            fault: command::Fault::TokenCount,
        });
    }
    Ok((codes, lines))
}

// So many of these lines.
fn read_rows<'a>(
    heap: Global,
    data_bays: u32,
    check_bays: u32,
    mut lines: Rest<'a>,
) -> Result<(Vec<Vec<u32>>, Rest<'a>), Fault>
    ensures { Answers (λ x. (map vec_items x.0.items, lines_left x.1)) (rows_in data_bays check_bays (lines_left lines.entry)) result }
{
    let mut rows = Vec::new(heap);
    for _ in 0..check_bays {
        let (row, after) = read_row(heap, data_bays, lines)?;
        rows.push(row)?;
        lines = after;
    }
    Ok((rows, lines))
}

// The rows of the plan that was named, where it is a written one.
fn read_table<'a>(
    heap: Global,
    kind: PlanKind,
    data_bays: u32,
    check_bays: u32,
    lines: Rest<'a>,
) -> Result<(PlanName, Rest<'a>), Fault>
    ensures { Answers (λ x. (planned x.0, lines_left x.1)) (rows_of kind data_bays check_bays (lines_left lines.entry)) result }
{
    match kind {
        PlanKind::Powers => Ok((PlanName::Powers, lines)),
        PlanKind::Groups => Ok((PlanName::Groups, lines)),
        PlanKind::Written => {
            let (rows, lines) = read_rows(heap, data_bays, check_bays, lines)?;
            Ok((PlanName::Written(rows), lines))
        }
    }
}

// places PLACES
#[tactic(auto, unfolding(crate::specs::Reading::places_in))]
fn read_places<'a>(heap: Global, lines: Rest<'a>) -> Result<(u32, Rest<'a>), Fault>
    ensures { Answers (λ x. (x.0, lines_left x.1)) (places_in (lines_left lines.entry)) result }
{
    let (line, lines) = take(lines, b"places", Wanted::Places)?;
    let [places] = match read_exactly::<1>(heap, line.arguments, 2) {
        Ok(read) => read,
        Err(fault) => return Err(placed(line.number, fault)),
    };
    Ok((places, lines))
}

// The path of a line, which is to have this first token.
fn read_path(heap: Global, line: Line, first: &[u8], wanted: Wanted) -> Result<Vec<u8>, Fault>
    ensures { Answers vec_items (path_in first.now wanted (said line.entry)) result }
{
    if line.name != first {
        return Err(Fault::Misplaced {
            line: line.number,
            wanted,
        });
    }
    let path = only_token(line.number, line.arguments)?;
    Ok(Vec::from_slice(heap, path)?)
}

// The paths of all lines that are left, each of which is to have this first token.
fn read_paths(
    heap: Global,
    lines: Rest,
    first: &[u8],
    wanted: Wanted,
) -> Result<Vec<Vec<u8>>, Fault>
    ensures { Answers (λ x. map vec_items x.items) (paths_in first.now wanted (lines_left lines.entry)) result }
{
    let mut paths = Vec::new(heap);
    for line in lines {
        paths.push(read_path(heap, line, first, wanted)?)?;
    }
    Ok(paths)
}

// bay PATH in each line, or part PATH in each line, to the end of the text. The first of these lines says which it is.
#[tactic(auto, using(command::proofs::Names::bytes_eq_reads))]
fn read_below(heap: Global, lines: Rest) -> Result<Below, Fault>
    ensures { Answers under_of (below_in (lines_left lines.entry)) result }
{
    let mut ahead = lines;
    let line = ahead.next().ok_or(Fault::Missing(Wanted::Path))?;
    match line.name {
        b"bay" => {
            let paths = read_paths(heap, lines, b"bay", Wanted::Bay)?;
            Ok(Below::Disks(paths))
        }
        b"part" => {
            let paths = read_paths(heap, lines, b"part", Wanted::Part)?;
            Ok(Below::Archives(paths))
        }
        _ => Err(Fault::Misplaced {
            line: line.number,
            wanted: Wanted::Path,
        }),
    }
}
