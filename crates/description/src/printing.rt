// Prints a description as the text that it is read from.
ghost use Rattle.std.specs.Prelude.{◌≡◌, ◌++◌, ◌∷◌, [], decimal, map, OnOk, IfOk, vec_items};
ghost use Rattle.description.specs.Describing.{planned, under_of, described};
ghost use Rattle.description.specs.Printable.{Printable};
ghost use Rattle.description.specs.Small.{IsSmall, AreSmall, HasSmallCodes};
ghost use Rattle.std.specs.List.{AllByRecursion};
ghost use Rattle.description.specs.Reading.{reading};
ghost use Rattle.description.specs.Printing.{printed, plan_word, head_lines, row_line, table_lines, places_line, path_lines, below_lines, lines_printed};

use crate::description::{Below, Description, PlanName};
use std::alloc::{AllocError, Global};

// The text of a description.
pub fn print_description(heap: Global, description: &Description) -> Result<Vec<u8>, AllocError>
    // Its lines, in their one form.
    ensures text { IfOk result (λ t. t.items ≡ printed (lines_printed (described description.now))) }
    // It is read as the description that was printed.
    ensures read_back { IfOk result (λ t. Printable (described description.now) → reading t.items ≡ Ok (described description.now)) }
{
    let mut text = Vec::new(heap);
    push_head(heap, &mut text, description)?;
    push_table(heap, &mut text, &description.plan)?;
    push_places(heap, &mut text, description.places)?;
    push_below(&mut text, &description.below)?;
    Ok(text)
}

impl PlanName {
    // The name of a plan, as its line has it.
    fn word(&self) -> &'static str
        ensures { result.now ≡ plan_word (planned self.entry.now) }
    {
        match self {
            PlanName::Powers => "powers",
            PlanName::Groups => "groups",
            PlanName::Written(_) => "written",
        }
    }
}

// raskold archive, field FIELD, plan PLAN DATA CHECKS
fn push_head(heap: Global, text: &mut Vec<u8>, description: &Description) -> Result<(), AllocError>
    ensures printed { OnOk result (text.new.items ≡ text.old.items ++ printed (head_lines (described description.now))) }
    ensures small { OnOk result (IsSmall description.now.data_bays × IsSmall description.now.check_bays) }
{
    let field = description.field;
    let plan = description.plan.word();
    let data_bays = description.data_bays;
    let check_bays = description.check_bays;
    let head = format!(in heap;
        "raskold archive\nfield {field}\nplan {plan} {data_bays} {check_bays}\n"
    )?;
    text.extend_from_slice(head.as_bytes())
}

// A line row CODE .. for each check of a written plan.
fn push_table(heap: Global, text: &mut Vec<u8>, plan: &PlanName) -> Result<(), AllocError>
    ensures printed { OnOk result (text.new.items ≡ text.old.items ++ printed (table_lines (planned plan.now))) }
    ensures small { OnOk result (HasSmallCodes (planned plan.now)) }
{
    match plan {
        PlanName::Written(rows) => push_rows(heap, text, rows),
        _ => Ok(()),
    }
}

fn push_rows(heap: Global, text: &mut Vec<u8>, rows: &[Vec<u32>]) -> Result<(), AllocError>
    ensures printed { OnOk result (text.new.items ≡ text.old.items ++ printed (map row_line (map vec_items rows.now))) }
    ensures small { OnOk result (AreSmall (map vec_items rows.now)) }
{
    for row in rows {
        push_row(heap, text, row)?;
    }
    Ok(())
}

fn push_row(heap: Global, text: &mut Vec<u8>, row: &[u32]) -> Result<(), AllocError>
    ensures printed { OnOk result (text.new.items ≡ text.old.items ++ printed (row_line row.now ∷ [])) }
    ensures small { OnOk result (AllByRecursion IsSmall row.now) }
{
    text.extend_from_slice(b"row")?;
    for code in row {
        push_number(heap, text, *code)?;
    }
    text.push(b'\n')?;
    Ok(())
}

// A number behind a blank.
fn push_number(heap: Global, text: &mut Vec<u8>, number: u32) -> Result<(), AllocError>
    ensures { OnOk result (text.new.items ≡ text.old.items ++ 32 ∷ decimal number) }
{
    let digits = format!(in heap; " {number}")?;
    text.extend_from_slice(digits.as_bytes())
}

// places PLACES
fn push_places(heap: Global, text: &mut Vec<u8>, places: u32) -> Result<(), AllocError>
    ensures printed { OnOk result (text.new.items ≡ text.old.items ++ printed (places_line places ∷ [])) }
    ensures small { OnOk result (IsSmall places) }
{
    let line = format!(in heap; "places {places}\n")?;
    text.extend_from_slice(line.as_bytes())
}

// A line for each path of what stands below.
fn push_below(text: &mut Vec<u8>, below: &Below) -> Result<(), AllocError>
    ensures { OnOk result (text.new.items ≡ text.old.items ++ printed (below_lines (under_of below.now))) }
{
    match below {
        Below::Disks(paths) => push_paths(text, b"bay", paths),
        Below::Archives(paths) => push_paths(text, b"part", paths),
    }
}

// A line for each path, with this first token.
fn push_paths(text: &mut Vec<u8>, first: &[u8], paths: &[Vec<u8>]) -> Result<(), AllocError>
    ensures { OnOk result (text.new.items ≡ text.old.items ++ printed (path_lines first.now (map vec_items paths.now))) }
{
    for path in paths {
        text.extend_from_slice(first)?;
        text.push(b' ')?;
        text.extend_from_slice(path)?;
        text.push(b'\n')?;
    }
    Ok(())
}
