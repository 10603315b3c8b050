ghost use Rattle.shelf.specs.Table.{AllBlank};
ghost use Rattle.std.specs.Prelude.{◌≤◌};
ghost use Rattle.shelf.specs.Bounds.{most_limit};
ghost use Rattle.trays.specs.Words.{tray_table};
ghost use Rattle.worked.specs.New.{BlankOver, IsNew, MadeOf};

use array::Array;
use field::Field;
use layers::Pair;
use plan::Plan;
use shelf::Shelf;
use trays::{BLANK, Tray};

// Three trays side by side.
pub type Three<'a> = Pair<Tray<'a>, Pair<Tray<'a>, Tray<'a>>>;

// A blank tray over these words.
fn blank_tray<'a>(words: &'a mut [u32], limit: u32) -> Tray<'a>
    ensures blank { limit ≤ most_limit → AllBlank (tray_table result) }
    ensures over { BlankOver limit words.entry result }
{
    words.fill(BLANK);
    Tray::new(words, limit)
}

// An array over three trays, whose words are made blank. Whatever the plan, it is in order and new: every cell is blank.
pub fn new_array<'a, P: Plan>(
    first: &'a mut [u32],
    second: &'a mut [u32],
    third: &'a mut [u32],
    plan: P,
) -> Array<Three<'a>, P>
    ensures new { IsNew ⟦<Three<'static> as Shelf>⟧.table ⟦<Three<'static> as Shelf>⟧.sound P.F.Field.arithmetic P.Plan.coefficients result }
    ensures parts { MadeOf P.F.Field.arithmetic first.entry second.entry third.entry plan result }
{
    let limit = P::F::size();
    let first = blank_tray(first, limit);
    let second = blank_tray(second, limit);
    let third = blank_tray(third, limit);
    Array::assemble(Pair::new(first, Pair::new(second, third)), plan)
}
