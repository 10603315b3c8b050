// What the accounts say of a place below an array, before and after a call.
use crate::elimination::{Cells, Lines};
use crate::plain_plan::PlainPlan;
use shelf::MOST_BAYS;

#[derive(Clone, Copy)]
pub struct View {
    pub cells: Cells,
    pub runs: [bool; MOST_BAYS],
    // How many devices run below all.
    pub running: usize,
    // Whether a cell goes blank only where its own bay stops, as over devices.
    pub devices: bool,
}

// The cell of a bay, none where there is no such bay.
fn cell_at(cells: &Cells, bay: usize) -> Option<u32> {
    cells.get(bay).copied().flatten()
}

impl View {
    pub fn cell(&self, bay: usize) -> Option<u32> {
        cell_at(&self.cells, bay)
    }

    pub fn runs(&self, bay: usize) -> bool {
        self.runs.get(bay).copied().unwrap_or(false)
    }

    // The word that the cells tell of a bay, of the array or below.
    pub fn told(&self, plan: &PlainPlan, bay: usize) -> Option<u32> {
        Lines::of(plan, &self.cells).told(plan.row(bay))
    }

    // Whether nothing is changed, as after a refusal.
    pub fn is_same(&self, after: &View) -> bool {
        self.cells == after.cells && self.runs == after.runs && self.running == after.running
    }

    // Whether the cell of a bay, after a call that made it this one, may be as it is now.
    fn may_be(&self, before: &View, bay: usize, made: Option<u32>) -> bool {
        let gone = !self.runs(bay) || (!self.devices && self.running != before.running);
        self.cell(bay) == made || (gone && self.cell(bay).is_none())
    }

    // Whether all cells are as a call made them, but for what stopped meanwhile, and no bay began to run but perhaps one.
    pub fn follows(&self, before: &View, made: &Cells, fresh: Option<usize>) -> bool {
        (0..MOST_BAYS).all(|bay| {
            let started = self.runs(bay) && !before.runs(bay);
            let allowed = !started || fresh == Some(bay);
            allowed && self.may_be(before, bay, cell_at(made, bay))
        })
    }
}
