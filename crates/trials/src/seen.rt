// What the plain accounts say of what stands below an array: an array over a drill, and an array over a pair of such.
use crate::plain_fields::Known;
use crate::view::View;
use crate::watched::Watched;
use array::Array;
use layers::Pair;
use plan::AnyPlan;
use shelf::Serviceable;

// An array over a drill.
pub type Flat<S, F> = Array<Watched<S>, AnyPlan<F>>;

// An array over a pair of arrays over drills.
pub type Tower<S, F> = Array<Pair<Flat<S, F>, Flat<S, F>>, AnyPlan<F>>;

// An array with plain accounts of what stands below it.
pub trait Seen {
    // The word of a cell below, as the accounts say.
    fn cell_below(&self, bay: usize, place: usize) -> Option<u32>;

    // Whether a bay below runs, as they say.
    fn runs_below(&self, bay: usize) -> bool;

    // How many devices run.
    fn running(&self) -> usize;

    // Whether the bays below are devices.
    fn on_devices() -> bool;
}

// What the accounts say of a place.
pub fn view<P: Seen>(pile: &P, place: usize) -> View {
    View {
        cells: std::array::from_fn(|bay| pile.cell_below(bay, place)),
        runs: std::array::from_fn(|bay| pile.runs_below(bay)),
        running: pile.running(),
        devices: P::on_devices(),
    }
}

impl<S: Serviceable, F: Known> Seen for Array<Watched<S>, AnyPlan<F>> {
    fn cell_below(&self, bay: usize, place: usize) -> Option<u32> {
        self.below().account.cell(bay, place)
    }

    fn runs_below(&self, bay: usize) -> bool {
        self.below().account.is_up(bay)
    }

    fn running(&self) -> usize {
        self.below().account.running()
    }

    fn on_devices() -> bool {
        true
    }
}

impl<S: Serviceable, F: Known> Seen
    for Array<Pair<Array<Watched<S>, AnyPlan<F>>, Array<Watched<S>, AnyPlan<F>>>, AnyPlan<F>> {
    fn cell_below(&self, bay: usize, place: usize) -> Option<u32> {
        let pair = self.below();
        let first = &pair.first.below().account;
        let cut = first.plan().data_bays;
        if bay < cut {
            first.told(bay, place)
        } else {
            pair.second.below().account.told(bay - cut, place)
        }
    }

    fn runs_below(&self, bay: usize) -> bool {
        let pair = self.below();
        let first = &pair.first.below().account;
        let cut = first.plan().data_bays;
        if bay < cut {
            first.tells(bay)
        } else {
            pair.second.below().account.tells(bay - cut)
        }
    }

    fn running(&self) -> usize {
        let pair = self.below();
        let first = pair.first.below().account.running();
        first.saturating_add(pair.second.below().account.running())
    }

    fn on_devices() -> bool {
        false
    }
}
