// What befalls the piles that histories run on, between the calls of the array on top.
use crate::plain_fields::Known;
use crate::seen::{Flat, Seen, Tower};
use crate::service::serve;
use crate::trial::Trial;
use crate::watched::Watched;
use array::Array;
use layers::Pair;
use plan::AnyPlan;
use shelf::{Serviceable, Shelf};

pub trait Pile: Shelf + Seen + Sized + Drop {
    // A call of service, on an array over a drill.
    fn serviced(self, trial: &mut Trial) -> Self;

    // A further event of a drill.
    fn stopped(self, trial: &mut Trial) -> Self;
}

// Plans that some bay stops at one of the next calls, or seldom at one that is past.
fn stop_one<S>(watched: &mut Watched<S>, trial: &mut Trial) {
    let bay = trial.index(watched.account.plan().bays());
    let ahead = trial.generator.below(30);
    let call = watched.account.calls().saturating_add(ahead);
    let call = if trial.generator.chance(10) { 0 } else { call };
    let taken = watched.drill.add(call, bay).is_ok();
    watched.account.stop(call, bay, taken);
}

impl<S: Serviceable + Drop, F: Known> Pile for Array<Watched<S>, AnyPlan<F>> {
    fn serviced(self, trial: &mut Trial) -> Flat<S, F> {
        let mut flat = self;
        serve(&mut flat, trial, true);
        flat
    }

    fn stopped(self, trial: &mut Trial) -> Flat<S, F> {
        let (mut watched, plan) = self.take_apart();
        stop_one(&mut watched, trial);
        Array::assemble(watched, plan)
    }
}

impl<S: Serviceable + Drop, F: Known> Pile
    for Array<Pair<Array<Watched<S>, AnyPlan<F>>, Array<Watched<S>, AnyPlan<F>>>, AnyPlan<F>> {
    fn serviced(self, trial: &mut Trial) -> Tower<S, F> {
        let (mut pair, plan) = self.take_apart();
        if trial.generator.chance(50) {
            serve(&mut pair.first, trial, false);
        } else {
            serve(&mut pair.second, trial, false);
        }
        Array::assemble(pair, plan)
    }

    fn stopped(self, trial: &mut Trial) -> Tower<S, F> {
        let (pair, plan) = self.take_apart();
        let (first, second) = pair.into_shelves();
        let pair = if trial.generator.chance(50) {
            Pair::new(first.stopped(trial), second)
        } else {
            Pair::new(first, second.stopped(trial))
        };
        Array::assemble(pair, plan)
    }
}
