// What the lines of a shelf in memory are carried out on: drills, and what stands over drills.
use crate::fault::Fault;
use array::Array;
use history::{Answer, Call, Service, keep, run, serve};
use layers::{Drill, Overfull, Pair};
use plan::Plan;
use shelf::{Refusal, Serviceable, Shape, Shelf};

// A shelf whose devices are bays of drills. Its devices are counted from 0, through all drills in turn. A call that a shelf doesn't have
// is refused.
pub trait Stage: Shelf + Sized {
    // How many devices it stands on.
    fn devices(&self) -> usize;

    // Plans that a device stops at that call of its drill.
    fn stop(self, call: u32, device: usize) -> (Self, Result<(), Overfull>);

    // Makes the one call of a list, as a history of its own, and answers what it recorded.
    fn make(&mut self, calls: &[Call]) -> Result<Answer, Refusal>;

    // Puts a word in a cell, blank or filled.
    fn set_cell(&mut self, _bay: usize, _place: usize, _word: u32) -> Result<(), Fault> {
        Err(Fault::NoSuchCall)
    }

    // Puts a fresh device in a bay, of the shelf or below it.
    fn replace_device(&mut self, _bay: usize) -> Result<(), Fault> {
        Err(Fault::NoSuchCall)
    }

    // Reads the cell of a bay below.
    fn read_below(self, _bay: usize, _place: usize) -> (Self, Result<u32, Fault>) {
        (self, Err(Fault::NoSuchCall))
    }

    // Makes a service call of an array, as a history of its own.
    fn service(&mut self, _call: Service) -> Result<Answer, Fault> {
        Err(Fault::NoSuchCall)
    }

    // Sweeps a bay below over a run of places.
    fn sweep_bay(&mut self, _bay: usize, _first: usize, _bytes: &mut [u8]) -> Result<(), Fault> {
        Err(Fault::NoSuchCall)
    }

    // Makes a service call on an array over a shelf of this type.
    fn serve_over<P: Plan>(_array: &mut Array<Self, P>, _call: Service) -> Result<Answer, Fault> {
        Err(Fault::NoSuchCall)
    }

    // Sweeps a bay of a shelf of this type, below an array.
    fn sweep_over<P: Plan>(
        _array: &mut Array<Self, P>,
        _bay: usize,
        _first: usize,
        _bytes: &mut [u8],
    ) -> Result<(), Fault> {
        Err(Fault::NoSuchCall)
    }
}

// Makes the one call of a list on a shelf, as a history of its own.
fn keep_one<S: Shelf>(shelf: &mut S, calls: &[Call]) -> Result<Answer, Refusal> {
    let mut answers = [Answer::Done(Ok(()))];
    keep(shelf, calls, &mut answers)?;
    Ok(answers[0])
}

impl<S: Serviceable> Stage for Drill<S> {
    fn devices(&self) -> usize {
        Shape::from(self.shape()).bays
    }

    fn stop(self, call: u32, device: usize) -> (Drill<S>, Result<(), Overfull>) {
        let mut drill = self;
        let planned = drill.add(call, device);
        (drill, planned)
    }

    fn make(&mut self, calls: &[Call]) -> Result<Answer, Refusal> {
        keep_one(self, calls)
    }

    fn set_cell(&mut self, bay: usize, place: usize, word: u32) -> Result<(), Fault> {
        Ok(self.patch(bay, place, word)?)
    }

    fn replace_device(&mut self, bay: usize) -> Result<(), Fault> {
        Ok(self.exchange(bay)?)
    }

    fn serve_over<P: Plan>(array: &mut Array<Drill<S>, P>, call: Service) -> Result<Answer, Fault> {
        let mut answers = [Answer::Done(Ok(()))];
        serve(array, &[call], &mut answers)?;
        Ok(answers[0])
    }

    fn sweep_over<P: Plan>(
        array: &mut Array<Drill<S>, P>,
        bay: usize,
        first: usize,
        bytes: &mut [u8],
    ) -> Result<(), Fault> {
        Ok(array.sweep(bay, first, bytes)?)
    }
}

impl<A: Stage, B: Stage> Stage for Pair<A, B> {
    fn devices(&self) -> usize {
        self.first.devices().saturating_add(self.second.devices())
    }

    fn stop(self, call: u32, device: usize) -> (Pair<A, B>, Result<(), Overfull>) {
        let (first, second) = self.into_shelves();
        let cut = first.devices();
        if device < cut {
            let (first, planned) = first.stop(call, device);
            (Pair::new(first, second), planned)
        } else {
            let (second, planned) = second.stop(call, device - cut);
            (Pair::new(first, second), planned)
        }
    }

    fn make(&mut self, calls: &[Call]) -> Result<Answer, Refusal> {
        keep_one(self, calls)
    }

    fn set_cell(&mut self, bay: usize, place: usize, word: u32) -> Result<(), Fault> {
        let cut = Shape::from(self.first.shape()).bays;
        if bay < cut {
            self.first.set_cell(bay, place, word)
        } else {
            self.second.set_cell(bay - cut, place, word)
        }
    }

    fn replace_device(&mut self, bay: usize) -> Result<(), Fault> {
        let cut = Shape::from(self.first.shape()).bays;
        if bay < cut {
            self.first.replace_device(bay)
        } else {
            self.second.replace_device(bay - cut)
        }
    }
}

impl<S: Stage, P: Plan> Stage for Array<S, P> {
    fn devices(&self) -> usize {
        self.below().devices()
    }

    // The array stands over the same cells with more of them blank.
    fn stop(self, call: u32, device: usize) -> (Array<S, P>, Result<(), Overfull>) {
        let (below, plan) = self.take_apart();
        let (below, planned) = below.stop(call, device);
        (Array::assemble(below, plan), planned)
    }

    fn make(&mut self, calls: &[Call]) -> Result<Answer, Refusal> {
        let mut answers = [Answer::Done(Ok(()))];
        run(self, calls, &mut answers)?;
        Ok(answers[0])
    }

    fn replace_device(&mut self, bay: usize) -> Result<(), Fault> {
        match self.service(Service::Exchange { bay })? {
            Answer::Done(done) => Ok(done?),
            _ => Err(Fault::OtherAnswer),
        }
    }

    fn read_below(self, bay: usize, place: usize) -> (Array<S, P>, Result<u32, Fault>) {
        let (mut below, plan) = self.take_apart();
        let read = below.read(bay, place).map_err(Fault::from);
        (Array::assemble(below, plan), read)
    }

    fn service(&mut self, call: Service) -> Result<Answer, Fault> {
        S::serve_over(self, call)
    }

    fn sweep_bay(&mut self, bay: usize, first: usize, bytes: &mut [u8]) -> Result<(), Fault> {
        S::sweep_over(self, bay, first, bytes)
    }
}
