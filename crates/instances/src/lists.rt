// The calls of a list, one word each.
use history::{Call, Service};
use std::alloc::{AllocError, Global};

pub fn read(bay: usize, place: usize) -> Call {
    Call::Read { bay, place }
}

pub fn write(bay: usize, place: usize, word: u32) -> Call {
    Call::Write { bay, place, word }
}

pub fn lay(heap: Global, place: usize, words: &[u32]) -> Result<Call, AllocError> {
    Ok(Call::Lay {
        place,
        words: words.to_vec(heap)?,
    })
}

pub fn mend(bay: usize, place: usize) -> Service {
    Service::Mend { bay, place }
}

pub fn exchange(bay: usize) -> Service {
    Service::Exchange { bay }
}
