ghost use Rattle.std.specs.Prelude.{◌≡◌, slice_index};
ghost use Rattle.archive.specs.Stripes.{held};

// The words of one place: one for each data bay, and one for each check bay.
#[derive(Clone, Drop)]
pub struct Stripe {
    pub words: Vec<u32>,
    pub checks: Vec<u32>,
}

// What a rewrite shows: the old word of the bay, the checks before and after it, and the checks computed afresh.
#[derive(Drop)]
pub struct Rewrite {
    pub old: u32,
    pub before: Vec<u32>,
    pub after: Vec<u32>,
    pub afresh: Vec<u32>,
}

impl Stripe {
    // The word of a data bay, and 0 past the last.
    pub(crate) fn word(&self, bay: usize) -> u32
        ensures { result ≡ slice_index (held self.now).words bay }
    {
        self.words.get(bay).copied().unwrap_or(0)
    }
}
