ghost use Rattle.std.specs.Prelude.{◌≡◌, ◌%◌, length, replicate, IfOk, None, nat_le};
ghost use Rattle.std.specs.List.{list_any};
ghost use Rattle.shelf.specs.Refusals.{Tests};
ghost use Rattle.plan.specs.Rows.{codes, checks_on, all_moved};
ghost use Rattle.archive.specs.Stripes.{held, held_at, laid, rewritten, shown, comparing, Lays, Writes, Loses, loss_refusal};

use crate::fault::Fault;
use crate::loss::Loss;
use crate::stripe::{Rewrite, Stripe};
use field::Field;
use linear::told_without;
use plan::{Plan, check_word, moved_word};
use shelf::{Refusal, Shape};
use std::alloc::{AllocError, Global};

// Whether a bay on the list is at or past this one. Rust has no From of u32 for usize, so a bay is cast, which loses nothing.
fn reaches(list: &[u32], bay: usize) -> bool
    ensures { result ≡ list_any (nat_le bay) list.now }
{
    list.iter().any(|other| *other as usize >= bay)
}

// The stripes of an archive, by place: none where nothing was laid.
#[derive(Drop)]
pub struct Stripes<P> {
    plan: P,
    places: Vec<Option<Stripe>>,
}

impl<P: Plan> Stripes<P> {
    // Nothing is laid yet at any of the places.
    pub fn new(heap: Global, plan: P, places: usize) -> Result<Stripes<P>, AllocError>
    where
        P: Drop,
        ensures { IfOk result (λ s. (s.plan ≡ plan) × (held_at s.places.items ≡ replicate places None)) }
    {
        Ok(Stripes {
            plan,
            places: vec![in heap; None; places]?,
        })
    }

    // The shape of the archive as one of data bays: its words are below the field's order.
    fn shape(&self) -> Shape
        ensures { result ≡ record { bays = (P.Plan.coefficients self.now.plan).n; places = length self.now.places.items; limit = P.F.Field.arithmetic.order } }
    {
        Shape {
            bays: self.plan.data_bays(),
            places: self.places.len(),
            limit: P::F::size(),
        }
    }

    // The word of each check on the words of the data bays.
    fn check_words(&self, words: &[u32]) -> Result<Vec<u32>, AllocError>
        ensures { IfOk result (λ v. v.items ≡ checks_on P.F.Field.arithmetic (P.Plan.coefficients self.now.plan) (codes P.F.Field.arithmetic words.now)) }
    {
        (0..self.plan.check_bays())
            .map(|i| check_word(&self.plan, i, words))
            .collect(*self.places.allocator())
    }

    // Each check, moved from the old word of a data bay to the new one.
    fn moved_words(
        &self,
        bay: usize,
        checks: &[u32],
        old: u32,
        new: u32,
    ) -> Result<Vec<u32>, AllocError>
        ensures { IfOk result (λ v. v.items ≡ all_moved P.F.Field.arithmetic (P.Plan.coefficients self.now.plan) 0 bay (old % P.F.Field.arithmetic.order) (new % P.F.Field.arithmetic.order) (codes P.F.Field.arithmetic checks.now)) }
    {
        checks
            .iter()
            .enumerate()
            .map(|(i, check)| moved_word(&self.plan, i, bay, *check, old, new))
            .collect(*self.places.allocator())
    }

    // The words of a lay, with their checks.
    fn laid(&self, words: &[u32]) -> Result<Stripe, AllocError>
        ensures { IfOk result (λ s. held s ≡ laid P.F.Field.arithmetic (P.Plan.coefficients self.now.plan) words.now) }
    {
        Ok(Stripe {
            words: Vec::from_slice(*self.places.allocator(), words)?,
            checks: self.check_words(words)?,
        })
    }

    // A stripe with another word in a data bay: each check moves by its coefficient times the difference.
    fn rewritten(&self, stripe: &Stripe, bay: usize, word: u32) -> Result<Stripe, AllocError>
        ensures { IfOk result (λ s. held s ≡ rewritten P.F.Field.arithmetic (P.Plan.coefficients self.now.plan) bay word (held stripe.now)) }
    {
        let checks = self.moved_words(bay, &stripe.checks, stripe.word(bay), word)?;
        let mut words = stripe.words.clone()?;
        if bay < words.len() {
            words[bay] = word;
        }
        Ok(Stripe { words, checks })
    }

    // What a rewrite in a data bay shows, from the stripe before it and the one after.
    fn shown(&self, bay: usize, stripe: &Stripe, next: &Stripe) -> Result<Rewrite, AllocError>
        ensures { IfOk result (λ w. shown w ≡ comparing P.F.Field.arithmetic (P.Plan.coefficients self.now.plan) bay (held stripe.now) (held next.now)) }
    {
        Ok(Rewrite {
            old: stripe.word(bay),
            before: stripe.checks.clone()?,
            after: next.checks.clone()?,
            afresh: self.check_words(&next.words)?,
        })
    }

    // Lays the words, one for each data bay, at a place, and answers the stripe that is there now.
    pub fn lay(&mut self, place: usize, words: &[u32]) -> Result<Stripe, Fault>
        ensures plan { self.new.plan ≡ self.old.plan }
        ensures lays { Lays P.F.Field.arithmetic (P.Plan.coefficients self.old.plan) self.old.places.items self.new.places.items place words.now result }
    {
        self.shape().check_lay(place, words)?;
        let stripe = self.laid(words)?;
        let answer = stripe.clone()?;
        self.places[place] = Some(stripe);
        Ok(answer)
    }

    // Writes a word in a data bay at a place, and answers what the rewrite shows.
    pub fn write(&mut self, bay: usize, place: usize, word: u32) -> Result<Rewrite, Fault>
        ensures plan { self.new.plan ≡ self.old.plan }
        ensures writes { Writes P.F.Field.arithmetic (P.Plan.coefficients self.old.plan) self.old.places.items self.new.places.items bay place word result }
    {
        self.shape().check_word(bay, place, word)?;
        let stripe = self.places[place].as_ref().ok_or(Refusal::Lost)?;
        let next = self.rewritten(stripe, bay, word)?;
        let rewrite = self.shown(bay, stripe, &next)?;
        self.places[place] = Some(next);
        Ok(rewrite)
    }

    // Refused by 1 where one of the bays is none of the plan's.
    fn check_lost(&self, lost: &[u32]) -> Result<(), Refusal>
        ensures { Tests (loss_refusal (P.Plan.coefficients self.now.plan) lost.now) result }
    {
        if reaches(lost, self.plan.data_bays() + self.plan.check_bays()) {
            Err(Refusal::NoSuchBay)
        } else {
            Ok(())
        }
    }

    // What is still told where these bays are lost, data bays and then check bays.
    pub fn loss(&self, lost: Vec<u32>) -> Result<Loss, Fault>
        ensures { Loses P.F.Field.arithmetic (P.Plan.coefficients self.now.plan) lost.items result }
    {
        self.check_lost(&lost)?;
        let told = told_without(&self.plan, &lost);
        Ok(Loss {
            lost,
            data_bays: self.plan.data_bays(),
            told,
        })
    }
}
