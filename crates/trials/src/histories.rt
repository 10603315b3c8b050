// Random histories on piles of each kind.
use crate::account::Account;
use crate::book::PlainBook;
use crate::calls::make;
use crate::generator::Generator;
use crate::plain_fields::Known;
use crate::plain_plan::{PlainPlan, PlanKind};
use crate::seen::{Flat, Tower};
use crate::tally::Tally;
use crate::trial::Trial;
use crate::watched::Watched;
use array::Array;
use disk::Disk;
use field::{Byte, Count, Nibble};
use layers::{Drill, Pair};
use plan::AnyPlan;
use rack::Rack;
use shelf::Serviceable;
use std::alloc::{AllocError, Global};
use trays::{ImageTray, Tray, blank_image, blank_words};

// How many histories there are on each kind of pile, in each field.
const HISTORIES: u64 = 500;

// A plain plan and its kind.
#[derive(Clone, Copy)]
struct Drawn {
    kind: PlanKind,
    plan: PlainPlan,
}

// A random plan with so many bays. One of groups has no more check bays than data bays, and a written one is in the byte field.
fn draw<F: Known>(generator: &mut Generator, data_bays: usize, check_bays: usize) -> Drawn {
    let written = F::kind() == crate::plain_fields::FieldKind::Byte;
    let kind = match generator.below(3) {
        0 if check_bays <= data_bays => PlanKind::Groups,
        1 if written => PlanKind::Written,
        _ => PlanKind::Powers,
    };
    let plan = PlainPlan::new(generator, kind, F::kind(), data_bays, check_bays);
    Drawn { kind, plan }
}

// Numbers of data bays and check bays: mostly few.
fn sizes(generator: &mut Generator) -> (usize, usize) {
    if generator.chance(10) {
        (1 + generator.index(15), 1 + generator.index(8))
    } else {
        (1 + generator.index(5), 1 + generator.index(4))
    }
}

// A trial of an array of this plan.
fn trial(
    heap: Global,
    generator: Generator,
    tally: Tally,
    plan: PlainPlan,
    places: usize,
) -> Result<Trial, AllocError> {
    Ok(Trial {
        generator,
        plan,
        places,
        book: PlainBook::new(heap, plan.data_bays, places)?,
        tally,
    })
}

// Disks side by side, all blank.
fn disks(heap: Global, bays: usize, places: usize, limit: u32) -> Result<Rack<Disk>, AllocError> {
    let mut disks = Vec::new(heap);
    for _ in 0..bays {
        disks.push(Disk::new(blank_words(heap, places)?, limit))?;
    }
    Ok(Rack::new(disks))
}

// An array over a drill over a shelf, beside the plain account of its devices.
fn flat<S: Serviceable, F: Known>(below: S, account: Account, built: AnyPlan<F>) -> Flat<S, F> {
    let drill = Drill::new(below);
    Array::assemble(Watched { drill, account }, built)
}

// Whether the running disks hold what the account says.
fn disks_agree(rack: &Rack<Disk>, account: &Account) -> bool {
    rack.shelves.iter().enumerate().all(|(bay, disk)| {
        !account.runs(bay)
            || disk.words.iter().enumerate().all(|(place, word)| {
                let held = if *word < disk.limit {
                    Some(*word)
                } else {
                    None
                };
                account.stored(bay, place) == held
            })
    })
}

// Ends an array over a drill: what it stands on, and its account, whose answers are counted.
fn ended<S: Serviceable, F: Known>(flat: Flat<S, F>, tally: &mut Tally) -> (S, Account) {
    let (watched, _) = flat.take_apart();
    let Watched { drill, account } = watched;
    tally.below.add(account.calls(), account.wrong());
    (drill.into_shelf(), account)
}

// Histories of an array over a drill over disks.
fn on_disks<F: Known>(heap: Global, seed: u64, all: Tally) -> Result<Tally, AllocError> {
    let mut generator = Generator::new(seed);
    let (data_bays, check_bays) = sizes(&mut generator);
    let Drawn { kind, plan } = draw::<F>(&mut generator, data_bays, check_bays);
    let places = 1 + generator.index(3);
    let limit = F::size().saturating_add(generator.below(50)).min(65_537);
    let Some(built) = plan.built::<F>(kind) else {
        return Ok(all);
    };
    let below = disks(heap, plan.bays(), places, limit)?;
    let account = Account::new(heap, plan, places, limit)?;
    let mut trial = trial(heap, generator, all, plan, places)?;
    let flat = make(flat(below, account, built), &mut trial);
    let mut tally = trial.tally;
    let (rack, account) = ended(flat, &mut tally);
    tally.devices.note(disks_agree(&rack, &account));
    Ok(tally)
}

// Three trays side by side.
type Three<'a> = Pair<Tray<'a>, Pair<Tray<'a>, Tray<'a>>>;

// Three trays over as many words each.
fn three<'a>(words: &'a mut [u32], limit: u32) -> Three<'a> {
    let places = words.len() / 3;
    let (first, rest) = words.split_at_mut(places);
    let (second, third) = rest.split_at_mut(places);
    Pair::new(
        Tray::new(first, limit),
        Pair::new(Tray::new(second, limit), Tray::new(third, limit)),
    )
}

// Whether the words of running trays are what the account says, from one bay on.
fn words_agree(words: &[u32], from: usize, places: usize, account: &Account) -> bool {
    words.iter().enumerate().all(|(i, word)| {
        let bay = from.saturating_add(i / places.max(1));
        let held = if *word < account.limit() {
            Some(*word)
        } else {
            None
        };
        !account.runs(bay) || account.stored(bay, i % places.max(1)) == held
    })
}

// Histories of an array over a drill over six trays.
fn on_trays<F: Known>(heap: Global, seed: u64, all: Tally) -> Result<Tally, AllocError> {
    let mut generator = Generator::new(seed);
    let data_bays = 1 + generator.index(5);
    let Drawn { kind, plan } = draw::<F>(&mut generator, data_bays, 6 - data_bays);
    let places = 1 + generator.index(3);
    let limit = F::size();
    let Some(built) = plan.built::<F>(kind) else {
        return Ok(all);
    };
    let mut first = blank_words(heap, 3 * places)?;
    let mut second = blank_words(heap, 3 * places)?;
    let below = Pair::new(three(&mut first, limit), three(&mut second, limit));
    let account = Account::new(heap, plan, places, limit)?;
    let mut trial = trial(heap, generator, all, plan, places)?;
    let flat = make(flat(below, account, built), &mut trial);
    let mut tally = trial.tally;
    let (_, account) = ended(flat, &mut tally);
    let low = words_agree(&first, 0, places, &account);
    let high = words_agree(&second, 3, places, &account);
    tally.devices.note(low && high);
    Ok(tally)
}

// Whether the bytes of a running image tray are what the account says.
fn bytes_agree(bytes: &[u8], bay: usize, places: usize, account: &Account) -> bool {
    let marks = bytes.iter().skip(2).take(places);
    let words = bytes.iter().skip(places.saturating_add(4));
    !account.runs(bay)
        || marks.zip(words).enumerate().all(|(place, (mark, word))| {
            let held = if *mark == 1 {
                Some(u32::from(*word))
            } else {
                None
            };
            account.stored(bay, place) == held
        })
}

// Histories of an array over a drill over trays and image trays, with limit 256.
fn on_images<F: Known>(heap: Global, seed: u64, all: Tally) -> Result<Tally, AllocError> {
    let mut generator = Generator::new(seed);
    let data_bays = 1 + generator.index(3);
    let Drawn { kind, plan } = draw::<F>(&mut generator, data_bays, 4 - data_bays);
    let count = 1 + generator.below(3) as u16;
    let places = usize::from(count);
    let Some(built) = plan.built::<F>(kind) else {
        return Ok(all);
    };
    let (mut low, mut first) = (blank_words(heap, places)?, blank_image(heap, count)?);
    let (mut second, mut high) = (blank_image(heap, count)?, blank_words(heap, places)?);
    let images = Pair::new(ImageTray::new(&mut first), ImageTray::new(&mut second));
    let below = Pair::new(
        Tray::new(&mut low, 256),
        Pair::new(images, Tray::new(&mut high, 256)),
    );
    let account = Account::new(heap, plan, places, 256)?;
    let mut trial = trial(heap, generator, all, plan, places)?;
    let flat = make(flat(below, account, built), &mut trial);
    let mut tally = trial.tally;
    let (_, account) = ended(flat, &mut tally);
    let outer = words_agree(&low, 0, places, &account) && words_agree(&high, 3, places, &account);
    let inner = bytes_agree(&first, 1, places, &account)
        && bytes_agree(&second, 2, places, &account);
    tally.devices.note(outer && inner);
    Ok(tally)
}

// An array over a drill over disks, as one of two below an array.
fn half<F: Known>(
    heap: Global,
    generator: &mut Generator,
    places: usize,
) -> Result<Option<Flat<Rack<Disk>, F>>, AllocError> {
    let (data_bays, check_bays) = (1 + generator.index(3), 1 + generator.index(3));
    let Drawn { kind, plan } = draw::<F>(generator, data_bays, check_bays);
    let Some(built) = plan.built::<F>(kind) else {
        return Ok(None);
    };
    let below = disks(heap, plan.bays(), places, F::size())?;
    let account = Account::new(heap, plan, places, F::size())?;
    Ok(Some(flat(below, account, built)))
}

// The array over two of them, with a plan that has as many bays as they have data bays.
fn tower<F: Known>(
    generator: &mut Generator,
    first: Flat<Rack<Disk>, F>,
    second: Flat<Rack<Disk>, F>,
) -> Option<(Tower<Rack<Disk>, F>, PlainPlan)> {
    let (low, high) = (first.below().account.plan(), second.below().account.plan());
    let bays = low.data_bays.saturating_add(high.data_bays);
    let data_bays = 1 + generator.index(bays.saturating_sub(1));
    let Drawn { kind, plan } = draw::<F>(generator, data_bays, bays.saturating_sub(data_bays));
    let built = plan.built::<F>(kind)?;
    Some((Array::assemble(Pair::new(first, second), built), plan))
}

// Histories of an array over a pair of arrays over drills over disks.
fn on_arrays<F: Known>(heap: Global, seed: u64, all: Tally) -> Result<Tally, AllocError> {
    let mut generator = Generator::new(seed);
    let places = 1 + generator.index(2);
    let first = half::<F>(heap, &mut generator, places)?;
    let second = half::<F>(heap, &mut generator, places)?;
    let (Some(first), Some(second)) = (first, second) else {
        return Ok(all);
    };
    let Some((pile, plan)) = tower(&mut generator, first, second) else {
        return Ok(all);
    };
    let mut trial = trial(heap, generator, all, plan, places)?;
    let pile = make(pile, &mut trial);
    let mut tally = trial.tally;
    let (pair, _) = pile.take_apart();
    let (first, second) = pair.into_shelves();
    let (rack, account) = ended(first, &mut tally);
    let low = disks_agree(&rack, &account);
    let (rack, account) = ended(second, &mut tally);
    tally.devices.note(low && disks_agree(&rack, &account));
    Ok(tally)
}

// The histories of one field on every kind of pile but image trays.
fn in_field<F: Known>(heap: Global, seed: u64, all: Tally) -> Result<Tally, AllocError> {
    let all = on_disks::<F>(heap, seed.wrapping_mul(5), all)?;
    let all = on_trays::<F>(heap, seed.wrapping_mul(7), all)?;
    on_arrays::<F>(heap, seed.wrapping_mul(11), all)
}

// All histories.
pub fn all(heap: Global) -> Result<Tally, AllocError> {
    let mut tally = Tally::new();
    for i in 0..HISTORIES {
        let seed = 1_000 + i;
        tally = in_field::<Nibble>(heap, seed, tally)?;
        tally = in_field::<Byte>(heap, seed.wrapping_mul(3), tally)?;
        tally = in_field::<Count>(heap, seed.wrapping_mul(13), tally)?;
        tally = on_images::<Nibble>(heap, seed.wrapping_mul(17), tally)?;
        tally = on_images::<Byte>(heap, seed.wrapping_mul(19), tally)?;
    }
    Ok(tally)
}
