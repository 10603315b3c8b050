ghost use Rattle.std.specs.Prelude.{◌≡◌, codes, Some};
ghost use Rattle.archive.specs.Fields.{arithmetic_of};
ghost use Rattle.archive.specs.Texts.{after_blanks, listing, verdict, rewrite_text, report_text};

use crate::loss::Loss;
use crate::stripe::{Rewrite, Stripe};
use command::{Description, FieldName};
use field::{Byte, Count, Field, Nibble};
use std::fmt;

// What the account says of a command that was carried out.
#[derive(Drop)]
pub enum Report {
    // An archive was described: its field, its data and check bays, and its places.
    Described(Description),
    // This stripe was laid at a place.
    Laid {
        place: u32,
        stripe: Stripe,
    },
    // A word was written in a data bay at a place.
    Written {
        bay: u32,
        place: u32,
        word: u32,
        rewrite: Rewrite,
    },
    // What is still told where bays are lost.
    Lost(Loss),
}

// Words, each behind a blank.
#[derive(Clone, Copy)]
struct BehindBlanks<'a>(&'a [u32]);

impl fmt::Display for BehindBlanks<'_> {
    ghost output = { λ r. Some (after_blanks r.0.now) };

    fn fmt<W: fmt::Write>(&self, f: &mut fmt::Formatter<W>) -> fmt::Result {
        for word in self.0 {
            write!(f, " {word}")?;
        }
        Ok(())
    }
}

// Words, with blanks between them; `none` where there is none. Std's join allocates, which printing can't.
#[derive(Clone, Copy)]
struct Row<'a>(&'a [u32]);

impl fmt::Display for Row<'_> {
    ghost output = { λ r. Some (listing r.0.now) };

    fn fmt<W: fmt::Write>(&self, f: &mut fmt::Formatter<W>) -> fmt::Result {
        match self.0 {
            [] => f.write_str("none"),
            [first, rest @ ..] => write!(f, "{first}{}", BehindBlanks(rest)),
        }
    }
}

// The order of a field.
fn order_of(field: FieldName) -> u32
    ensures { result ≡ (arithmetic_of field).order }
{
    match field {
        FieldName::Nibble => Nibble::size(),
        FieldName::Byte => Byte::size(),
        FieldName::Count => Count::size(),
    }
}

impl Rewrite {
    // Whether the moved checks are the ones computed afresh.
    fn verdict(&self) -> &'static str
        ensures word { result.now ≡ verdict self.entry.now.after.items self.entry.now.afresh.items }
        ensures same { self.entry.now.after.items ≡ self.entry.now.afresh.items → result.now ≡ codes "the same" }
    {
        if self.after == self.afresh {
            "the same"
        } else {
            "another"
        }
    }
}

impl fmt::Display for Rewrite {
    ghost output = { λ w. Some (rewrite_text w) };

    fn fmt<W: fmt::Write>(&self, f: &mut fmt::Formatter<W>) -> fmt::Result {
        write!(
            f,
            "checks {} to {}, afresh {}: {}",
            Row(&self.before),
            Row(&self.after),
            Row(&self.afresh),
            self.verdict()
        )
    }
}

impl fmt::Display for Report {
    ghost output = { λ r. Some (report_text r) };

    fn fmt<W: fmt::Write>(&self, f: &mut fmt::Formatter<W>) -> fmt::Result {
        match self {
            Report::Described(
                Description {
                    field,
                    data_bays,
                    check_bays,
                    places,
                },
            ) => {
                let order = order_of(*field);
                write!(
                    f,
                    "archive: {field} field of order {order}, plan of powers, data bays {data_bays}, check bays {check_bays}, places {places}"
                )
            }
            Report::Laid { place, stripe } => {
                write!(
                    f,
                    "place {place}: data {}, checks {}",
                    Row(&stripe.words),
                    Row(&stripe.checks)
                )
            }
            Report::Written {
                bay,
                place,
                word,
                rewrite,
            } => {
                write!(
                    f,
                    "place {place}: bay {bay} from {} to {word}, {rewrite}",
                    rewrite.old
                )
            }
            Report::Lost(loss) => write!(f, "lost bays {}: {loss}", Row(&loss.lost)),
        }
    }
}
