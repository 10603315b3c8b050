// Which words the words of a place tell, decided line by line: a line that comes in is crossed with those that are there, without dividing,
// until a column is left that none of them leads, and then leads that one.
use crate::plain_fields::FieldKind;
use crate::plain_plan::{PlainPlan, Row};
use plan::MOST_DATA_BAYS;
use shelf::MOST_BAYS;

// The cells of a place.
pub type Cells = [Option<u32>; MOST_BAYS];

// A row and its word. Of a line that is asked for, `scale` says by what it was multiplied.
#[derive(Clone, Copy)]
struct Line {
    row: Row,
    word: u32,
    scale: u32,
}

impl Line {
    fn entry(&self, column: usize) -> u32 {
        self.row.get(column).copied().unwrap_or(0)
    }

    // The line, multiplied by what the other has in the column, less the other, multiplied by what this one has there.
    fn crossed(self, field: FieldKind, column: usize, other: Line) -> Line {
        let (mine, theirs) = (self.entry(column), other.entry(column));
        Line {
            row: std::array::from_fn(|j| {
                field.difference(
                    field.product(theirs, self.row[j]),
                    field.product(mine, other.row[j]),
                )
            }),
            word: field.difference(
                field.product(theirs, self.word),
                field.product(mine, other.word),
            ),
            scale: field.product(theirs, self.scale),
        }
    }
}

// Lines, each the one that leads its column.
#[derive(Clone, Copy)]
pub struct Lines {
    field: FieldKind,
    leads: [Option<Line>; MOST_DATA_BAYS],
    // Whether some vector may satisfy them all.
    agree: bool,
}

impl Lines {
    // Those of the filled cells of a place.
    pub fn of(plan: &PlainPlan, cells: &Cells) -> Lines {
        let mut lines = Lines {
            field: plan.field,
            leads: [None; MOST_DATA_BAYS],
            agree: true,
        };
        for (bay, cell) in cells.iter().enumerate() {
            if let Some(word) = cell {
                lines.enter(Line {
                    row: plan.row(bay),
                    word: *word,
                    scale: 1,
                });
            }
        }
        lines
    }

    fn enter(&mut self, line: Line) {
        let mut rest = line;
        for column in 0..MOST_DATA_BAYS {
            if rest.entry(column) != 0 {
                match self.leads[column] {
                    Some(lead) => rest = rest.crossed(self.field, column, lead),
                    None => {
                        self.leads[column] = Some(rest);
                        return;
                    }
                }
            }
        }
        if rest.word != 0 {
            self.agree = false;
        }
    }

    // Whether some vector satisfies them all.
    pub fn agree(&self) -> bool {
        self.agree
    }

    // The word of a row, or none where it is open.
    pub fn told(&self, row: Row) -> Option<u32> {
        let mut rest = Line {
            row,
            word: 0,
            scale: 1,
        };
        for column in 0..MOST_DATA_BAYS {
            if rest.entry(column) != 0 {
                rest = rest.crossed(self.field, column, self.leads[column]?);
            }
        }
        let inverse = self.field.inverse(rest.scale);
        let word = self.field.product(inverse, rest.word);
        Some(self.field.difference(0, word))
    }
}
