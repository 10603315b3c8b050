// What the words of a place tell in the nibble field, by trying every vector of up to three codes.
use crate::elimination::Cells;
use crate::plain_plan::PlainPlan;

// Whether a vector gives the word of each filled cell on its row.
fn agrees(plan: &PlainPlan, cells: &Cells, vector: &[Option<u32>]) -> bool {
    cells.iter().enumerate().all(|(bay, cell)| match cell {
        Some(word) => plan.word_on(bay, vector) == Some(*word),
        None => true,
    })
}

// The word that all agreeing vectors have at a data bay, or none where they differ, or there is none.
pub fn told_by_vectors(plan: &PlainPlan, cells: &Cells, bay: usize) -> Option<u32> {
    let unused = 3usize.saturating_sub(plan.data_bays);
    let vectors = 4_096u32 >> unused.saturating_mul(4).min(12);
    let mut told = None;
    for number in 0..vectors {
        let vector = [
            Some(number % 16),
            Some(number / 16 % 16),
            Some(number / 256),
        ];
        let word = vector.get(bay).copied().flatten();
        if agrees(plan, cells, &vector) {
            if told.is_some() && told != word {
                return None;
            }
            told = word;
        }
    }
    told
}
