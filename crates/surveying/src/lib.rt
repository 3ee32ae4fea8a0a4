// The look at a whole file, which all calls but create and look up take.
//
// The order of the slots is first guessed and the guess checked, which tells that a file is sound. Where it does not, `file`
// sorts the slots and decides.
#![tactic(auto)]

ghost use Rattle.std.specs.Prelude.{◌≡◌, ◌≤◌, length};
ghost use Rattle.file.specs.Sizes.{Sized};
ghost use Rattle.file.specs.Surveys.{Surveyed};
ghost use Rattle.surveying.specs.Rows.{TallyTold};

use bucket::Vacancy;
use file::{Fault, Size, Survey};

mod row;

// The used slots as a map, where each slot is free or stands in the order. From the last slot to the first.
fn tally_of(
    file: &[u8],
    size: Size,
    order: &[u8; 64],
    count: usize,
    places: &[u8; 64],
) -> Option<u64>
    requires { (Sized (length file.now) size) × (count ≤ 64) × (length order.now ≡ 64) }
    ensures { TallyTold result file.now size order.now count }
{
    let mut used = 0u64;
    for k in (0..size.slots).rev() {
        match file::slot_at(file, size, k).vacancy() {
            Vacancy::Free => {
                used = file::with_next(used, 0);
            }
            Vacancy::Taken => {
                if !row::is_placed(order, count, places, k) {
                    return None;
                }
                used = file::with_next(used, 1);
            }
        }
    }
    Some(used)
}

// The whole file.
pub fn survey_of(file: &[u8], size: Size) -> Result<Survey, Fault>
    requires { Sized (length file.now) size }
    ensures { Surveyed result file.now size }
{
    let guess = row::guessed(file, size);
    if !row::is_row(file, size, &guess.order, guess.count) {
        return file::survey_of(file, size);
    }
    let Some(used) = tally_of(file, size, &guess.order, guess.count, &guess.places) else {
        return file::survey_of(file, size);
    };
    Ok(Survey {
        used,
        count: guess.count,
        order: guess.order,
    })
}
