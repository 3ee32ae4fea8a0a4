// Sound, cut or bad: one pass over the slots, their order, and whether they follow on each other.
ghost use Rattle.std.specs.Prelude.{◌≡◌, ◌+◌, ◌*◌, ◌^◌, ◌<◌, ◌≤◌, List, length, take};
ghost use Rattle.model.specs.Files.{Slot, ranges};
ghost use Rattle.file.specs.Sizes.{Sized, Below};
ghost use Rattle.file.specs.Surveys.{Faulty, Surveyed, cause_of};
ghost use Rattle.file.specs.Orders.{Chained, Known, Laid, Listed, Twinned, TwinTold};

use crate::{Size, order, slot_at};
use bucket::Vacancy;
use digits::Key;
use model::Cause;

// What is wrong with a file: it is bad, or it is cut, with the slot to free. Named, and no Option: of a file that is not sound, None
// would not say that it is bad.
#[derive(Clone, Copy, PartialEq, Eq)]
pub enum Fault {
    Bad,
    Cut(usize),
}

impl From<Fault> for Cause {
    ghost from_gives = { λ fault cause. cause ≡ cause_of fault };

    fn from(fault: Fault) -> Cause {
        match fault {
            Fault::Bad => Cause::BadFile,
            Fault::Cut(_) => Cause::CutFile,
        }
    }
}

// What a look at a whole file finds where it is sound: the used slots as a map and in range order.
#[derive(Clone, Copy)]
pub struct Survey {
    pub used: u64,
    pub count: usize,
    pub order: [u8; 64],
}

// The map with the next lower slot.
pub fn with_next(used: u64, next: u64) -> u64
    ensures { 2 * used + next < 2 ^ 64 → result ≡ 2 * used + next }
{
    used.wrapping_add(used).wrapping_add(next)
}

// R4.4 to R4.6: whether the chain of bounds is closed, from no lower limit to no upper limit.
fn is_chain(file: &[u8], size: Size, order: &[u8; 64], count: usize) -> bool
    requires { (Sized (length file.now) size) × (Below order.now size.slots) × (count ≤ 64) × (length order.now ≡ 64) }
    ensures { (fs : List Slot) → Known size.layout file.now fs → Listed fs order.now count
        → Chained result (ranges fs) (take count order.now) }
{
    let mut end = Key::lowest();
    for j in 0..count {
        let slot = slot_at(file, size, order[j] as usize);
        if slot.low() != end {
            return false;
        }
        end = slot.high();
    }
    end == Key::highest()
}

// The first place whose slot has the upper bound of the one before it.
fn repeated_upper(file: &[u8], size: Size, order: &[u8; 64], count: usize) -> Option<usize>
    requires { (Sized (length file.now) size) × (Below order.now size.slots) × (count ≤ 64) × (length order.now ≡ 64) }
    ensures { TwinTold result size file.now order.now count }
{
    for j in 1..count {
        let before = slot_at(file, size, order[j - 1] as usize);
        let slot = slot_at(file, size, order[j] as usize);
        if before.high() == slot.high() {
            return Some(j);
        }
    }
    None
}

// A file with two slots of one upper bound, at the place and before it: cut, or bad.
fn cut_of(file: &[u8], size: Size, survey: &Survey, place: usize) -> Fault
    requires { (Sized (length file.now) size) × (Below survey.now.order size.slots) × (survey.now.count ≤ 64) × (place < survey.now.count) × (1 ≤ place)
        × (Laid file.now size 0 survey.now.order survey.now.count survey.now.used)
        × ((fs : List Slot) → Known size.layout file.now fs → Listed fs survey.now.order survey.now.count → Twinned fs survey.now.order survey.now.count place) }
    ensures { Faulty result file.now size }
{
    let inner = survey.order[place] as usize;
    let outer = survey.order[place - 1] as usize;
    let outside = slot_at(file, size, outer);
    if !slot_at(file, size, inner).is_copy_of(&outside) {
        return Fault::Bad;
    }
    let mut rest = survey.order;
    order::leave_out(&mut rest, survey.count, place);
    if !is_chain(file, size, &rest, survey.count - 1) {
        return Fault::Bad;
    }
    Fault::Cut(inner)
}

// A file whose slots are each free or well formed, and in order.
fn judged(file: &[u8], size: Size, survey: &Survey) -> Result<Survey, Fault>
    requires { (Sized (length file.now) size) × (Below survey.now.order size.slots) × (survey.now.count ≤ 64)
        × (Laid file.now size 0 survey.now.order survey.now.count survey.now.used) }
    ensures { Surveyed result file.now size }
{
    if let Some(place) = repeated_upper(file, size, &survey.order, survey.count) {
        return Err(cut_of(file, size, survey, place));
    }
    if !is_chain(file, size, &survey.order, survey.count) {
        return Err(Fault::Bad);
    }
    Ok(*survey)
}

// The whole file, from its last slot to its first.
pub fn survey_of(file: &[u8], size: Size) -> Result<Survey, Fault>
    requires { Sized (length file.now) size }
    ensures { Surveyed result file.now size }
{
    let mut survey = Survey {
        used: 0,
        count: 0,
        order: [0u8; 64],
    };
    for k in (0..size.slots).rev() {
        let slot = slot_at(file, size, k);
        match slot.vacancy() {
            Vacancy::Free => {
                survey.used = with_next(survey.used, 0);
            }
            Vacancy::Taken => {
                let Some(bucket) = slot.form() else {
                    return Err(Fault::Bad);
                };
                let place = order::place_of(
                    file,
                    size,
                    &survey.order,
                    survey.count,
                    bucket.low,
                    bucket.high,
                );
                order::insert(&mut survey.order, survey.count, place, k as u8);
                survey.count += 1;
                survey.used = with_next(survey.used, 1);
            }
        }
    }
    judged(file, size, &survey)
}
