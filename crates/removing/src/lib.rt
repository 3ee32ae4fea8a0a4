// Remove: one store, or the two of a merge. It checks for itself, in the order of refusals R10.9, and then plans its stores,
// without the limit and without writing, before it commits them.
#![tactic(auto)]

ghost use Rattle.std.specs.Prelude.{◌≡◌, ◌≤◌, ◌<◌, ◌+◌, IfSome};
ghost use Rattle.model.specs.Calls.{remove_of};
ghost use Rattle.digits.specs.Keys.{key_value, value as digits_value};
ghost use Rattle.image.specs.Images.{trie_from};
ghost use Rattle.model.specs.Names.{Legal};
ghost use Rattle.file.specs.Plans.{Fits};
ghost use Rattle.checking.specs.Ready.{Ready};
ghost use Rattle.removing.specs.Outcomes.{remove_left};
ghost use Rattle.removing.specs.Merges.{CountTold, Left, MergeTold, RebuildTold, RemovalTold, RemoveTold, StandsAt};

use bucket::SLOT;
use checking::{Checked, checks_of};
use digits::Key;
use file::Plan;
use image::Image;
use model::{Cause, Removal, RemoveAnswer};
use slots::Spot;

// What the removal of a name that is held is to store. Where it merges, `right` is the place in order of the slot that is freed.
#[derive(Clone, Copy)]
pub struct RemovePlan {
    pub plan: Plan,
    pub right: Option<usize>,
}

// The entries of the slot at a place in order.
fn count_at_place(file: &[u8], checked: &Checked, place: usize) -> usize
    requires { (Ready checked.now file.now) × (place < checked.now.survey.count) }
    ensures { (result ≤ checked.now.size.layout.b) × (CountTold result checked.now file.now place) }
{
    let k = checking::slot_at_place(checked, place);
    file::slot_at(file, checked.size, k).count()
}

// A merge: first the left slot, which takes in what both hold but for the name, then the right one, freed. The right one stands
// at a place in order, the left one, with m entries, before it; i is the name's place among all their entries.
fn merge(file: &[u8], checked: &Checked, right: usize, m: usize, n: usize, i: usize) -> RemovePlan
    requires { (Ready checked.now file.now) × (1 ≤ right) × (right < checked.now.survey.count) × (m ≤ checked.now.size.layout.b)
        × (n ≤ checked.now.size.layout.b) × (m + n ≤ 16) × (i < m + n) }
    ensures { (Fits result.plan checked.now.size) × (MergeTold result checked.now file.now right m n i) }
{
    let size = checked.size;
    let l = checking::slot_at_place(checked, right - 1);
    let r = checking::slot_at_place(checked, right);
    let wide = slots::widened(
        &file::slot_at(file, size, l),
        m,
        &file::slot_at(file, size, r),
        n,
        i,
    );
    RemovePlan {
        plan: file::two_stores(l, &wide, r, &[0u8; SLOT]),
        right: Some(right),
    }
}

// The removal of a name that is held, at its spot in the bucket at a place in order. Without the name, this bucket and its right
// neighbour merge if they have at most b/2 entries together, else it and the left one if these do. A bucket that becomes empty
// and does not merge keeps its range.
fn removal(file: &[u8], checked: &Checked, place: usize, spot: &Spot) -> RemovePlan
    requires { (Ready checked.now file.now) × (place < checked.now.survey.count) × (StandsAt spot.now checked.now file.now place)
        × (spot.now.place < spot.now.count) }
    ensures { (Fits result.plan checked.now.size) × (RemovalTold result checked.now file.now place spot.now) }
{
    let most = checked.size.layout.b / 2;
    let count = spot.count;
    if place + 1 < checked.survey.count {
        let n = count_at_place(file, checked, place + 1);
        if count - 1 + n <= most {
            return merge(file, checked, place + 1, count, n, spot.place);
        }
    }
    if 0 < place {
        let m = count_at_place(file, checked, place - 1);
        if m + (count - 1) <= most {
            return merge(file, checked, place, m, count, m + spot.place);
        }
    }
    let k = checking::slot_at_place(checked, place);
    let new = spot.lessened();
    RemovePlan {
        plan: file::one_store(k, &new),
        right: None,
    }
}

// R7.10: what the removal of a name is to store, in a file that passed the checks. An absent name needs no store. It is a function of its
// own in the machine code too: what a merge needs on the stack is gone again before the trie is rebuilt.
#[inline(never)]
fn remove_plan(file: &[u8], checked: &Checked, name: &[u8; 24], key: Key) -> Option<RemovePlan>
    requires { (Ready checked.now file.now) × (Legal name.now) × (key_value key ≡ digits_value name.now) }
    ensures { (IfSome result (λ p. Fits p.plan checked.now.size)) × (RemoveTold result checked.now file.now name.now) }
{
    let size = checked.size;
    let survey = &checked.survey;
    let place = file::holder(file, size, &survey.order, survey.count, name);
    let k = checking::slot_at_place(checked, place);
    let spot = slots::spot_in(&file::slot_at(file, size, k), key);
    if !spot.held {
        return None;
    }
    Some(removal(file, checked, place, &spot))
}

// Writes the trie of what a merge has left: a sound file, whose order is the one before without the place of the slot that was freed. Its
// strings are no more than they were, so 256 or fewer. `checked` comes by value: of an array behind a reference to a struct a proof does
// not know the length, which `leave_out` asks.
fn rebuild_without(file: &[u8], image: &mut Image, checked: Checked, right: usize)
    requires { Left checked file.now right }
    ensures { RebuildTold image.new checked file.now right }
{
    let survey = checked.survey;
    let mut order = survey.order;
    file::leave_out(&mut order, survey.count, right);
    let strings = strings::strings_of(file, checked.size, &order, survey.count - 1).unwrap();
    rebuilding::rebuild(image, &strings);
}

// Removes a name: one store, or the two of a merge; a name that is absent needs none. After a merge the trie is the rebuilt one.
pub fn remove(file: &mut [u8], image: &mut Image, name: &[u8], limit: u64) -> RemoveAnswer
    ensures { (result, file.new, image.new)
        ≡ remove_left image.old (remove_of file.old (trie_from image.old) name.now limit) }
{
    if 2 < limit {
        return Err(Cause::WrongSize);
    }
    let filled = digits::filled(name);
    let key = digits::naming_of(name, &filled).ok_or(Cause::IllegalName)?;
    let checked = checks_of(file, image)?;
    let Some(change) = remove_plan(file, &checked, &filled, key) else {
        return Ok(Removal::Absent);
    };
    if file::commit(file, checked.size, change.plan, limit) {
        return Ok(Removal::Stopped(limit));
    }
    let Some(right) = change.right else {
        return Ok(Removal::Removed(1));
    };
    rebuild_without(file, image, checked, right);
    Ok(Removal::Removed(2))
}
