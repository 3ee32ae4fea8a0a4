// Put: a name with its value and the run that writes it. It checks for itself, in the order of refusals R10.9, and then plans its
// stores, without the limit and without writing, before it commits them.
#![tactic(auto)]

ghost use Rattle.std.specs.Prelude.{false, true, ◌≡◌, ◌≤◌, ◌<◌, IfOk, length};
ghost use Rattle.model.specs.Calls.{put_of};
ghost use Rattle.model.specs.Names.{Legal};
ghost use Rattle.model.specs.Format.{kept_run};
ghost use Rattle.digits.specs.Keys.{key_value, value as digits_value};
ghost use Rattle.image.specs.Images.{image_length, image_of, trie_from};
ghost use Rattle.file.specs.Plans.{Fits};
ghost use Rattle.file.specs.Sizes.{Sized};
ghost use Rattle.checking.specs.Homes.{HomeTold};
ghost use Rattle.checking.specs.Ready.{Agreed, Ready};
ghost use Rattle.splitting.specs.Parts.{Parted};
ghost use Rattle.putting.specs.Full.{DivideTold, SplitTold, StandingTold};
ghost use Rattle.putting.specs.Outcomes.{put_left};
ghost use Rattle.putting.specs.Plans.{AddTold, HomeLeft, InTold, Of, PutTold, RenewTold, ReplaceTold};

use change::Change;
use checking::{Checked, checks_of};
use digits::Key;
use entries::ROOM;
use file::{Plan, Size};
use image::Image;
use model::{Cause, Content, Layout, Put, PutAnswer};
use slots::Spot;
use splitting::Split;

mod change;

// What a put that needs no split is to store, and what is then done.
#[derive(Clone, Copy)]
pub struct PutPlan {
    pub plan: Plan,
    pub done: Put,
}

// Where the cells stand among the strings, and how many digits each string has. Of the strings a split needs no more, and the stack has
// no room for the rest of them beside its plan.
#[derive(Clone, Copy)]
pub struct Standing {
    pub places: [u16; 256],
    pub lens: [u8; 256],
}

// The slot whose range holds a name, in a file that passed the checks.
fn home_of(file: &[u8], checked: &Checked, name: &[u8; 24]) -> usize
    requires { (Ready checked.now file.now) × (Legal name.now) }
    ensures { HomeTold result checked.now.size file.now name.now }
{
    let survey = &checked.survey;
    checking::slot_at_place(
        checked,
        file::holder(file, checked.size, &survey.order, survey.count, name),
    )
}

// A change of one bucket that has room for it takes one store, and the trie stays.
impl Change<'_, '_> {
    // R7.9: another content for a name that is held.
    fn replaced(&self) -> PutPlan
        requires { self.now.spot.place < self.now.spot.count }
        ensures { (Of result.plan self.now.k) × (ReplaceTold result self.now) }
    {
        let new = self.spot.replaced(self.name, self.content);
        PutPlan {
            plan: file::one_store(self.k, &new),
            done: Put::Replaced(self.spot.content()),
        }
    }

    // A new name that fits into its bucket.
    fn added(&self) -> PutPlan
        requires { self.now.spot.count < self.now.spot.slot.layout.b }
        ensures { (Of result.plan self.now.k) × (AddTold result self.now) }
    {
        let new = self.spot.added(self.name, self.content);
        PutPlan {
            plan: file::one_store(self.k, &new),
            done: Put::Added,
        }
    }

    // R10.14: on a name that is held, refused where what is held has a higher run.
    fn renewed(&self) -> Result<PutPlan, Cause>
        requires { self.now.spot.place < self.now.spot.count }
        ensures { (IfOk result (λ p. Of p.plan self.now.k)) × (RenewTold result self.now) }
    {
        let old = self.spot.content();
        if self.content.run < old.run {
            return Err(Cause::OlderRun);
        }
        Ok(self.replaced())
    }

    // A name that is held, or a new one that fits.
    fn planned(&self) -> Result<PutPlan, Cause>
        requires { self.now.spot.held ≡ false → self.now.spot.count < self.now.spot.slot.layout.b }
        ensures { (IfOk result (λ p. Of p.plan self.now.k)) × (InTold result self.now) }
    {
        if self.spot.held {
            return self.renewed();
        }
        Ok(self.added())
    }
}

// R7.8: two stores, first the new slot, then A, cut down.
fn divide(file: &[u8], size: Size, a: usize, n: usize, row: &[u8; ROOM], split: &Split) -> Plan
    requires { (Sized (length file.now) size) × (a < size.slots) × (n < size.slots) × (Parted split.now size.layout.b) }
    ensures { (Fits result size) × (DivideTold result file.now size a n row.now split.now) }
{
    let slot = file::slot_at(file, size, a);
    let new = splitting::new_slot(&slot, row, split);
    let old = splitting::old_slot(&slot, row, split);
    file::two_stores(n, &new, a, &old)
}

// Only a split needs to know where the cells stand among the strings. The file and the trie have passed the checks: so its strings are
// 256 or fewer, and the trie agrees with them.
fn standing_of(file: &[u8], image: &Image, checked: &Checked) -> Standing
    requires { Agreed checked.now file.now (trie_from image.now) }
    ensures { StandingTold result checked.now file.now (trie_from image.now) }
{
    let survey = &checked.survey;
    let strings = strings::strings_of(file, checked.size, &survey.order, survey.count).unwrap();
    let places = agreement::agreement_of(image, Some(&strings)).unwrap();
    Standing {
        places,
        lens: strings.lens,
    }
}

// An image is that of the trie which is read from it, since it holds bytes. Of an array that a call has written, a proof knows no more
// than its length, so `split` asks here.
fn is_image(image: &[u8])
    requires { length image.now ≡ image_length }
    ensures { image.now ≡ image_of (trie_from image.now) }
{}

// A new name whose bucket is full: refused where no slot is free or the strings would be too many. The trie grows with the last of
// the two stores (R8.1). Its plan and its tables stand on the stack of a split alone, not of every put.
#[inline(never)]
fn split(
    file: &mut [u8],
    image: &mut Image,
    checked: &Checked,
    a: usize,
    row: &[u8; ROOM],
    limit: u64,
) -> PutAnswer
    requires { (Agreed checked.now file.old (trie_from image.old)) × (a < checked.now.size.slots) }
    ensures { SplitTold (result, file.new, image.new) file.old image.old checked.now.size a row.now limit }
{
    let size = checked.size;
    let n = file::lowest_free(checked.survey.used, size.slots).ok_or(Cause::NoFreeSlot)?;
    let split = splitting::split_of(row, size.layout, image);
    if 256 + split.shared < image::count_of(image) + split.len {
        return Err(Cause::ManyStrings);
    }
    let standing = standing_of(file, image, checked);
    let plan = divide(file, size, a, n, row, &split);
    if file::commit(file, size, plan, limit) {
        return Ok(Put::Stopped(limit)); // R8.1: the trie stays.
    }
    splitting::grow_at(
        image,
        &standing.places,
        &standing.lens,
        &split,
        a as u16,
        n as u16,
    );
    is_image(&image[..]);
    Ok(Put::Added)
}

// The run that is kept of the one given: versions 1 and 2 keep none.
fn kept_run(layout: Layout, run: u64) -> u64
    ensures { result ≡ kept_run layout run }
{
    if layout.keeps_runs() { run } else { 0 }
}

// Whether a name is new and finds no room where it should stand.
fn is_full(spot: &Spot) -> bool
    ensures { (result ≡ true → (spot.now.held ≡ false) × (spot.now.slot.layout.b ≤ spot.now.count))
        × (result ≡ false → spot.now.held ≡ false → spot.now.count < spot.now.slot.layout.b) }
{
    !spot.held && spot.slot.layout.b <= spot.count
}

// Put into slot k, the name's home; none where the name is new and the bucket is full. The plan is made here, and in a function of its own
// in the machine code too: the stack has no room for it beside what a split needs.
#[inline(never)]
fn put_in(
    file: &mut [u8],
    size: Size,
    k: usize,
    name: &[u8; 24],
    key: Key,
    content: Content,
    limit: u64,
) -> Result<Option<Put>, Cause>
    requires { (Sized (length file.old) size) × (k < size.slots) × (Legal name.now) × (key_value key ≡ digits_value name.now) }
    ensures { HomeLeft result file.old file.new size k name.now content limit }
{
    let spot = slots::spot_in(&file::slot_at(file, size, k), key);
    if is_full(&spot) {
        return Ok(None);
    }
    let change = Change {
        k,
        spot,
        name,
        content,
    };
    let planned = change.planned()?;
    if file::commit(file, size, planned.plan, limit) {
        return Ok(Some(Put::Stopped(limit)));
    }
    Ok(Some(planned.done))
}

// Put into a file that passed the checks.
fn put_checked(
    file: &mut [u8],
    image: &mut Image,
    checked: &Checked,
    name: &[u8; 24],
    key: Key,
    value: u64,
    run: u64,
    limit: u64,
) -> PutAnswer
    requires { (Agreed checked.now file.old (trie_from image.old)) × (Legal name.now) × (key_value key ≡ digits_value name.now) }
    ensures { PutTold (result, file.new, image.new) file.old image.old checked.now.size name.now value run limit }
{
    let size = checked.size;
    let content = Content {
        value,
        run: kept_run(size.layout, run),
    };
    let k = home_of(file, checked, name);
    if let Some(done) = put_in(file, size, k, name, key, content, limit)? {
        return Ok(done);
    }
    let spot = slots::spot_in(&file::slot_at(file, size, k), key);
    let row = spot.overfull(name, content);
    split(file, image, checked, k, &row, limit)
}

// Puts a name with its value and the run that writes it.
pub fn put(
    file: &mut [u8],
    image: &mut Image,
    name: &[u8],
    value: u64,
    run: u64,
    limit: u64,
) -> PutAnswer
    ensures { (result, file.new, image.new)
        ≡ put_left image.old (put_of file.old (trie_from image.old) name.now value run limit) }
{
    if 2 < limit {
        return Err(Cause::WrongSize);
    }
    let filled = digits::filled(name);
    let key = digits::naming_of(name, &filled).ok_or(Cause::IllegalName)?;
    let checked = checks_of(file, image)?;
    put_checked(file, image, &checked, &filled, key, value, run, limit)
}
