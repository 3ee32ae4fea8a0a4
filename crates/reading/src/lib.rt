// The calls that change nothing: look up and list. Neither has a `requires`: each checks for itself, in the order of
// refusals R10.9 and, for look up, section 11.
#![tactic(auto)]

ghost use Rattle.std.specs.Prelude.{◌≡◌, ◌≤◌, ◌<◌, ◌+◌, ◌-◌, length};
ghost use Rattle.model.specs.Names.{Legal, filled};
ghost use Rattle.model.specs.Format.{entry_length, read_slot};
ghost use Rattle.model.specs.Searches.{order_of};
ghost use Rattle.model.specs.Calls.{between, entries_in, list_entries, list_of, slot_answer};
ghost use Rattle.digits.specs.Keys.{key_value, value};
ghost use Rattle.image.specs.Images.{trie_from};
ghost use Rattle.checking.specs.Ready.{Ready};
ghost use Rattle.reading.specs.Outcomes.{listed};
ghost use Rattle.reading.specs.Listings.{Written, bytes_of, part_of};
ghost use Rattle.reading.specs.Walked.{looked_up_from};

use bucket::{Slot, Vacancy};
use checking::{Checked, checks_of};
use digits::Key;
use image::Image;
use model::{Cause, ListAnswer, LookUpAnswer, NO_DIGIT};
use span::Span;
use trie::Place;

mod span;

// What one slot answers to a name, which comes with its key.
fn answer_of(slot: &Slot, name: &[u8; 24], key: Key) -> LookUpAnswer
    requires { key_value key ≡ value name.now }
    ensures { Legal name.now → result ≡ slot_answer slot.now.layout.b name.now (read_slot slot.now.layout slot.now.bytes.now) }
{
    let Vacancy::Taken = slot.vacancy() else {
        return Err(Cause::StaleTrie(NO_DIGIT));
    };
    let Some(_) = slot.form() else {
        return Err(Cause::BadFile);
    };
    if let Err(digit) = slot.range(name) {
        return Err(Cause::StaleTrie(digit));
    }
    Ok(slots::held_in(slot, key))
}

// The same. Nearly always the bucket is seen at once to be well formed and to have the name in its range; where it is not, the exact
// look decides.
fn look_in(slot: &Slot, name: &[u8; 24], key: Key) -> LookUpAnswer
    requires { key_value key ≡ value name.now }
    ensures { Legal name.now → result ≡ slot_answer slot.now.layout.b name.now (read_slot slot.now.layout slot.now.bytes.now) }
{
    if !serving::serves(slot, key) {
        return answer_of(slot, name, key);
    }
    Ok(slots::held_in(slot, key))
}

// Look up where the filled name and the place at which its walk ends are known: it reads one bucket, and goes through section 11 of the
// rules from the top.
pub fn look_up_from(file: &[u8], place: Place, name: &[u8], digits: &[u8; 24]) -> LookUpAnswer
    requires { digits.now ≡ filled name.now }
    ensures { result ≡ looked_up_from file.now place name.now }
{
    let Some(key) = gathering::naming_of(name, digits) else {
        return Err(Cause::IllegalName);
    };
    let Some(size) = file::header_of(file) else {
        return Err(Cause::BadFile);
    };
    let Place::Slot(s) = place else {
        return Err(Cause::StaleTrie(NO_DIGIT));
    };
    let k = s as usize;
    if size.slots <= k {
        return Err(Cause::StaleTrie(NO_DIGIT));
    }
    look_in(&file::slot_at(file, size, k), digits, key)
}

impl<'a> Span<'a> {
    // What is listed of the bucket at place j. Only the first and the last are searched: every entry of a bucket between them lies between
    // the names.
    fn part(&self, j: usize) -> &'a [u8]
        requires { j < 64 }
        ensures { (length result.now ≤ 640) × (result.now ≡ part_of self.now j) }
    {
        let slot = file::slot_at(self.file, self.size, self.order[j] as usize);
        if self.from < j && j < self.to {
            return slots::all_of(&slot);
        }
        slots::part_between(&slot, self.low, self.high)
    }

    // How many bytes the entries take that are to be listed.
    fn len(&self) -> usize
        ensures { (result ≤ 40960) × (result ≡ length (bytes_of self.now)) }
    {
        let mut len = 0;
        for j in self.from..=self.to {
            len += self.part(j).len();
        }
        len
    }

    // Writes the entries to be listed, one bucket after another.
    fn write(&self, output: &mut [u8])
        requires { (length (bytes_of self.now) ≤ length output.old) × (length (bytes_of self.now) ≤ 40960) }
        ensures { Written (bytes_of self.now) output.old output.new }
    {
        let mut at = 0;
        for j in self.from..=self.to {
            let part = self.part(j);
            entries::copy(output, at, part);
            at += part.len();
        }
    }
}

// Lists the entries of a file that passed the checks, from one name to another, each with its key.
fn list_checked(
    file: &[u8],
    checked: &Checked,
    first: &[u8; 24],
    second: &[u8; 24],
    low: Key,
    high: Key,
    output: &mut [u8],
) -> ListAnswer
    requires { (Ready checked.now file.now) × (key_value low ≡ value first.now) × (key_value high ≡ value second.now) }
    ensures { (R : Ready checked.now file.now) → Legal first.now → Legal second.now
        → listed result output.new ≡ list_entries (entry_length checked.now.size.layout)
        (between first.now second.now (entries_in R.slots (order_of R.slots))) output.old }
{
    let size = checked.size;
    let survey = &checked.survey;
    let span = Span {
        file,
        size,
        order: &survey.order,
        from: file::holder(file, size, &survey.order, survey.count, first),
        to: file::holder(file, size, &survey.order, survey.count, second),
        low,
        high,
    };
    let len = span.len();
    if output.len() < len {
        return Err(Cause::ShortOutput);
    }
    span.write(output);
    Ok(slots::entries_in(len, size.layout) as u64)
}

// R9.8: writes the entries from the first name to the second, ascending, and leaves what is behind them.
pub fn list(
    file: &[u8],
    image: &Image,
    first: &[u8],
    second: &[u8],
    output: &mut [u8],
) -> ListAnswer
    ensures { listed result output.new ≡ list_of file.now (trie_from image.now) first.now second.now output.old }
{
    let lowest = digits::filled(first);
    let highest = digits::filled(second);
    let low = digits::naming_of(first, &lowest).ok_or(Cause::IllegalName)?;
    let high = digits::naming_of(second, &highest).ok_or(Cause::IllegalName)?;
    let checked = checks_of(file, image)?;
    list_checked(file, &checked, &lowest, &highest, low, high, output)
}
