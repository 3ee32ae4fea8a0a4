// The strings of a sound file (R5.7), in ascending order.
//
// A beginning comes after everything that it begins. So after a bound x, before the next bound y, come the beginnings of x
// that are longer than what x and y share, the longest first. Each string is kept as its length and its last digit, which
// is what a cell holds of it, with the slot of the leaf just left of it.
#![tactic(auto)]

ghost use Rattle.std.specs.Prelude.{◌≡◌, ◌≤◌, ◌<◌, ◌+◌, length};
ghost use Rattle.std.proofs.Math.ListN.{set};
ghost use Rattle.file.specs.Sizes.{Sized, Below};
ghost use Rattle.strings.specs.Arrays.{Added, Listed, Whole, beyond};

use file::Size;
use trie::Strings;

// Adds the beginnings of x that are longer than `shared` digits, the longest first. Left of x itself stands the bucket
// that x ends, left of the others the next one.
fn add(strings: &mut Strings, x: &[u8], shared: usize, slot: u8, next: u8)
    requires { (strings.old.count + length x.now ≤ 256 + shared) × (shared ≤ length x.now) × (length x.now ≤ 24)
        × Whole strings.old }
    ensures { Added (beyond shared x.now) slot next strings.old strings.new }
{
    let mut left = slot;
    for len in (shared..x.len()).rev() {
        strings.lens[strings.count] = len as u8 + 1;
        strings.digits[strings.count] = x[len];
        strings.slots[strings.count] = left;
        left = next;
        strings.count += 1;
    }
}

// Behind the last string stands the leaf of the last bucket.
fn end_with(strings: &mut Strings, slot: u8)
    requires { Whole strings.old }
    ensures { (strings.new.count ≡ strings.old.count) × (strings.new.lens ≡ strings.old.lens) × (strings.new.digits ≡ strings.old.digits)
        × (strings.new.slots ≡ set strings.old.slots strings.old.count slot) }
{
    strings.slots[strings.count] = slot;
}

// The strings of a sound file, whose buckets stand in range order; none where there are more than 256.
pub fn strings_of(file: &[u8], size: Size, order: &[u8; 64], count: usize) -> Option<Strings>
    requires { (Sized (length file.now) size) × (Below order.now size.slots) × (count ≤ 64) }
    ensures { Listed result file.now size order.now count }
{
    let mut strings = Strings {
        count: 0,
        lens: [0u8; 256],
        digits: [0u8; 256],
        slots: [0u8; 257],
    };
    for j in 1..count {
        let slot = order[j - 1];
        let next = order[j];
        let x = file::slot_at(file, size, slot as usize).upper();
        let y = file::slot_at(file, size, next as usize).upper();
        let shared = digits::shared(x, y);
        if 256 + shared < strings.count + x.len() {
            return None;
        }
        add(&mut strings, x, shared, slot, next);
    }
    if 0 < count {
        end_with(&mut strings, order[count - 1]);
    }
    Some(strings)
}
