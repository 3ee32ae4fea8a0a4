// The split of a bucket of b + 1 entries: the split string, what stays and what moves, the two slots, and the cells to be
// added.
#![tactic(auto)]

ghost use Rattle.std.specs.Prelude.{◌≡◌, ◌<◌, ◌≤◌, ◌+◌, length, take};
ghost use Rattle.model.specs.Order.{diff};
ghost use Rattle.model.specs.Format.{padded};
ghost use Rattle.slots.specs.Halves.{LowerTold, UpperTold};
ghost use Rattle.growth.specs.Grows.{Grows};
ghost use Rattle.image.specs.Images.{trie_from};
ghost use Rattle.splitting.specs.Divides.{Found, LengthTold, PlaceTold};
ghost use Rattle.splitting.specs.Parts.{Parted};

use bucket::{SLOT, Slot};
use digits::Key;
use entries::ROOM;
use image::Image;
use model::Layout;
use trie::Walk;

// The split string and how many digits it has, how many entries stay, the walk of the split key, and how many digits of
// the string are shared with the walk's path.
#[derive(Clone, Copy)]
pub struct Split {
    pub string: [u8; 24],
    pub len: usize,
    pub stay: usize,
    pub walk: Walk,
    pub shared: usize,
}

// R7.4: how many digits the split string has. The split key and the last name differ, so if they share 23 digits the
// last digit decides.
fn string_length(key: &[u8; 24], last: &[u8; 24]) -> usize
    ensures { (1 ≤ result) × (result ≤ 24) × (result ≡ diff (take 23 key.now) last.now + 1) }
{
    digits::shared(&key[..23], last) + 1
}

// The first digits, and zero behind them.
fn beginning(name: &[u8; 24], len: usize) -> [u8; 24]
    requires { len ≤ 24 }
    ensures { result ≡ padded 24 (take len name.now) }
{
    let mut string = [0u8; 24];
    string[..len].copy_from_slice(&name[..len]);
    string
}

// R7.4: how many digits the split string has whose key stands at a place, counted from 0.
fn length_at(row: &[u8; ROOM], layout: Layout, i: usize) -> usize
    requires { (layout.b ≤ 16) × (i < layout.b) }
    ensures { LengthTold result layout row.now i }
{
    let key = slots::name_of(row, layout, i);
    let last = slots::name_of(row, layout, layout.b);
    string_length(&key, &last)
}

// R7.3: the place of the split key among b + 1 entries, counted from 0. A key nearer to the last name gives no shorter
// string, because the names ascend: so position m + 1 never wins, and two strings decide.
fn place_of(row: &[u8; ROOM], layout: Layout) -> usize
    requires { (2 ≤ layout.b) × (layout.b ≤ 16) }
    ensures { PlaceTold result layout row.now }
{
    let middle = layout.b / 2;
    if layout.version == 1 {
        return middle;
    }
    let before = middle - 1;
    if length_at(row, layout, before) < length_at(row, layout, middle) {
        return before;
    }
    middle
}

// R7.3 and R7.4: the split of b + 1 entries, sorted.
pub fn split_of(row: &[u8; ROOM], layout: Layout, image: &Image) -> Split
    requires { (2 ≤ layout.b) × (layout.b ≤ 16) }
    ensures { (Parted result layout.b) × (Found result layout (trie_from image.now) row.now) }
{
    let place = place_of(row, layout);
    let key = slots::name_of(row, layout, place);
    let len = length_at(row, layout, place);
    let string = beginning(&key, len);
    let stay = slots::stay_in(row, layout, Key::of_bound(&string, 0, len));
    let walk = image::walk_of(image, &key);
    let shared = growth::shared_with(walk, &string[..len]);
    Split {
        string,
        len,
        stay,
        walk,
        shared,
    }
}

// The slot N of a split.
pub fn new_slot(slot: &Slot, row: &[u8; ROOM], split: &Split) -> [u8; SLOT]
    requires { Parted split.now slot.now.layout.b }
    ensures { UpperTold result slot.now.layout slot.now.bytes.now row.now (take split.now.len split.now.string) split.now.stay }
{
    slots::upper_half(slot, row, &split.string[..split.len], split.stay)
}

// The slot A of a split, cut down.
pub fn old_slot(slot: &Slot, row: &[u8; ROOM], split: &Split) -> [u8; SLOT]
    requires { Parted split.now slot.now.layout.b }
    ensures { LowerTold result slot.now.layout slot.now.bytes.now row.now (take split.now.len split.now.string) split.now.stay }
{
    slots::lower_half(slot, row, &split.string[..split.len], split.stay)
}

// Writes the trie after a split over the one before.
pub fn grow_at(
    image: &mut Image,
    places: &[u16; 256],
    lens: &[u8; 256],
    split: &Split,
    a: u16,
    n: u16,
)
    requires { ((trie_from image.old).count + split.now.len ≤ 256 + split.now.shared)
        × (split.now.shared ≤ split.now.len) × (split.now.len ≤ 24) × (a < 32768) × (n < 32768) }
    ensures { Grows (trie_from image.old) places.now lens.now split.now.walk (take split.now.len split.now.string) split.now.shared a n (trie_from image.new) }
{
    growth::grow(
        image,
        places,
        lens,
        split.walk,
        &split.string[..split.len],
        split.shared,
        a,
        n,
    );
}
