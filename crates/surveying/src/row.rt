// A guess of the range order, and the check of it. The guess is trusted for nothing but that its numbers are slots.
ghost use Rattle.std.specs.Prelude.{true, ◌≡◌, ℕ, ◌≤◌, ◌<◌, get_or, length};
ghost use Rattle.file.specs.Sizes.{Sized, Below};
ghost use Rattle.surveying.specs.Rows.{AllFramed, AllNamed, Rowed};

use bucket::Slot;
use digits::Key;
use file::{Size, slot_at};

// Where no slot stands in a table. A byte: an Option would double the table.
const NONE: u8 = 255;

// The used slots, each at the mark of its upper bound or behind it, and how many they are.
#[derive(Clone, Copy)]
struct Uppers {
    table: [u8; 320],
    count: usize,
}

// A guess of the used slots in range order, how many they are, and the place of each slot in the order.
#[derive(Clone, Copy)]
pub struct Guess {
    pub order: [u8; 64],
    pub count: usize,
    pub places: [u8; 64],
}

// The first spot of a table that is free from a mark on.
fn free_spot(table: &[u8; 320], mark: usize) -> usize
    requires { mark < 256 }
    ensures { result < 320 }
{
    for spot in mark..319 {
        if table[spot] == NONE {
            return spot;
        }
    }
    319
}

// The used slots by their upper bounds.
fn by_upper(file: &[u8], size: Size) -> Uppers
    requires { Sized (length file.now) size }
    ensures { result.count ≤ 64 }
{
    let mut table = [NONE; 320];
    let mut count = 0;
    for k in 0..size.slots {
        let slot = slot_at(file, size, k);
        if slot.is_used() {
            let spot = free_spot(&table, slot.upper_mark());
            table[spot] = k as u8;
            count += 1;
        }
    }
    Uppers { table, count }
}

// The slot that has no upper limit.
fn highest(file: &[u8], size: Size, table: &[u8; 320]) -> u8
    requires { Sized (length file.now) size }
    ensures { result < size.slots }
{
    for spot in 0..320 {
        let k = table[spot];
        if size.slots <= k as usize {
            return 0;
        }
        if slot_at(file, size, k as usize).is_highest() {
            return k;
        }
    }
    0
}

// The slot on which a slot follows.
fn under(file: &[u8], size: Size, table: &[u8; 320], slot: &Slot) -> u8
    requires { Sized (length file.now) size }
    ensures { result < size.slots }
{
    for spot in slot.lower_mark()..320 {
        let k = table[spot];
        if size.slots <= k as usize {
            return 0;
        }
        if slot.follows(slot_at(file, size, k as usize).bytes) {
            return k;
        }
    }
    0
}

// From the slot without an upper limit down, each slot and then the one on which it follows.
pub fn guessed(file: &[u8], size: Size) -> Guess
    requires { Sized (length file.now) size }
    ensures { (Below result.order size.slots) × (length result.order ≡ 64) × (result.count ≤ 64) }
{
    let uppers = by_upper(file, size);
    let mut order = [0u8; 64];
    let mut places = [0u8; 64];
    let mut k = highest(file, size, &uppers.table);
    for place in (0..uppers.count).rev() {
        order[place] = k;
        places[k as usize] = place as u8;
        k = under(file, size, &uppers.table, &slot_at(file, size, k as usize));
    }
    Guess {
        order,
        count: uppers.count,
        places,
    }
}

// Whether the slots in this order, from no lower limit to no upper limit, are well-formed ones that follow on each other, but for their
// names. The first is taken to follow on the last.
fn are_framed(file: &[u8], size: Size, order: &[u8; 64], count: usize) -> bool
    requires { (Sized (length file.now) size) × (Below order.now size.slots) × (count ≤ 64) × (length order.now ≡ 64) × (0 < count) }
    ensures { result ≡ true → AllFramed file.now size order.now count }
{
    let mut before = order[count - 1] as usize;
    if !slot_at(file, size, before).is_highest() {
        return false;
    }
    let mut low = Key::lowest();
    for j in 0..count {
        let k = order[j] as usize;
        let slot = slot_at(file, size, k);
        let high = slot.high();
        if !slot.is_framed(slot_at(file, size, before).bytes, low, high) {
            return false;
        }
        low = high;
        before = k;
    }
    true
}

// Whether the names in each of these slots are legal and ascend: all are gathered and then judged once.
fn are_named(file: &[u8], size: Size, order: &[u8; 64], count: usize) -> bool
    requires { (Sized (length file.now) size) × (Below order.now size.slots) × (count ≤ 64) × (length order.now ≡ 64) }
    ensures { result ≡ true → AllNamed file.now size order.now count }
{
    let mut seen = gathering::nothing_seen();
    for place in 0..count {
        let slot = slot_at(file, size, order[place] as usize);
        seen = slot.with_names(seen);
    }
    gathering::faults(seen) == 0
}

// Whether the slots in this order are used, well formed and follow on each other, from no lower limit to no upper limit.
pub fn is_row(file: &[u8], size: Size, order: &[u8; 64], count: usize) -> bool
    requires { (Sized (length file.now) size) × (Below order.now size.slots) × (count ≤ 64) × (length order.now ≡ 64) }
    ensures { result ≡ true → Rowed file.now size order.now count }
{
    if count == 0 {
        return false;
    }
    if !are_framed(file, size, order, count) {
        return false;
    }
    are_named(file, size, order, count)
}

// Whether slot k stands at its place in the order.
pub fn is_placed(order: &[u8; 64], count: usize, places: &[u8; 64], k: usize) -> bool
    requires { (count ≤ 64) × (length order.now ≡ 64) × (k < 64) }
    ensures { result ≡ true → (p : ℕ) × (p < count) × (get_or order.now p 0 ≡ k) }
{
    let place = places[k] as usize;
    if count <= place {
        return false;
    }
    order[place] as usize == k
}
