// Agreement of the trie of an image with a sound file, in one pass over both.
//
// The strings of the file are not written down, and the image is not decoded: the pass goes through the bounds in range
// order and through the cells at once. It is proved in one direction, that a trie which it passes agrees. Where it does not
// pass, the exact test of crate `agreement` decides.
#![tactic(auto)]

ghost use Rattle.std.specs.Prelude.{true, ◌≡◌, ◌≤◌, ◌<◌, ◌-◌, get_or, length};
ghost use Rattle.file.specs.Sizes.{Below, Sized};
ghost use Rattle.image.specs.Images.{trie_from};
ghost use Rattle.agreeing.specs.Agreeing.{AgreeingTold, PassingTold};
ghost use Rattle.agreeing.specs.Ways.{BoundAt, Goes, Roomy, StringAt, Whatever, root_of};

use file::Size;
use image::Image;
use trie::Hand;

// Where the pass stands: at a side, with so many cells on the stack, where no number may be smaller than `least`. A side is
// the number that it is written as; the root, to which none leads, would be 65,536.
#[derive(Clone, Copy)]
pub struct Spot {
    pub side: usize,
    pub top: usize,
    pub least: usize,
}

// Enters cells, each the left side of the one before, up to a leaf. A cell is marked, and none is entered twice. A pass that
// strays gives no spot, and tells nothing of the trie.
fn entered(
    image: &Image,
    cells: usize,
    marks: &mut [u8; 256],
    stack: &mut [u8; 256],
    spot: Spot,
) -> Option<Spot>
    requires { (cells ≤ 256) × (Roomy marks.old stack.old spot) }
    ensures { Goes image.now cells Whatever 0 marks.old stack.old spot marks.new stack.new result }
{
    let mut side = spot.side;
    let mut top = spot.top;
    // A walk over links: no index is counted.
    while 32768 <= side {
        let k = 65536 - side;
        if cells <= k {
            return None;
        }
        if marks[k] != 0 {
            return None;
        }
        if image::number_at(image, k) < spot.least {
            return None;
        }
        marks[k] = 1;
        stack[top] = k as u8;
        top += 1;
        side = image::side_at(image, k, Hand::Left) as usize;
    }
    Some(Spot {
        side,
        top,
        least: spot.least,
    })
}

// The next string is the first `number` digits of x and one more, and left of it stands the leaf of this slot: the cell on
// top of the stack must be its cell.
#[tactic(auto, using(crate::specs::Ways::strays))]
fn string_met(
    image: &Image,
    cells: usize,
    marks: &mut [u8; 256],
    stack: &mut [u8; 256],
    spot: Spot,
    slot: usize,
    x: &[u8],
    number: usize,
) -> Option<Spot>
    requires { (cells ≤ 256) × (Roomy marks.old stack.old spot) × (slot < 256) × (number < length x.now) }
    ensures { Goes image.now cells (StringAt slot number (get_or x.now number 0)) 1 marks.old stack.old spot
        marks.new stack.new result }
{
    let leaf = entered(image, cells, marks, stack, spot)?;
    if leaf.side != slot {
        return None;
    }
    if leaf.top == 0 {
        return None;
    }
    let top = leaf.top - 1;
    let k = stack[top] as usize;
    if image::digit_at(image, k) != x[number] {
        return None;
    }
    if image::number_at(image, k) != number {
        return None;
    }
    Some(Spot {
        side: image::side_at(image, k, Hand::Right) as usize,
        top,
        least: number,
    })
}

// The beginnings of x that are longer than `shared` digits, the longest first. Left of x itself stands the bucket that x
// ends, left of the others the next one.
#[tactic(auto, using(crate::specs::Ways::strays))]
fn bound_met(
    image: &Image,
    cells: usize,
    marks: &mut [u8; 256],
    stack: &mut [u8; 256],
    spot: Spot,
    x: &[u8],
    shared: usize,
    slot: usize,
    next: usize,
) -> Option<Spot>
    requires { (cells ≤ 256) × (Roomy marks.old stack.old spot) × (slot < 256) × (next < 256) × (shared ≤ length x.now) }
    ensures { Goes image.now cells (BoundAt x.now shared slot next) (length x.now - shared) marks.old stack.old spot
        marks.new stack.new result }
{
    let mut here = spot;
    let mut left = slot;
    for len in (shared..x.len()).rev() {
        here = string_met(image, cells, marks, stack, here, left, x, len)?;
        left = next;
    }
    Some(here)
}

// The pass, from the side that the whole trie is.
fn is_passing(
    file: &[u8],
    size: Size,
    order: &[u8; 64],
    count: usize,
    image: &Image,
    cells: usize,
    side: usize,
) -> bool
    requires { (Sized (length file.now) size) × (Below order.now size.slots) × (count ≤ 64) × (cells ≤ 256) × (side ≤ 65536) }
    ensures { result ≡ true → PassingTold file.now size order.now count image.now cells side }
{
    if count == 0 {
        return false;
    }
    let mut marks = [0u8; 256];
    let mut stack = [0u8; 256];
    let mut spot = Spot {
        side,
        top: 0,
        least: 0,
    };
    let mut met = 0usize;
    let mut slot = order[0] as usize;
    for j in 1..count {
        let next = order[j] as usize;
        let one = file::slot_at(file, size, slot);
        let two = file::slot_at(file, size, next);
        let x = one.upper();
        let shared = bucket::shared_uppers(one.bytes, two.bytes);
        if x.len() < shared {
            return false;
        }
        let Some(after) = bound_met(
            image, cells, &mut marks, &mut stack, spot, x, shared, slot, next,
        ) else {
            return false;
        };
        spot = after;
        met += x.len() - shared;
        slot = next;
    }
    if spot.side != slot {
        return false;
    }
    if spot.top != 0 {
        return false;
    }
    met == cells
}

// The side that the whole trie is: its root or its only leaf.
fn root_of(cells: usize, first: usize) -> usize
    requires { first < 65536 }
    ensures { (result ≡ root_of cells first) × (result ≤ 65536) }
{
    if cells == 0 {
        return first;
    }
    65536
}

// True tells that the trie agrees; false tells nothing.
fn matches(file: &[u8], size: Size, order: &[u8; 64], count: usize, image: &Image) -> bool
    requires { (Sized (length file.now) size) × (Below order.now size.slots) × (count ≤ 64) }
    ensures { result ≡ true → AgreeingTold true file.now size order.now count (trie_from image.now) }
{
    let cells = image::count_of(image);
    if 256 < cells {
        return false;
    }
    let first = image::first_of(image);
    if 0 < cells {
        if first != 0 {
            return false;
        }
    }
    if !image::is_clear_past(image, cells) {
        return false;
    }
    is_passing(
        file,
        size,
        order,
        count,
        image,
        cells,
        root_of(cells, first),
    )
}

// The exact test, by the strings of the file. In the machine code too it is a function of its own: its arrays would otherwise stand on
// the stack of put, remove and list, which ask for agreement, and hardly one call needs it.
#[cold]
#[inline(never)]
fn is_agreeing_exactly(
    file: &[u8],
    size: Size,
    order: &[u8; 64],
    count: usize,
    image: &Image,
) -> bool
    requires { (Sized (length file.now) size) × (Below order.now size.slots) × (count ≤ 64) }
    ensures { AgreeingTold result file.now size order.now count (trie_from image.now) }
{
    let strings = strings::strings_of(file, size, order, count);
    agreement::agreement_of(image, strings.as_ref()).is_some()
}

// Whether the trie of an image agrees with a sound file whose used slots stand in range order.
pub fn is_agreeing(file: &[u8], size: Size, order: &[u8; 64], count: usize, image: &Image) -> bool
    requires { (Sized (length file.now) size) × (Below order.now size.slots) × (count ≤ 64) }
    ensures { AgreeingTold result file.now size order.now count (trie_from image.now) }
{
    if matches(file, size, order, count, image) {
        return true;
    }
    is_agreeing_exactly(file, size, order, count, image)
}
