// Agreement of the trie of an image with a sound file: one in-order pass of the trie against the file's strings.
//
// In order a cell must have its string's length less one as number and its string's last digit as digit, and each leaf the
// slot that stands there. The digits before the last are then the string's own, because in the right part of a cell no
// number is smaller than the cell's. Nor does a number exceed the length of its path, because from one string to the next
// at most one digit falls away.
#![tactic(auto)]

ghost use Rattle.std.specs.Option.{option_copied};
ghost use Rattle.image.specs.Images.{trie_from};
ghost use Rattle.agreement.specs.Decides.{Decides};
ghost use Rattle.agreement.specs.Passes.{Passed};

use image::Image;
use model::Side;
use trie::Strings;

// The place of a cell that was not reached. It stays a number: an Option would double the table.
const NOWHERE: u16 = 256;

// The pass itself, over a trie whose count is the number of strings.
fn pass(image: &Image, strings: &Strings) -> Option<[u16; 256]>
    ensures { Passed (trie_from image.now).cells strings.now (Side.Cell 0) result }
{
    let count = strings.count;
    let mut places = [NOWHERE; 256];
    // An array and a top, no ArrayVec: the byte stack of one pass, whose depth the invariant speaks of (no plainer).
    let mut stack = [0u8; 256];
    let mut top = 0usize;
    let mut entered = 0usize;
    let mut done = 0usize;
    let mut least = 0usize;
    let mut place = Side::Cell(0);
    // The pass goes from side to side, down into a left part or back up to a cell: it stays a loop.
    loop {
        match place {
            Side::Slot(s) => {
                if s as usize != strings.slots[done] as usize {
                    return None;
                }
                if top == 0 {
                    return (done == count).then_some(places);
                }
                top -= 1;
                let k = stack[top] as usize;
                let cell = image::cell_at(image, k);
                let n = cell.number as usize;
                if n + 1 != strings.lens[done] as usize {
                    return None;
                }
                if cell.digit != strings.digits[done] {
                    return None;
                }
                if places[k] != NOWHERE {
                    return None;
                }
                places[k] = done as u16;
                done += 1;
                least = n;
                place = cell.right;
            }
            Side::Cell(i) => {
                if count <= entered {
                    return None;
                }
                let k = i as usize;
                if count <= k {
                    return None;
                }
                let cell = image::cell_at(image, k);
                let n = cell.number as usize;
                if n < least {
                    return None;
                }
                stack[top] = k as u8;
                top += 1;
                entered += 1;
                place = cell.left;
            }
        }
    }
}

// The place of each cell's string among the strings, or nothing where the trie does not agree with the file that has these strings.
// No strings are given where the file has more than 256, and with it no trie agrees.
pub fn agreement_of(image: &Image, strings: Option<&Strings>) -> Option<[u16; 256]>
    ensures { Decides (trie_from image.now) (option_copied strings.entry) result }
{
    let strings = strings?;
    let count = strings.count;
    if image::count_of(image) != count {
        return None;
    }
    if !image::is_clear_past(image, count) {
        return None;
    }
    let first = image::first_of(image);
    if count == 0 {
        return (first == strings.slots[0] as usize).then_some([NOWHERE; 256]);
    }
    if first != 0 {
        return None;
    }
    pass(image, strings)
}
