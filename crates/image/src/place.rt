// The place at which the walk of a name over an image ends. No path is kept: it is enough to know how long it is, and how many of its
// digits the name shares.
ghost use Rattle.std.specs.Prelude.{◌≡◌, ◌<◌};
ghost use Rattle.model.specs.Tries.{at_cell, walk_of};
ghost use Rattle.trie.specs.Walks.{place_reached, side_on};
ghost use Rattle.image.specs.Images.{side_from, trie_from};
ghost use Rattle.image.specs.Courses.{Steps};

use crate::{Image, count_of, digit_at, number_at, pair_at, side_at};
use trie::{Hand, Place};

// How a walk leaves a cell: the length of the path, how many digits the name shares with it, and the side that the walk takes, as the
// number that is written and no Side: look up compares and negates it, and an enum would be made and taken apart at each cell (no plainer).
#[derive(Clone, Copy)]
pub struct Turn {
    pub len: usize,
    pub same: usize,
    pub side: u16,
}

// The walk leaves cell i on this hand.
fn turned(image: &Image, i: usize, hand: Hand, len: usize, same: usize) -> Turn
    requires { i < 256 }
    ensures { (result.len ≡ len) × (result.same ≡ same) × (side_from result.side ≡ side_on hand (at_cell (trie_from image.now).cells i)) }
{
    Turn {
        len,
        same,
        side: side_at(image, i, hand),
    }
}

// R5.4 and R5.5: one step over cell i, or nothing where no agreeing trie has that cell. The name is not above the path. So where the
// two differ before the cell's digit, it goes left; else the name's own digit there and the cell's decide.
fn stepped(image: &Image, i: usize, name: &[u8; 24], len: usize, same: usize) -> Option<Turn>
    requires { i < 256 }
    ensures { Steps result name.now (at_cell (trie_from image.now).cells i) len same }
{
    let number = number_at(image, i);
    if 23 < number {
        return None;
    }
    if same < number {
        if len < number {
            return None;
        }
        return Some(turned(image, i, Hand::Left, number + 1, same));
    }
    let digit = digit_at(image, i);
    let own = name[number];
    if digit < own {
        return Some(turned(image, i, Hand::Right, len, same));
    }
    if own < digit {
        return Some(turned(image, i, Hand::Left, number + 1, number));
    }
    Some(turned(image, i, Hand::Left, number + 1, number + 1))
}

// Where the walk of a filled name over the trie of an image ends. It reads the cells that it meets, and no others.
pub fn place_in(image: &Image, name: &[u8; 24]) -> Place
    ensures { result ≡ place_reached (walk_of (trie_from image.now) name.now) }
{
    let count = count_of(image);
    if 256 < count {
        return Place::Stale;
    }
    if count == 0 {
        return Place::Slot(pair_at(image, 2));
    }
    let mut len = 0usize;
    let mut same = 0usize;
    let mut i = 0usize;
    // Of the cells no more are met than the count.
    for _ in 0..count {
        if count <= i {
            return Place::Stale;
        }
        let Some(turn) = stepped(image, i, name, len, same) else {
            return Place::Stale;
        };
        if turn.side < 32768 {
            return Place::Slot(turn.side);
        }
        len = turn.len;
        same = turn.same;
        i = turn.side.wrapping_neg() as usize;
    }
    Place::Stale
}
