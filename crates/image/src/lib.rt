// The trie image: 1,540 bytes that are some trie, whatever they hold.
//
// The count and the first leaf, two bytes each, then 256 cells of six bytes: digit, digit number, left side, right
// side. Numbers are little-endian. A side is signed: from 0 on it is that slot, below 0 the cell with that number's
// negative.
#![tactic(auto)]

ghost use Rattle.std.specs.Prelude.{◌≡◌, ◌≤◌, ◌<◌, ◌+◌, ◌*◌, drop, get_or, set};
ghost use Rattle.std.proofs.lemmas.List.Edits.{sets};
ghost use Rattle.model.specs.Agreeing.{are_zero_cells};
ghost use Rattle.model.specs.Tries.{at_cell, walk_of};
ghost use Rattle.trie.specs.Walks.{Walks, side_on};
ghost use Rattle.image.specs.Clearing.{cleared};
ghost use Rattle.image.specs.Images.{Held, cell_bytes, cell_from, image_of, number_of_side, pair_bytes, pair_of, side_from, trie_from};

use model::{Cell, Side};
use trie::{Hand, Place, Walk};

mod place;

pub use place::place_in;

pub const BYTES: usize = 1540;

pub type Image = [u8; BYTES];

// The two bytes from a place on as a number.
fn pair_at(image: &Image, at: usize) -> u16
    requires { at + 2 ≤ 1540 }
    ensures { result ≡ pair_of (get_or image.now at 0) (get_or image.now (at + 1) 0) }
{
    u16::from_le_bytes([image[at], image[at + 1]])
}

fn side_of(x: u16) -> Side
    ensures { result ≡ side_from x }
{
    if x < 32768 {
        return Side::Slot(x);
    }
    Side::Cell(x.wrapping_neg())
}

// Where a cell begins; past the last one the image ends.
fn cell_begins(i: usize) -> usize
    requires { i ≤ 256 }
    ensures { result ≡ 4 + 6 * i }
{
    4 + 6 * i
}

pub fn cell_at(image: &Image, i: usize) -> Cell
    requires { i < 256 }
    ensures value { result ≡ cell_from image.now (4 + 6 * i) }
    ensures held { Held result.left × Held result.right }
{
    let at = cell_begins(i);
    Cell {
        digit: image[at],
        number: image[at + 1],
        left: side_of(pair_at(image, at + 2)),
        right: side_of(pair_at(image, at + 4)),
    }
}

// The walk of a filled name over the trie of an image, damaged ones too. It reads the cells that it meets, and no others.
pub fn walk_of(image: &Image, name: &[u8; 24]) -> Walk
    ensures { (result.len ≤ 24) × Walks result (walk_of (trie_from image.now) name.now) }
{
    let mut walk = Walk::begin(pair_at(image, 0), pair_at(image, 2));
    // Cells lead on to cells, and no index is counted: so it stays a loop.
    while let Place::Cell(i) = walk.place {
        walk = walk.step(name, i, cell_at(image, i as usize));
    }
    walk
}

// The parts of an image, each read by itself.
pub fn count_of(image: &Image) -> usize
    ensures { result ≡ (trie_from image.now).count }
{
    pair_at(image, 0) as usize
}

pub fn first_of(image: &Image) -> usize
    ensures { (result ≡ (trie_from image.now).first) × (result < 65536) }
{
    pair_at(image, 2) as usize
}

pub fn digit_at(image: &Image, i: usize) -> u8
    requires { i < 256 }
    ensures { result ≡ (at_cell (trie_from image.now).cells i).digit }
{
    image[cell_begins(i)]
}

pub fn number_at(image: &Image, i: usize) -> usize
    requires { i < 256 }
    ensures { (result ≡ (at_cell (trie_from image.now).cells i).number) × (result < 256) }
{
    image[cell_begins(i) + 1] as usize
}

// A side as the number that it is written as.
pub fn side_at(image: &Image, i: usize, hand: Hand) -> u16
    requires { i < 256 }
    ensures { side_from result ≡ side_on hand (at_cell (trie_from image.now).cells i) }
{
    let at = cell_begins(i);
    match hand {
        Hand::Left => pair_at(image, at + 2),
        Hand::Right => pair_at(image, at + 4),
    }
}

// R5.3, by words: whether all cells from one on are zero.
pub fn is_clear_past(image: &Image, count: usize) -> bool
    requires { count ≤ 256 }
    ensures { result ≡ are_zero_cells (drop count (trie_from image.now).cells) }
{
    let from = cell_begins(count);
    digits::is_zero(&image[from..])
}

fn number_of(side: Side) -> u16
    ensures { result ≡ number_of_side side }
{
    match side {
        Side::Slot(s) => s,
        Side::Cell(i) => i.wrapping_neg(),
    }
}

// Writes a number over the two bytes from a place on.
fn write_pair(image: &mut Image, at: usize, x: u16)
    requires { at + 2 ≤ 1540 }
    ensures { image.new ≡ sets image.old at (pair_bytes x) }
{
    image[at..at + 2].copy_from_slice(&x.to_le_bytes());
}

// Writes another count and first leaf over an image.
pub fn write_head(image: &mut Image, count: u16, first: u16)
    ensures { trie_from image.new ≡ record { cells = (trie_from image.old).cells; count = count; first = first } }
{
    write_pair(image, 0, count);
    write_pair(image, 2, first);
}

// Writes one cell over an image.
pub fn write_cell(image: &mut Image, i: usize, cell: Cell)
    requires { i < 256 }
    ensures bytes { image.new ≡ sets image.old (4 + 6 * i) (cell_bytes cell) }
    ensures cells { Held cell.left → Held cell.right → trie_from image.new
        ≡ record { cells = set (trie_from image.old).cells i cell; count = (trie_from image.old).count; first = (trie_from image.old).first } }
{
    let at = cell_begins(i);
    image[at] = cell.digit;
    image[at + 1] = cell.number;
    write_pair(image, at + 2, number_of(cell.left));
    write_pair(image, at + 4, number_of(cell.right));
}

// Writes the image of a trie whose cells are all zero, whatever its count.
pub fn write_cleared(image: &mut Image, count: u16, first: u16)
    ensures { image.new ≡ image_of (cleared count first) }
{
    write_pair(image, 0, count);
    write_pair(image, 2, first);
    image[4..].fill(0);
}
