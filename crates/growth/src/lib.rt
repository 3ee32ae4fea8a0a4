// Growth: the trie of a file one of whose buckets was split at a string s.
//
// The place of a cell's string among the strings is known from the agreement. The leaf on a cell's left stands just left
// of that string and has it as its path; the leaf on its right stands one further. So a leaf's path is above s where the
// leaf stands past s, and no path is compared.
#![tactic(auto)]

ghost use Rattle.std.specs.Prelude.{◌≡◌, ◌≤◌, ◌<◌, ◌+◌, length, take};
ghost use Rattle.model.specs.Order.{diff};
ghost use Rattle.growth.specs.Grows.{Grows};
ghost use Rattle.growth.specs.Parts.{Appended, FirstPlace, Redirected, cell_turned, leaf_place, next_side, side_joined, side_turned, walk_joined};
ghost use Rattle.image.specs.Images.{trie_from};

use image::Image;
use model::{Cell, Side};
use trie::{Hand, Walk};

// How many digits s shares with the path of the leaf at which the split key's walk ended: as many beginnings of s are
// strings already, and all of them where s is a cell's string.
pub fn shared_with(walk: Walk, s: &[u8]) -> usize
    requires { walk.len ≤ 24 }
    ensures { (result ≤ length s.now) × (result ≡ diff s.now (take walk.len walk.path)) }
{
    digits::shared(s, &walk.path[..walk.len])
}

// Where the leaf stands at which the walk ended: just left of the string with this place.
fn leaf_place(walk: Walk, places: &[u16; 256]) -> usize
    ensures { result ≡ leaf_place walk places.now }
{
    let cell = walk.cell as usize;
    if 256 <= cell {
        return 0;
    }
    let place = places[cell] as usize;
    match walk.hand {
        Hand::Left => place,
        Hand::Right => place + 1,
    }
}

// The first place, from `from` on, of a string with so many digits.
fn place_of(lens: &[u8; 256], from: usize, digits: usize) -> usize
    ensures { FirstPlace lens.now from digits result }
{
    for i in from..256 {
        if lens[i] as usize == digits {
            return i;
        }
    }
    from.max(256)
}

// A side that leads to A leads to N instead where its leaf stands past s.
fn turned_side(side: Side, place: usize, last: usize, a: u16, n: u16) -> Side
    ensures { result ≡ side_turned side place last a n }
{
    match side {
        Side::Slot(s) => {
            if s != a {
                return Side::Slot(s);
            }
            if place <= last {
                return Side::Slot(s);
            }
            Side::Slot(n)
        }
        Side::Cell(i) => Side::Cell(i),
    }
}

fn turned_cell(cell: Cell, place: usize, last: usize, a: u16, n: u16) -> Cell
    requires { place < 65536 }
    ensures { result ≡ cell_turned cell place last a n }
{
    Cell {
        left: turned_side(cell.left, place, last, a, n),
        right: turned_side(cell.right, place + 1, last, a, n),
        ..cell
    }
}

// R8.5: A's leaves with a path above s, which are those past the place `last`, lead to N.
fn redirect(image: &mut Image, places: &[u16; 256], count: usize, last: usize, a: u16, n: u16)
    requires { (count ≤ 256) × (n < 32768) }
    ensures { Redirected (trie_from image.old) places.now count last a n (trie_from image.new) }
{
    for i in 0..count {
        let cell = image::cell_at(image, i);
        image::write_cell(image, i, turned_cell(cell, places[i] as usize, last, a, n));
    }
}

// The cell with one side leading to a further cell.
fn joined(cell: Cell, hand: Hand, to: u16) -> Cell
    ensures { result ≡ side_joined cell hand to }
{
    match hand {
        Hand::Left => Cell {
            left: Side::Cell(to),
            ..cell
        },
        Hand::Right => Cell {
            right: Side::Cell(to),
            ..cell
        },
    }
}

// The left side of a new cell: the next one, or A where there is none.
fn next_of(i: usize, end: usize, a: u16) -> Side
    requires { (i < end) × (end ≤ 256) }
    ensures { result ≡ next_side i end a }
{
    if i + 1 < end {
        return Side::Cell((i + 1) as u16);
    }
    Side::Slot(a)
}

// R8.4: one cell for each digit of s past the shared ones, each left of the one before; the last one's left side leads
// to A, and all right sides to N.
fn append(image: &mut Image, count: usize, s: &[u8], shared: usize, a: u16, n: u16)
    requires { (count + length s.now ≤ 256 + shared) × (shared ≤ length s.now) × (length s.now ≤ 24)
        × (a < 32768) × (n < 32768) }
    ensures { Appended (trie_from image.old) count s.now shared a n (trie_from image.new) }
{
    let end = count + (s.len() - shared);
    image::write_head(image, end as u16, 0);
    for at in shared..s.len() {
        let i = count + (at - shared);
        let cell = Cell {
            digit: s[at],
            number: at as u8,
            left: next_of(i, end, a),
            right: Side::Slot(n),
        };
        image::write_cell(image, i, cell);
    }
}

// The side by which the walk reached its leaf leads to the first new cell.
fn graft(image: &mut Image, count: usize, walk: Walk)
    requires { count ≤ 256 }
    ensures { trie_from image.new ≡ walk_joined (trie_from image.old) count walk }
{
    let k = walk.cell as usize;
    if count <= k {
        return;
    }
    let cell = image::cell_at(image, k);
    image::write_cell(image, k, joined(cell, walk.hand, count as u16));
}

// Writes the trie after A was split at s and N took the names above s over the one before. The walk is that of the split key, and
// `shared` is how many digits s shares with its path.
pub fn grow(
    image: &mut Image,
    places: &[u16; 256],
    lens: &[u8; 256],
    walk: Walk,
    s: &[u8],
    shared: usize,
    a: u16,
    n: u16,
)
    requires { ((trie_from image.old).count + length s.now ≤ 256 + shared) × (shared ≤ length s.now) × (length s.now ≤ 24)
        × (a < 32768) × (n < 32768) }
    ensures { Grows (trie_from image.old) places.now lens.now walk s.now shared a n (trie_from image.new) }
{
    let count = image::count_of(image);
    let place = leaf_place(walk, places);
    if shared == s.len() {
        let last = place_of(lens, place, shared);
        redirect(image, places, count, last, a, n);
        return;
    }
    redirect(image, places, count, place, a, n);
    graft(image, count, walk);
    append(image, count, s, shared, a, n);
}
