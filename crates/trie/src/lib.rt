// The trie: its cells held together with their count and a first leaf, and the walk (docs/RULES.md, R5.4 to R5.6).
#![tactic(auto)]

ghost use Rattle.std.specs.Prelude.{cond, ◌≡◌, ◌≤◌, ◌<◌, ◌+◌, leb, take};
ghost use Rattle.model.specs.Tests as tests;
ghost use Rattle.model.specs.Order.{Str};
ghost use Rattle.model.specs.Tries.{root_side, walk_of};
ghost use Rattle.trie.specs.Walks.{Steps, Strayed, Underway, place_ahead};

use model::{Cell, Side, Trie};

// The strings of a file in ascending order, each as its length and its last digit, which is what a cell holds of it; and
// the slots of the leaves between them, one more than strings.
// Arrays side by side and no array of structs: rebuilding and growth take the lengths alone, and of slots there is one more.
#[derive(Clone, Copy)]
pub struct Strings {
    pub count: usize,
    pub lens: [u8; 256],
    pub digits: [u8; 256],
    pub slots: [u8; 257],
    pub ghost few: { count ≤ 256 },
}

// The two sides of a cell.
#[derive(Clone, Copy, PartialEq, Eq)]
pub enum Hand {
    Left,
    Right,
}

// Where a walk stands: at a cell that it has yet to meet, at a slot, where it ends, or at what no agreeing trie has.
#[derive(Clone, Copy, PartialEq, Eq)]
pub enum Place {
    Cell(u16),
    Slot(u16),
    Stale,
}

// A walk under way: the path, the place reached, the side by which it was reached, the trie's count, and how many cells
// may still be met.
#[derive(Clone, Copy)]
pub struct Walk {
    pub path: [u8; 24],
    pub len: usize,
    pub place: Place,
    pub cell: u16,
    pub hand: Hand,
    pub count: u16,
    pub more: u16,
}

// Whether the name is within the string of the first digits, so not above it.
fn goes_left(name: &[u8; 24], string: &[u8; 24], len: usize) -> bool
    requires { len ≤ 24 }
    ensures { result ≡ tests.is_at_most name.now (take len string.now) }
{
    digits::compared(name, &string[0..len]).within
}

// A side leads on to a cell below the count while cells may be met.
fn place_of(side: Side, count: u16, more: u16) -> Place
    ensures { result ≡ place_ahead side count more }
{
    match side {
        Side::Slot(s) => Place::Slot(s),
        Side::Cell(i) => {
            if more == 0 {
                return Place::Stale;
            }
            if count <= i {
                return Place::Stale;
            }
            Place::Cell(i)
        }
    }
}

// R5.1: cell 0 is the root; R5.6: with count 0 the walk ends at the first leaf.
fn root(count: u16, first: u16) -> Place
    ensures { result ≡ cond (leb count 256) (place_ahead (root_side count first) count count) Place.Stale }
{
    if 256 < count {
        return Place::Stale;
    }
    if count == 0 {
        return Place::Slot(first);
    }
    Place::Cell(0)
}

// A walk that met a cell which no agreeing trie has.
fn strayed() -> Walk
    ensures { Strayed result }
{
    Walk {
        path: [0u8; 24],
        len: 0,
        place: Place::Stale,
        cell: 0,
        hand: Hand::Right,
        count: 0,
        more: 0,
    }
}

impl Walk {
    // The path begins empty. No more cells may be met than the count.
    pub fn begin(count: u16, first: u16) -> Walk
        ensures { (t : Trie) → t.count ≡ count → t.first ≡ first → (n : Str) → Underway (walk_of t n) t.cells n result }
    {
        Walk {
            path: [0u8; 24],
            len: 0,
            place: root(count, first),
            cell: 0,
            hand: Hand::Right,
            count,
            more: count,
        }
    }

    // R5.4 and R5.5: the cell's string, and whether the name goes left or right.
    pub fn step(mut self, name: &[u8; 24], i: u16, cell: Cell) -> Walk
        requires { (self.len ≤ 24) × (0 < self.more) }
        ensures { (result.more < self.more) × Steps name.now self i cell result }
    {
        let at = cell.number as usize;
        if self.len < at {
            return strayed();
        }
        if 23 < at {
            return strayed();
        }
        let end = at + 1;
        let mut string = self.path;
        string[at] = cell.digit;
        self.more -= 1;
        if goes_left(name, &string, end) {
            return Walk {
                path: string,
                len: end,
                place: place_of(cell.left, self.count, self.more),
                cell: i,
                hand: Hand::Left,
                ..self
            };
        }
        Walk {
            place: place_of(cell.right, self.count, self.more),
            cell: i,
            hand: Hand::Right,
            ..self
        }
    }
}
