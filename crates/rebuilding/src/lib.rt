// Rebuilding: the trie of a file's strings, its cells numbered root, left part, right part.
//
// A run of strings makes as many cells as it has strings, so each cell's number and its sides' are known when it is
// written, and no cell is written twice.
#![tactic(auto)]

ghost use Rattle.std.specs.Prelude.{◌≡◌, ◌≤◌, ◌<◌, ◌+◌, ◌-◌};
ghost use Rattle.image.specs.Clearing.{cleared};
ghost use Rattle.image.specs.Images.{image_of};
ghost use Rattle.rebuilding.specs.Roots.{run, middle};
ghost use Rattle.rebuilding.specs.Runs.{cell_at, rebuilt_of, side_at};
ghost use Rattle.rebuilding.specs.Starts.{Found, Start, Starts};

use image::Image;
use model::{Cell, Side};
use trie::Strings;

// The strings from the first place on and below the second.
#[derive(Clone, Copy)]
pub struct Run {
    pub from: u16,
    pub to: u16,
}

// The start of a string: the place from which on all strings before it are longer than it is. The search goes back from
// start to start, so all starts together take about as many steps as there are strings.
fn start_of(lens: &[u8; 256], starts: &[u8; 256], i: usize) -> usize
    requires { (i < 256) × Starts lens.now starts.now i }
    ensures { Start lens.now i result }
{
    let len = lens[i];
    let mut start = i;
    // From start to start, and no index is counted: so it stays a loop.
    while 0 < start {
        let before = start - 1;
        if lens[before] <= len {
            return start;
        }
        start = starts[before] as usize;
    }
    start
}

fn starts_of(lens: &[u8; 256], count: usize) -> [u8; 256]
    requires { count ≤ 256 }
    ensures { Starts lens.now result count }
{
    let mut starts = [0u8; 256];
    for i in 0..count {
        starts[i] = start_of(lens, &starts, i) as u8;
    }
    starts
}

// The strings of a run with the fewest digits: the place of the last one, and their number.
#[derive(Clone, Copy)]
pub struct Shortest {
    pub last: usize,
    pub count: usize,
}

// It begins with the run's last string and goes back, over longer ones, to the nearest that is not longer, and so on.
fn shortest_of(lens: &[u8; 256], starts: &[u8; 256], from: usize, to: usize) -> Shortest
    requires { (from < to) × (to ≤ 256) × Starts lens.now starts.now to }
    ensures { Found lens.now from to result.last result.count }
{
    let mut first = to - 1;
    let mut len = lens[first] as usize;
    let mut last = first;
    let mut count = 1usize;
    // From start to start, too.
    loop {
        let start = starts[first] as usize;
        if start <= from {
            return Shortest { last, count };
        }
        first = start - 1;
        let next = lens[first] as usize;
        if next < len {
            last = first;
            count = 1;
        } else {
            count += 1;
        }
        len = next;
    }
}

// R6.2: the root of a run, which is the middle one of its shortest strings or the lower of two middle ones.
fn root_of(lens: &[u8; 256], starts: &[u8; 256], from: usize, to: usize) -> usize
    requires { (from < to) × (to ≤ 256) × Starts lens.now starts.now to }
    ensures { (from ≤ result) × (result < to) × (result ≡ middle from (run from to lens.now)) }
{
    let shortest = shortest_of(lens, starts, from, to);
    let mut root = shortest.last;
    let steps = shortest.count / 2;
    for _ in 0..steps {
        root = starts[root] as usize - 1;
    }
    root
}

// The side that leads to a run: its first cell, or, where it is empty, the slot of the leaf that stands there.
fn side_of(slots: &[u8; 257], from: usize, to: usize, cell: usize) -> Side
    requires { (from ≤ 256) × (cell ≤ 256) }
    ensures { result ≡ side_at slots.now from to cell }
{
    if from < to {
        return Side::Cell(cell as u16);
    }
    Side::Slot(slots[from] as u16)
}

// The cell, at number i, of a run with its root.
fn cell_of(
    len: u8,
    digit: u8,
    slots: &[u8; 257],
    from: usize,
    root: usize,
    to: usize,
    i: usize,
) -> Cell
    requires { (from ≤ root) × (root < to) × (to ≤ 256) × (i + to ≤ 256 + from) }
    ensures { result ≡ cell_at len digit slots.now from root to i }
{
    Cell {
        digit,
        number: len.saturating_sub(1),
        left: side_of(slots, from, root, i + 1),
        right: side_of(slots, root + 1, to, i + 1 + (root - from)),
    }
}

// Writes the cells of the strings over an image whose cells are all zero.
fn write_cells(image: &mut Image, strings: &Strings)
    requires { (0 < strings.now.count) × (image.old ≡ image_of (cleared strings.now.count 0)) }
    ensures { image.new ≡ image_of (rebuilt_of strings.now.lens strings.now.digits strings.now.slots strings.now.count) }
{
    let starts = starts_of(&strings.lens, strings.count);
    let mut runs = [Run { from: 0, to: 0 }; 512];
    runs[0] = Run {
        from: 0,
        to: strings.count as u16,
    };
    // The runs that are still to be written lie on a stack. An empty run is written to it too, and not kept.
    // An array and a top, no ArrayVec: the stack of one loop, whose depth the invariant speaks of (no plainer).
    let mut top = 1usize;
    for i in 0..strings.count {
        top -= 1;
        let run = runs[top];
        let from = run.from as usize;
        let to = run.to as usize;
        let root = root_of(&strings.lens, &starts, from, to);
        let cell = cell_of(
            strings.lens[root],
            strings.digits[root],
            &strings.slots,
            from,
            root,
            to,
            i,
        );
        image::write_cell(image, i, cell);
        let after = root + 1;
        runs[top] = Run {
            from: after as u16,
            to: run.to,
        };
        if after < to {
            top += 1;
        }
        runs[top] = Run {
            from: run.from,
            to: root as u16,
        };
        if from < root {
            top += 1;
        }
    }
}

// Writes the image of the trie of the strings.
pub fn rebuild(image: &mut Image, strings: &Strings)
    ensures { image.new ≡ image_of (rebuilt_of strings.now.lens strings.now.digits strings.now.slots strings.now.count) }
{
    if strings.count == 0 {
        image::write_cleared(image, 0, strings.slots[0] as u16);
        return;
    }
    image::write_cleared(image, strings.count as u16, 0);
    write_cells(image, strings);
}
