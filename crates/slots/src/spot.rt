// Where in a slot a name is or would be. Its methods stand in lib.rt, since their contracts use specs that speak of a Spot themselves.
ghost use Rattle.std.specs.Prelude.{true, ◌≡◌, ◌<◌, ◌≤◌};

use bucket::Slot;

// How many entries the slot has, how many of them are below the name, and whether the next is the name's own.
#[derive(Clone, Copy)]
pub struct Spot<'a> {
    pub slot: Slot<'a>,
    pub count: usize,
    pub place: usize,
    pub held: bool,
    ghost count_most: { count ≤ slot.layout.b },
    ghost place_most: { place ≤ count },
    ghost held_there: { held ≡ true → place < count },
}
