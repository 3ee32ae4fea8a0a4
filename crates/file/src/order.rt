// The used slots in range order: by upper bound, and where two are equal by lower bound.
ghost use Rattle.std.specs.Prelude.{◌≡◌, ℕ, suc, ◌+◌, ◌-◌, ◌<◌, ◌≤◌, List, ◌∷◌, ◌++◌, length, take, drop};
ghost use Rattle.std.proofs.Math.Option.{some};
ghost use Rattle.model.specs.Files.{IsUsed, Slot, Well, head};
ghost use Rattle.model.specs.Format.{read_slot};
ghost use Rattle.model.specs.declared.Layout.{Layout};
ghost use Rattle.digits.specs.Keys.{key_value};
ghost use Rattle.file.specs.Sizes.{Sized, Below};
ghost use Rattle.file.specs.Orders.{Known, Listed, Placed, stands};
ghost use Rattle.file.specs.Holders.{HolderTold};

use crate::{Size, slot_at};
use digits::Key;

// Whether the range (low, high] stands before that of a slot. The low ends matter only where the high ends are equal. By hand,
// since keys have no derived order (it lists slower; `Key::is_below`).
fn is_before(high: Key, low: Key, slot: &bucket::Slot) -> bool
    ensures { (y : Layout) (s : Slot) → IsUsed (head s) → read_slot y slot.now.bytes.now ≡ some s → Well y.b s → result ≡ stands (key_value high) (key_value low) s }
{
    let other = slot.high();
    if high.is_below(other) {
        return true;
    }
    if high != other {
        return false;
    }
    low.is_below(slot.low())
}

// How many of the slots in order stand before the range (low, high] or are equal to it. By halves and by hand: `partition_point`
// asks that the order is known to be partitioned, which holds of sound files only.
pub fn place_of(
    file: &[u8],
    size: Size,
    order: &[u8; 64],
    count: usize,
    low: Key,
    high: Key,
) -> usize
    requires { (Sized (length file.now) size) × (Below order.now size.slots) × (count ≤ 64) }
    ensures { (result ≤ count)
        × ((fs : List Slot) → Known size.layout file.now fs → Listed fs order.now count
        → Placed fs order.now count (key_value high) (key_value low) result) }
{
    let mut least = 0;
    let mut most = count;
    while least < most {
        let middle = least + (most - least) / 2;
        let slot = slot_at(file, size, order[middle] as usize);
        if is_before(high, low, &slot) {
            most = middle;
        } else {
            least = middle + 1;
        }
    }
    least
}

// Puts slot k at its place among the slots in order.
pub fn insert(order: &mut [u8; 64], count: usize, place: usize, k: u8)
    requires { (count < 64) × (place ≤ count) × (length order.old ≡ 64) }
    ensures { ((n : ℕ) → Below order.old n → k < n → Below order.new n)
        × (length order.new ≡ 64)
        × (take (count + 1) order.new ≡ take place order.old ++ (k ∷ drop place (take count order.old))) }
{
    order.copy_within(place..count, place + 1);
    order[place] = k;
}

// Takes what stands at the place out of the slots in order.
pub fn leave_out(order: &mut [u8; 64], count: usize, place: usize)
    requires { (count ≤ 64) × (place < count) × (length order.old ≡ 64) }
    ensures { ((n : ℕ) → Below order.old n → Below order.new n)
        × (length order.new ≡ 64)
        × (take (count - 1) order.new ≡ take place order.old ++ drop (suc place) (take count order.old)) }
{
    order.copy_within(place + 1..count, place);
}

// The place of the bucket whose range holds the name, in a sound file: the first whose upper bound is not below it.
// By halves and by hand, as `place_of`.
pub fn holder(file: &[u8], size: Size, order: &[u8; 64], count: usize, name: &[u8; 24]) -> usize
    requires { (Sized (length file.now) size) × (Below order.now size.slots) × (count ≤ 64) }
    ensures { HolderTold file.now size order.now count name.now result }
{
    if count == 0 {
        return 0;
    }
    let mut least = 0;
    let mut most = count - 1;
    while least < most {
        let middle = least + (most - least) / 2;
        let slot = slot_at(file, size, order[middle] as usize);
        let compared = digits::compared(name, slot.upper());
        if compared.within {
            most = middle;
        } else {
            least = middle + 1;
        }
    }
    least
}
