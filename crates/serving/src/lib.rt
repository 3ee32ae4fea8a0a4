// The look at one bucket that look up begins with: whether it is seen to be well formed, with a name in its range. Of a no nothing is
// promised.
#![tactic(auto)]

ghost use Rattle.std.specs.Prelude.{true, ◌≡◌, ◌+◌, ◌≤◌, length};
ghost use Rattle.digits.specs.Keys.{key_value};
ghost use Rattle.serving.specs.Serving.{HighSeen, LowSeen, Serves};

use bucket::Slot;
use digits::Key;

// Whether the lower end of the range is below the name and below the first entry's name.
fn is_over(slot: &Slot, low: Key, name: Key) -> bool
    requires { 88 ≤ length slot.now.bytes.now }
    ensures { result ≡ true → LowSeen slot.now.bytes.now (key_value low) (key_value name) }
{
    if !gathering::is_plain(&slot.bytes[8..32], slot.bytes[2] as usize) {
        return false;
    }
    if !low.is_below(name) {
        return false;
    }
    low.is_below(Key::at(slot.bytes, 64))
}

// Whether the upper end of the range is below neither the name nor that of the last entry, which is at `last`.
fn is_under(slot: &Slot, high: Key, name: Key, last: usize) -> bool
    requires { last + 24 ≤ length slot.now.bytes.now }
    ensures { result ≡ true → HighSeen slot.now.bytes.now (key_value high) (key_value name) last }
{
    if !gathering::is_plain(&slot.bytes[32..56], slot.bytes[3] as usize) {
        return false;
    }
    if high.is_below(name) {
        return false;
    }
    !high.is_below(Key::at(slot.bytes, last))
}

// A bucket without entries is left to the exact look.
pub fn serves(slot: &Slot, name: Key) -> bool
    ensures { result ≡ true → Serves slot.now.layout slot.now.bytes.now (key_value name) }
{
    if slot.bytes[1] == 0 {
        return false;
    }
    let Some(row) = slot.whole_row() else {
        return false;
    };
    if !gathering::are_names(row.bytes, row.e, row.count) {
        return false;
    }
    let last = 64 + entries::entry_at(row.e, row.count - 1, row.count);
    let low = slot.low();
    if !is_over(slot, low, name) {
        return false;
    }
    let high = slot.high();
    if !is_under(slot, high, name, last) {
        return false;
    }
    slot.is_used()
}
