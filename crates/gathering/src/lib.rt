// The names of rows of entries, tested together: the largest and the smallest byte at each place are gathered, and in one bit
// whether the names of each row ascend. The test of what was gathered is exact, and costs the same for one name and for a thousand.
#![tactic(auto)]

ghost use Rattle.std.specs.Prelude.{◌≡◌, ℕ, ◌+◌, ◌-◌, ◌*◌, ◌^◌, ◌<◌, ◌≤◌, true, ◌&&◌, length, take, drop, nat_le, slice_index};
ghost use Rattle.model.specs.Names.{Digits};
ghost use Rattle.model.specs.Format.{value_of};
ghost use Rattle.model.specs.Order.{Str};
ghost use Rattle.model.specs.Tests.{is_legal_bound};
ghost use Rattle.digits.specs.Keys.{is_all_zero, key_value};
ghost use Rattle.gathering.specs.Names.{AreLow, BoundIn, Clean, Fine, Lowest, Rising, Small, names};

use digits::Key;

mod single;

pub use single::{are_names, naming_of};

const BLANKS: u64 = 0x2020_2020_2020_2020;

const HIGH: u64 = 0x8080_8080_8080_8080;

// What is gathered: the largest and the smallest byte at each place, and whether all names ascend, in the highest bit.
#[derive(Clone, Copy)]
pub struct Seen {
    pub most: [u8; 32],
    pub least: [u8; 32],
    pub ascents: u64,
}

// The borrow of x - y - t.
fn borrow(x: u64, y: u64, t: u64) -> u64
    requires { t ≤ 1 }
    ensures { (result ≤ 1) × (x < 2 ^ 63 → y < 2 ^ 63 → (y + t ≤ x + result * 2 ^ 64) × (x + result * 2 ^ 64 < y + t + 2 ^ 64)) }
{
    x.wrapping_sub(y).wrapping_sub(t) >> 63
}

// The highest bit says whether x is below y, where all words are below 2^63: by hand, since `Key::is_below` has branches, and a
// check compares each name with the one before.
fn ascent(x: Key, y: Key) -> u64
    ensures { Small x → Small y → (2 ^ 63 ≤ result → key_value x < key_value y) × (key_value x < key_value y → 2 ^ 63 ≤ result) }
{
    let t = borrow(x.c, y.c, 0);
    let u = borrow(x.b, y.b, t);
    x.a.wrapping_sub(y.a).wrapping_sub(u)
}

// Nothing is gathered yet.
pub fn nothing_seen() -> Seen
    ensures { Fine result × Lowest result }
{
    Seen {
        most: [0u8; 32],
        least: [0x7Du8; 32],
        ascents: 0xFFFF_FFFF_FFFF_FFFFu64,
    }
}

// Gathers the names of a row: `count` entries of e bytes each. The compiler keeps the two arrays in four registers, since they
// have 32 bytes, eight of them behind the name, and since both loops are in one function.
pub fn with_names(seen: Seen, s: &[u8], e: usize, count: usize) -> Seen
    requires { (32 ≤ e) × (e * count ≤ length s.now) }
    ensures { (Fine result → Fine seen × Rising 0 (names e count s.now)) × (Fine seen → Rising 0 (names e count s.now) → Fine result)
        × (Lowest seen → Lowest result) }
{
    let mut most = seen.most;
    let mut least = seen.least;
    let mut ascents = seen.ascents;
    let mut last = Key::lowest();
    let mut at = 0;
    for k in 0..count {
        for i in 0..32 {
            most[i] = most[i].max(s[at + i]);
            least[i] = least[i].min(s[at + i]);
        }
        let name = Key::at(s, at);
        ascents &= ascent(last, name);
        last = name;
        at += e;
    }
    Seen {
        most,
        least,
        ascents,
    }
}

// High bits where one of the eight bytes from `at` on is above 0x7D, else 0.
fn above_faults(s: &[u8], at: usize) -> u64
    requires { at + 8 ≤ length s.now }
    ensures { (result ≡ 0 → (j : ℕ) → j < 8 → slice_index s.now (at + j) ≤ 0x7D)
        × (((j : ℕ) → j < 8 → slice_index s.now (at + j) ≤ 0x7D) → result ≡ 0) }
{
    let w = digits::little_endian(s, at);
    (w & HIGH) | (w.wrapping_add(0x0202_0202_0202_0202) & HIGH)
}

// High bits where one of them is below that of the word `from`, else 0; of bytes below 0x80.
fn under_faults(s: &[u8], at: usize, from: u64) -> u64
    requires { at + 8 ≤ length s.now }
    ensures { (y : Str) → AreLow y → length y ≡ 8 → from ≡ value_of y
        → (result ≡ 0 → (j : ℕ) → j < 8 → slice_index y j ≤ slice_index s.now (at + j))
        × (((j : ℕ) → j < 8 → (slice_index y j ≤ slice_index s.now (at + j)) × (slice_index s.now (at + j) < 0x80)) → result ≡ 0) }
{
    digits::little_endian(s, at).wrapping_sub(from) & HIGH
}

// 0 where no byte of the first 24 is above 0x7D in the one, and none is below 0x20 and the first not below 0x21 in the other.
fn byte_faults(most: &[u8], least: &[u8]) -> u64
    requires { (24 ≤ length most.now) × (24 ≤ length least.now) }
    ensures { (result ≡ 0 → (m : ℕ) → 2 ^ 63 ≤ m → Clean most.now least.now m)
        × ((m : ℕ) → Clean most.now least.now m → ((j : ℕ) → slice_index least.now j ≤ 0x7D) → result ≡ 0) }
{
    let above = above_faults(most, 0) | above_faults(most, 8) | above_faults(most, 16);
    let first = under_faults(least, 0, 0x2020_2020_2020_2021);
    let under = first | under_faults(least, 8, BLANKS) | under_faults(least, 16, BLANKS);
    above | under
}

// 0 where nothing is wrong with what was gathered.
pub fn faults(seen: Seen) -> u64
    ensures { (result ≡ 0 → Fine seen) × (Fine seen → Lowest seen → result ≡ 0) }
{
    byte_faults(&seen.most, &seen.least) | (1 - (seen.ascents >> 63))
}

// 0 where the first k of the eight bytes from `at` on are digits and the others are zero: a part of a bound. Blanks stand in
// for the bytes behind it.
fn part_faults(s: &[u8], at: usize, k: usize) -> u64
    requires { (at + 8 ≤ length s.now) × (k ≤ 8) }
    ensures { result ≡ 0
        → Digits 0x20 (take k (drop at s.now)) × (is_all_zero (take (8 - k) (drop (at + k) s.now)) ≡ true) }
{
    let w = digits::little_endian(s, at);
    let behind = (w >> (4 * k)) >> (4 * k);
    let v = w | ((BLANKS << (4 * k)) << (4 * k));
    let above = (v & HIGH) | (v.wrapping_add(0x0202_0202_0202_0202) & HIGH);
    behind | above | (v.wrapping_sub(BLANKS) & HIGH)
}

// Whether a bound of at most 8 digits is seen to stand in these 24 bytes, with zeros behind it; nothing is promised of a no.
// Three functions, one for each count of words, and no loop over parts: over a loop the compiler keeps no constants, and a check is slower.
pub fn is_short(s: &[u8], len: usize) -> bool
    requires { (length s.now ≡ 24) × (len ≤ 8) }
    ensures { result ≡ true → BoundIn len s.now }
{
    part_faults(s, 0, len) | digits::little_endian(s, 8) | digits::little_endian(s, 16) == 0
}

// One of 8 to 16.
fn is_middle(s: &[u8], len: usize) -> bool
    requires { (length s.now ≡ 24) × (8 ≤ len) × (len ≤ 16) }
    ensures { result ≡ true → BoundIn len s.now }
{
    part_faults(s, 0, 8) | part_faults(s, 8, len - 8) | digits::little_endian(s, 16) == 0
}

// One of 16 to 24.
fn is_long(s: &[u8], len: usize) -> bool
    requires { (length s.now ≡ 24) × (16 ≤ len) × (len ≤ 24) }
    ensures { result ≡ true → BoundIn len s.now }
{
    part_faults(s, 0, 8) | part_faults(s, 8, 8) | part_faults(s, 16, len - 16) == 0
}

// Whether these 24 bytes are seen to be a bound of `len` digits.
pub fn is_plain(s: &[u8], len: usize) -> bool
    requires { length s.now ≡ 24 }
    ensures { result ≡ true → (nat_le len 24 && is_legal_bound (take len s.now) && is_all_zero (drop len s.now)) ≡ true }
{
    if len <= 8 {
        return is_short(s, len);
    }
    if len <= 16 {
        return is_middle(s, len);
    }
    if len <= 24 {
        return is_long(s, len);
    }
    false
}
