// One slot's bytes as they are read: its parts, free, well formed, its entries in order, its range.
//
// R3.2 to R3.17 of docs/RULES.md have the bytes: numbers and lengths first, then the two bounds, then b entries. Above this crate,
// `slots` and `serving` there are bounds and entries, and no offset inside a slot.
#![tactic(auto)]

ghost use Rattle.std.specs.Prelude.{true, ◌≡◌, ◌&&◌, ◌≤◌, ◌<◌, ◌+◌, leb, drop, length, take};
ghost use Rattle.model.specs.Order.{diff};
ghost use Rattle.model.specs.Tests.{is_legal_bound};
ghost use Rattle.digits.specs.Keys.{is_all_zero};
ghost use Rattle.bucket.specs.Forms.{is_all_clear};
ghost use Rattle.bucket.specs.Slots.{Following, SharedTold, bound_bytes_at};

use digits::Key;

mod slot;

pub use slot::Slot;

// The bytes of the largest slot: 64, and 16 entries of 40.
pub const SLOT: usize = 704;

// The range (low, high] of a well-formed slot.
#[derive(Clone, Copy)]
pub struct Bucket {
    pub low: Key,
    pub high: Key,
}

// Two names and no bool: look up takes each stage's answer apart by `let .. else`.
#[derive(Clone, Copy, PartialEq, Eq)]
pub enum Vacancy {
    Taken,
    Free,
}

// The bound whose length is byte k and whose digits stand at a place; a length above 24 is none that a bound has.
fn bound_at(slot: &[u8], k: usize, at: usize) -> &[u8]
    requires { (k < length slot.now) × (at + 24 ≤ length slot.now) }
    ensures { (result.now ≡ bound_bytes_at k at slot.now) × (length result.now ≤ 24) }
{
    let len = slot[k] as usize;
    if 24 < len {
        return &slot[at..at];
    }
    let end = at + len;
    &slot[at..end]
}

// How many of their first eight digits the upper bounds of two slots share, by one word.
fn shared_word(one: &[u8], two: &[u8]) -> usize
    requires { (64 ≤ length one.now) × (64 ≤ length two.now) }
    ensures { result ≡ diff (take 8 (drop 32 one.now)) (take 8 (drop 32 two.now)) }
{
    let differing = digits::little_endian(one, 32) ^ digits::little_endian(two, 32);
    differing.trailing_zeros() as usize / 8
}

// How many digits the upper bounds of two slots share: bytes and no slots, as docs/PROOFS.md names it, of any 64 bytes.
pub fn shared_uppers(one: &[u8], two: &[u8]) -> usize
    requires { (64 ≤ length one.now) × (64 ≤ length two.now) }
    ensures { SharedTold result one.now two.now }
{
    let shared = shared_word(one, two);
    if shared < 8 {
        return shared;
    }
    digits::shared(bound_at(one, 3, 32), bound_at(two, 3, 32))
}

// Whether the bytes that a used slot leaves zero are zero; its entries reach to `end`. Bytes 4 to 7 are the upper half of the first word.
// Of any bytes, as `follows` is: neither needs to know the layout.
pub fn is_clear(slot: &[u8], end: usize) -> bool
    requires { (64 ≤ end) × (end ≤ length slot.now) }
    ensures { result ≡ is_all_clear slot.now end }
{
    if digits::little_endian(slot, 0) >> 32 != 0 {
        return false;
    }
    if digits::little_endian(slot, 56) != 0 {
        return false;
    }
    digits::is_zero(&slot[end..])
}

// Whether a slot's range begins where that of the slot before ends: the bytes of the two bounds are the same, all 24 of them. So the
// lowest slot follows on the highest: both bounds are empty.
pub fn follows(slot: &[u8], before: &[u8]) -> bool
    requires { (64 ≤ length slot.now) × (64 ≤ length before.now) }
    ensures { result ≡ true → Following slot.now before.now }
{
    if slot[2] != before[3] {
        return false;
    }
    Key::at(slot, 8) == Key::at(before, 32)
}

// Whether these 24 bytes are a bound of `len` digits. Nearly always they are, and are found so by words.
fn is_bound(s: &[u8], len: usize) -> bool
    requires { length s.now ≡ 24 }
    ensures { result ≡ (leb len 24 && is_legal_bound (take len s.now) && is_all_zero (drop len s.now)) }
{
    if gathering::is_plain(s, len) {
        return true;
    }
    digits::is_bound(s, len)
}

// A number below 256 made of the 24 bytes of a bound; it serves to guess where the bound stands.
fn mark(slot: &[u8], at: usize) -> usize
    requires { at + 24 ≤ length slot.now }
    ensures { result < 256 }
{
    let x = digits::little_endian(slot, at)
        ^ (digits::little_endian(slot, at + 8) >> 3)
        ^ (digits::little_endian(slot, at + 16) >> 5);
    (x.wrapping_mul(0x9E37_79B9_7F4A_7C15) >> 56) as usize
}
