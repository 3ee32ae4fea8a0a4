// One slot's bytes, as many as its layout has.
ghost use Rattle.std.specs.Prelude.{ℕ, slice_index, true, ◌==◌, ◌≡◌, ◌≤◌, ◌<◌, drop, get_or, length, take};
ghost use Rattle.model.specs.Format.{EntrySize, entry_length};
ghost use Rattle.digits.specs.Keys.{is_all_zero, key_value};
ghost use Rattle.gathering.specs.Names.{Fine, Rising, names};
ghost use Rattle.bucket.specs.Copies.{CopyTold, is_upper_part};
ghost use Rattle.bucket.specs.Forms.{Formed, Framed, RowTold, Stocked, is_all_clear, ranged, vacant};
ghost use Rattle.bucket.specs.Slots.{Following, HighTold, LowTold, OfSize, count_at, is_a_bound, lower_bytes, upper_bytes};

use crate::{Bucket, Vacancy, bound_at, is_bound, mark};
use digits::Key;
use entries::Row;
use gathering::Seen;
use model::Layout;

#[derive(Clone, Copy)]
pub struct Slot<'a> {
    pub bytes: &'a [u8],
    pub layout: Layout,
    ghost of_size: { OfSize bytes.now layout },
    ghost each: { (i : ℕ) → get_or bytes.now i 0 < 256 },
}

impl<'a> Slot<'a> {
    // R3.1: free is all zero.
    pub fn vacancy(&self) -> Vacancy
        ensures { result ≡ vacant (is_all_zero self.now.bytes.now) }
    {
        if self.is_used() {
            return Vacancy::Taken;
        }
        if digits::is_zero(self.bytes) {
            return Vacancy::Free;
        }
        Vacancy::Taken
    }

    // The lower end of the range; an empty lower bound is no limit (R1.8).
    pub fn low(&self) -> Key
        ensures { LowTold self.now.bytes.now (key_value result) }
    {
        let lower = self.bytes[2] as usize;
        if lower == 0 {
            return Key::lowest();
        }
        Key::of_bound(self.bytes, 8, lower)
    }

    // The upper end of the range; an empty upper bound is above all (R1.7).
    pub fn high(&self) -> Key
        ensures { HighTold self.now.bytes.now (key_value result) }
    {
        Key::of_bound(self.bytes, 32, self.bytes[3] as usize)
    }

    // The lower bound.
    pub fn lower(&self) -> &'a [u8]
        ensures { (result.now ≡ lower_bytes self.now.bytes.now) × (length result.now ≤ 24) }
    {
        bound_at(self.bytes, 2, 8)
    }

    // The upper bound.
    pub fn upper(&self) -> &'a [u8]
        ensures { (result.now ≡ upper_bytes self.now.bytes.now) × (length result.now ≤ 24) }
    {
        bound_at(self.bytes, 3, 32)
    }

    // How many entries there are; never more than fit into the slot.
    pub fn count(&self) -> usize
        ensures { (result ≡ count_at self.now.layout.b self.now.bytes.now) × (result ≤ self.now.layout.b) }
    {
        (self.bytes[1] as usize).min(self.layout.b)
    }

    // The first entries, so many.
    pub fn first(&self, count: usize) -> Row<'a>
        requires { count ≤ self.now.layout.b }
        ensures { (result.bytes.now ≡ drop 64 self.now.bytes.now) × (result.e ≡ entry_length self.now.layout) × (result.count ≡ count)
            × EntrySize result.e }
    {
        Row {
            bytes: &self.bytes[64..],
            e: self.layout.entry_size(),
            count,
        }
    }

    // The entries.
    pub fn row(&self) -> Row<'a>
        ensures { (result.bytes.now ≡ drop 64 self.now.bytes.now) × (result.e ≡ entry_length self.now.layout)
            × (result.count ≡ count_at self.now.layout.b self.now.bytes.now) × (result.count ≤ self.now.layout.b) × EntrySize result.e }
    {
        self.first(self.count())
    }

    // Whether the bytes that a used slot leaves zero are zero; its entries reach to `end`.
    pub fn is_clear(&self, end: usize) -> bool
        requires { (64 ≤ end) × (end ≤ length self.now.bytes.now) }
        ensures { result ≡ is_all_clear self.now.bytes.now end }
    {
        crate::is_clear(self.bytes, end)
    }

    // The entries, where as many as byte 1 says fit and the bytes that are always zero are zero.
    pub fn whole_row(&self) -> Option<Row<'a>>
        ensures { RowTold self.now.layout self.now.bytes.now result }
    {
        let count = self.bytes[1] as usize;
        if self.layout.b < count {
            return None;
        }
        let row = self.first(count);
        let end = 64 + entries::entry_at(row.e, count, self.layout.b);
        if !self.is_clear(end) {
            return None;
        }
        Some(row)
    }

    // The range, if it is used and well formed.
    pub fn form(&self) -> Option<Bucket>
        ensures { Formed self.now.layout self.now.bytes.now result }
    {
        if !self.is_used() {
            return None;
        }
        let row = self.whole_row()?;
        if !is_bound(&self.bytes[8..32], self.bytes[2] as usize) {
            return None;
        }
        if !is_bound(&self.bytes[32..56], self.bytes[3] as usize) {
            return None;
        }
        let low = self.low();
        let high = self.high();
        if !low.is_below(high) {
            return None;
        }
        if !row.are_entries(low, high) {
            return None;
        }
        Some(Bucket { low, high })
    }

    // Whether a slot that is free or well formed is used.
    pub fn is_used(&self) -> bool
        ensures { result ≡ (slice_index self.now.bytes.now 0 == 1) }
    {
        self.bytes[0] == 1
    }

    // Whether its upper bound is empty.
    pub fn is_highest(&self) -> bool
        ensures { result ≡ (slice_index self.now.bytes.now 3 == 0) }
    {
        self.bytes[3] == 0
    }

    // Whether its range begins where that of the slot before ends.
    pub fn follows(&self, before: &[u8]) -> bool
        requires { 64 ≤ length before.now }
        ensures { result ≡ true → Following self.now.bytes.now before.now }
    {
        crate::follows(self.bytes, before)
    }

    // Whether the upper bound is seen to be one. Most bounds end within the first word, and the compiler puts their test in place.
    fn is_upper(&self) -> bool
        ensures { result ≡ true → is_a_bound (get_or self.now.bytes.now 3 0) (take 24 (drop 32 self.now.bytes.now)) ≡ true }
    {
        let len = self.bytes[3] as usize;
        let upper = &self.bytes[32..56];
        if len <= 8 {
            return gathering::is_short(upper, len);
        }
        gathering::is_plain(upper, len)
    }

    // Whether it is used, leaves zero what it does not use, and its first and last name are between the limits.
    fn is_stocked(&self, low: Key, high: Key) -> bool
        ensures { result ≡ true → Stocked (entry_length self.now.layout) self.now.layout.b self.now.bytes.now (key_value low) (key_value high) }
    {
        if !self.is_used() {
            return false;
        }
        let Some(row) = self.whole_row() else {
            return false;
        };
        row.are_between(low, high)
    }

    // Whether it is seen to be a well-formed slot behind another in range order, but for its names, which `with_names` gathers: its
    // range reaches from low, where that of the slot before ends, to high. So its lower bound needs no test of its own.
    pub fn is_framed(&self, before: &[u8], low: Key, high: Key) -> bool
        requires { 64 ≤ length before.now }
        ensures { result ≡ true → Framed (entry_length self.now.layout) self.now.layout.b self.now.bytes.now before.now (key_value low) (key_value high) }
    {
        if !self.follows(before) {
            return false;
        }
        if !self.is_upper() {
            return false;
        }
        if !self.is_stocked(low, high) {
            return false;
        }
        low.is_below(high)
    }

    // Gathers the names.
    pub fn with_names(&self, seen: Seen) -> Seen
        ensures { Fine result → Fine seen × Rising 0 (names (entry_length self.now.layout) (count_at self.now.layout.b self.now.bytes.now) (drop 64 self.now.bytes.now)) }
    {
        let row = self.row();
        gathering::with_names(seen, row.bytes, row.e, row.count)
    }

    // A number below 256 made of the lower bound.
    pub fn lower_mark(&self) -> usize
        ensures { result < 256 }
    {
        mark(self.bytes, 8)
    }

    // The same of the upper bound.
    pub fn upper_mark(&self) -> usize
        ensures { result < 256 }
    {
        mark(self.bytes, 32)
    }

    // R4.10 and R4.13: whether this is a copy of the upper part of A, as a split or a merge leaves it that was stopped half way.
    pub fn is_copy_of(&self, a: &Slot) -> bool
        requires { a.now.layout ≡ self.now.layout }
        ensures { CopyTold self.now.layout self.now.bytes.now a.now.bytes.now result }
    {
        let low = self.low();
        if !a.low().is_below(low) {
            return false;
        }
        is_upper_part(&self.first(self.count()), &a.first(a.count()), low)
    }

    // R1.8: whether the name is in the range, an empty lower bound being no limit; if not, the first digit number where the name differs
    // from the bound that it breaks.
    pub fn range(&self, name: &[u8]) -> Result<(), u64>
        ensures { result ≡ ranged (lower_bytes self.now.bytes.now) (upper_bytes self.now.bytes.now) name.now }
    {
        let lower = self.lower();
        if 0 < lower.len() {
            let low = digits::compared(name, lower);
            if low.within {
                return Err(low.first as u64);
            }
        }
        let high = digits::compared(name, self.upper());
        if !high.within {
            return Err(high.first as u64);
        }
        Ok(())
    }
}

// Whether the new entries are those of the old above the string, or these and one more.
fn is_upper_part(new: &Row, old: &Row, string: Key) -> bool
    requires { old.now.e ≡ new.now.e }
    ensures { result ≡ is_upper_part new.now.e new.now.bytes.now new.now.count old.now.bytes.now old.now.count (key_value string) }
{
    let stay = old.not_above(string);
    old.part(stay, old.count).is_copied(new)
}
