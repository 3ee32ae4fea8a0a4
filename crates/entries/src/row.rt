// A row of entries: its bytes begin with `count` entries of e bytes each.
ghost use Rattle.digits.specs.declared.Key.{Key};
ghost use Rattle.std.specs.Prelude.{Bool, ℕ, [], ◌&&◌, ◌++◌, ◌≡◌, ◌≤◌, ◌<◌, ◌+◌, ◌-◌, ◌*◌, ◌^◌, drop, leb, length, take};
ghost use Rattle.model.specs.Format.{EntrySize, bytes_of_entry, padded, value_of};
ghost use Rattle.digits.specs.Keys.{key_value, value};
ghost use Rattle.entries.specs.Rows.{Valued, are_among, are_between, are_entries, below, content_number, entries_from, held_number, held_under, is_at, is_not_above, last_of, part_in_between, pieces, room, spliced_bytes, values};

use crate::{ROOM, copy, entry_at, entry_of};
use digits::Key;
use model::Content;

#[derive(Clone, Copy)]
pub struct Row<'a> {
    pub bytes: &'a [u8],
    pub e: usize,
    pub count: usize,
    ghost fits: { e * count ≤ length bytes.now },
    ghost few: { count ≤ 17 },
    ghost sized: { (24 ≤ e) × (e ≤ 40) },
}

impl<'a> Row<'a> {
    // The name of entry i.
    fn name_at(&self, i: usize) -> Key
        requires { i < self.now.count }
        ensures { key_value result ≡ value (take 24 (drop (self.now.e * i) self.now.bytes.now)) }
    {
        Key::at(self.bytes, entry_at(self.e, i, self.count))
    }

    // How many entries there are up to the last whose name passes. It begins at the last entry.
    fn up_to<F: Fn(Key) -> bool>(&self, passes: F) -> usize
        requires can { F.IsAlwaysCallable passes }
        ensures most { result ≤ self.now.count }
        ensures last { (t : ℕ → Bool) → ((k : Key) (r : Bool) → F.post passes k r → r ≡ t (key_value k)) → result ≡ last_of t (values self.now.e self.now.count self.now.bytes.now) }
    {
        for i in (0..self.count).rev() {
            if passes(self.name_at(i)) {
                return i + 1;
            }
        }
        0
    }

    // How many entries there are up to the last that is below the name.
    pub fn rank(&self, name: Key) -> usize
        ensures { (result ≤ self.now.count) × (result ≡ below (key_value name) (values self.now.e self.now.count self.now.bytes.now)) }
    {
        self.up_to(|key| key.is_below(name))
    }

    // How many entries there are up to the last that is not above the string.
    pub fn not_above(&self, string: Key) -> usize
        ensures { (result ≤ self.now.count) × (result ≡ is_not_above (key_value string) (values self.now.e self.now.count self.now.bytes.now)) }
    {
        self.up_to(|key| !string.is_below(key))
    }

    // The ends of a row of names: the first is above the lower limit, the last not above the upper one.
    pub fn are_between(&self, low: Key, high: Key) -> bool
        ensures { result ≡ are_between self.now.e self.now.count self.now.bytes.now (key_value low) (key_value high) }
    {
        if self.count == 0 {
            return !high.is_below(low);
        }
        if !low.is_below(self.name_at(0)) {
            return false;
        }
        !high.is_below(self.name_at(self.count - 1))
    }

    // Names are legal, strictly ascending and in the range.
    pub fn are_entries(&self, low: Key, high: Key) -> bool
        requires { 32 ≤ self.now.e }
        ensures { result ≡ are_entries self.now.e self.now.count self.now.bytes.now (key_value low) (key_value high) }
    {
        if !self.are_between(low, high) {
            return false;
        }
        let seen = gathering::with_names(gathering::nothing_seen(), self.bytes, self.e, self.count);
        gathering::faults(seen) == 0
    }

    // The content of entry i.
    pub fn content_at(&self, i: usize) -> Content
        requires { (i < self.now.count) × EntrySize self.now.e }
        ensures { (content_number result ≡ value_of (take (self.now.e - 24) (drop (self.now.e * i + 24) self.now.bytes.now))) × (result.value < 2 ^ 64) }
    {
        let at = entry_at(self.e, i, self.count);
        let value = digits::little_endian(self.bytes, at + 24);
        if self.e < 40 {
            return Content { value, run: 0 };
        }
        let run = digits::little_endian(self.bytes, at + 32);
        Content { value, run }
    }

    // Whether the entry at place i is there and has the name.
    pub fn is_at(&self, i: usize, name: Key) -> bool
        ensures { result ≡ is_at self.now.e self.now.bytes.now self.now.count i (key_value name) }
    {
        i < self.count && self.name_at(i) == name
    }

    // The content under a name.
    pub fn held_under(&self, name: Key) -> Option<Content>
        requires { EntrySize self.now.e }
        ensures { (held_number result ≡ held_under self.now.e self.now.bytes.now self.now.count (key_value name)) × Valued result }
    {
        let i = self.rank(name);
        if !self.is_at(i, name) {
            return None;
        }
        Some(self.content_at(i))
    }

    // The entries from one place on to another. The second place is the first one's bound, so that the part's start is not
    // behind its end.
    pub fn part(&self, from: usize, to: usize) -> Row<'a>
        requires { (from ≤ to) × (to ≤ self.now.count) }
        ensures { (result.bytes.now ≡ entries_from self.now.e from to self.now.bytes.now) × (result.e ≡ self.now.e) × (result.count ≡ to - from)
            × (length result.bytes.now ≡ self.now.e * (to - from)) × (length result.bytes.now ≤ self.now.e * self.now.count) }
    {
        let at = entry_at(self.e, from, to);
        let end = entry_at(self.e, to, self.count);
        Row {
            bytes: &self.bytes[at..end],
            e: self.e,
            count: to - from,
        }
    }

    // The bytes of the entries from the first name to the second, both included (R9.8).
    pub fn part_between(&self, first: Key, second: Key) -> &'a [u8]
        ensures { (length result.now ≤ self.now.e * self.now.count)
            × (result.now ≡ part_in_between self.now.e self.now.bytes.now self.now.count (key_value first) (key_value second)) }
    {
        let from = self.rank(first);
        let to = self.not_above(second);
        if to <= from {
            return &self.bytes[0..0];
        }
        self.part(from, to).bytes
    }

    // The entries with so many of them, from place i on, taken out, and the middle put there.
    fn spliced(&self, i: usize, taken: usize, middle: &[u8]) -> [u8; ROOM]
        requires { (self.now.count ≤ 16) × (i + taken ≤ self.now.count) × (length middle.now ≤ 40) }
        ensures { result ≡ padded room (spliced_bytes self.now.e self.now.bytes.now self.now.count i taken middle.now) }
    {
        let mut all = [0u8; ROOM];
        let at = entry_at(self.e, i, self.count);
        let next = entry_at(self.e, i + taken, self.count);
        let end = entry_at(self.e, self.count, self.count);
        copy(&mut all, 0, &self.bytes[0..at]);
        copy(&mut all, at, middle);
        copy(&mut all, at + middle.len(), &self.bytes[next..end]);
        all
    }

    // The entries with one at place i: one more where nothing is taken, another where one is.
    pub fn with_entry(
        &self,
        i: usize,
        taken: usize,
        name: &[u8; 24],
        content: Content,
    ) -> [u8; ROOM]
        requires { (self.now.count ≤ 16) × EntrySize self.now.e × (i + taken ≤ self.now.count) }
        ensures { result ≡ padded room (spliced_bytes self.now.e self.now.bytes.now self.now.count i taken (bytes_of_entry self.now.e (name.now, content_number content))) }
    {
        let entry = entry_of(self.e, name, content);
        self.spliced(i, taken, &entry[0..self.e])
    }

    // The entries without that at place i.
    pub fn without_entry(&self, i: usize) -> [u8; ROOM]
        requires { (self.now.count ≤ 16) × (i < self.now.count) }
        ensures { result ≡ padded room (spliced_bytes self.now.e self.now.bytes.now self.now.count i 1 []) }
    {
        self.spliced(i, 1, &[])
    }

    // The entries, and behind them those of another row.
    pub fn joined(&self, second: &Row) -> [u8; ROOM]
        requires { (second.now.e ≡ self.now.e) × (self.now.count + second.now.count ≤ 17) }
        ensures { result ≡ padded room (take (self.now.e * self.now.count) self.now.bytes.now ++ take (self.now.e * second.now.count) second.now.bytes.now) }
    {
        let mut all = [0u8; ROOM];
        let at = entry_at(self.e, self.count, self.count + second.count);
        let end = entry_at(self.e, second.count, second.count);
        copy(&mut all, 0, &self.bytes[0..at]);
        copy(&mut all, at, &second.bytes[0..end]);
        all
    }

    // Whether the second entries are exactly these, or these and one more.
    pub fn is_copied(&self, second: &Row) -> bool
        requires { second.now.e ≡ self.now.e }
        ensures { result ≡ (are_among (pieces self.now.e second.now.count second.now.bytes.now) (pieces self.now.e self.now.count self.now.bytes.now) && leb second.now.count (self.now.count + 1)) }
    {
        let mut i = 0;
        for j in 0..second.count {
            if i < self.count && self.part(i, i + 1).bytes == second.part(j, j + 1).bytes {
                i += 1;
            }
        }
        i == self.count && second.count <= self.count + 1
    }
}
