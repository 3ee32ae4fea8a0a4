// One slot as its bounds and its entries: the place of a name and what is held there, the slot with a name put in or taken out, the two
// halves of a split, two neighbours as one, and the parts that a list gives out.
#![tactic(auto)]

ghost use Rattle.std.specs.Prelude.{◌≡◌, ◌*◌, ◌+◌, ◌/◌, ◌<◌, ◌^◌, ◌≤◌, drop, length, take};
ghost use Rattle.model.specs.Format.{AreBytes, EntrySize, entry_length};
ghost use Rattle.digits.specs.Keys.{key_value};
ghost use Rattle.entries.specs.Rows.{Valued};
ghost use Rattle.slots.specs.Parts.{all_of, part_of};
ghost use Rattle.slots.specs.Halves.{LowerTold, NameTold, StayTold, UpperTold};
ghost use Rattle.slots.specs.Spots.{AddedTold, ContentTold, HeldTold, LessenedTold, OverfullTold, ReplacedTold, RewrittenTold, SpotTold, WidenedTold};
ghost use Rattle.slots.specs.Written.{entries_room, written_bytes};

use bucket::{SLOT, Slot};
use digits::Key;
use entries::{ROOM, Row, copy};
use model::{Content, Layout};

mod spot;

pub use spot::Spot;

// The spot of a name in a slot.
pub fn spot_in<'a>(slot: &Slot<'a>, name: Key) -> Spot<'a>
    ensures { (result.slot ≡ slot.now) × (SpotTold result slot.now.layout slot.now.bytes.now name) }
{
    let row = slot.row();
    let place = row.rank(name);
    Spot {
        slot: *slot,
        count: row.count,
        place,
        held: row.is_at(place, name),
    }
}

// What a slot holds under a name.
pub fn held_in(slot: &Slot, name: Key) -> Option<Content>
    ensures { (HeldTold result slot.now.layout slot.now.bytes.now name) × (Valued result) }
{
    slot.row().held_under(name)
}

// The name of entry i, filled.
pub fn name_in<'a>(slot: &Slot<'a>, i: usize) -> &'a [u8]
    requires { i < slot.now.layout.b }
    ensures { (length result.now ≡ 24) × (result.now ≡ take 24 (drop (entry_length slot.now.layout * i) (drop 64 slot.now.bytes.now))) }
{
    let row = slot.first(slot.layout.b);
    let at = entries::entry_at(row.e, i, row.count);
    &row.bytes[at..at + 24]
}

impl<'a> Spot<'a> {
    // The entries of its slot.
    fn row(&self) -> Row<'a>
        ensures { (result.bytes.now ≡ drop 64 self.now.slot.bytes.now) × (result.e ≡ entry_length self.now.slot.layout) × (result.count ≡ self.now.count)
            × EntrySize result.e }
    {
        self.slot.first(self.count)
    }

    // The content of a name that is held.
    pub fn content(&self) -> Content
        requires { self.now.place < self.now.count }
        ensures { (ContentTold result self.now.slot.layout self.now.slot.bytes.now self.now) × (result.value < 2 ^ 64) }
    {
        self.row().content_at(self.place)
    }

    // R7.9: the slot with another content under a name that it holds.
    pub fn replaced(&self, name: &[u8; 24], content: Content) -> [u8; SLOT]
        requires { self.now.place < self.now.count }
        ensures { ReplacedTold result self.now.slot.layout self.now.slot.bytes.now self.now name.now content }
    {
        let row = self.row().with_entry(self.place, 1, name, content);
        self.rewritten(&row, self.count)
    }

    // The entries of the slot with one more, which may be more than it has room for.
    pub fn overfull(&self, name: &[u8; 24], content: Content) -> [u8; ROOM]
        ensures { OverfullTold result self.now.slot.layout self.now.slot.bytes.now self.now name.now content }
    {
        self.row().with_entry(self.place, 0, name, content)
    }

    // R7.2: the slot with a name more, where it has room for it.
    pub fn added(&self, name: &[u8; 24], content: Content) -> [u8; SLOT]
        requires { self.now.count < self.now.slot.layout.b }
        ensures { AddedTold result self.now.slot.layout self.now.slot.bytes.now self.now name.now content }
    {
        let row = self.overfull(name, content);
        self.rewritten(&row, self.count + 1)
    }

    // R7.10: the slot without a name that it holds.
    pub fn lessened(&self) -> [u8; SLOT]
        requires { self.now.place < self.now.count }
        ensures { LessenedTold result self.now.slot.layout self.now.slot.bytes.now self.now }
    {
        let row = self.row().without_entry(self.place);
        self.rewritten(&row, self.count - 1)
    }

    // The slot with the same bounds and the first entries of a row, so many.
    fn rewritten(&self, row: &[u8; ROOM], count: usize) -> [u8; SLOT]
        requires { count ≤ self.now.slot.layout.b }
        ensures { RewrittenTold result self.now.slot.layout self.now.slot.bytes.now row.now count }
    {
        let end = entries::entry_at(self.slot.layout.entry_size(), count, self.slot.layout.b);
        written(self.slot.lower(), self.slot.upper(), count, &row[0..end])
    }
}

// Two neighbours as one slot, without the entry at place i of both their rows: the left one has m entries, the right one n.
pub fn widened(left: &Slot, m: usize, right: &Slot, n: usize, i: usize) -> [u8; SLOT]
    requires { (right.now.layout ≡ left.now.layout) × (m ≤ left.now.layout.b) × (n ≤ left.now.layout.b) × (m + n ≤ 16) × (i < m + n) }
    ensures { WidenedTold result left.now.layout left.now.bytes.now m right.now.bytes.now n i }
{
    let first = left.first(m);
    let both = first.joined(&right.first(n));
    let all = Row {
        bytes: &both,
        e: first.e,
        count: m + n,
    };
    let row = all.without_entry(i);
    let count = m + n - 1;
    let end = entries::entry_at(all.e, count, all.count);
    written(left.lower(), right.upper(), count, &row[0..end])
}

// The name of entry i in a row of b + 1.
pub fn name_of(row: &[u8; ROOM], layout: Layout, i: usize) -> [u8; 24]
    requires { (layout.b ≤ 16) × (i ≤ layout.b) }
    ensures { NameTold result layout row.now i }
{
    let at = entries::entry_at(layout.entry_size(), i, layout.b + 1);
    let mut name = [0u8; 24];
    copy(&mut name, 0, &row[at..at + 24]);
    name
}

// A row of b + 1 entries.
fn whole(row: &[u8; ROOM], layout: Layout) -> Row
    requires { layout.b ≤ 16 }
    ensures { (result.bytes.now ≡ row.now) × (result.e ≡ entry_length layout) × (result.count ≡ layout.b + 1) }
{
    Row {
        bytes: row,
        e: layout.entry_size(),
        count: layout.b + 1,
    }
}

// How many entries of a row of b + 1 stay at a split: those not above the string. The first always does and the last never.
pub fn stay_in(row: &[u8; ROOM], layout: Layout, string: Key) -> usize
    requires { (2 ≤ layout.b) × (layout.b ≤ 16) }
    ensures { StayTold result layout row.now string }
{
    let inner = whole(row, layout).part(1, layout.b);
    1 + inner.not_above(string)
}

// The slot N of a split: from the string to the slot's upper bound, with the entries that move.
pub fn upper_half(slot: &Slot, row: &[u8; ROOM], string: &[u8], stay: usize) -> [u8; SLOT]
    requires { (length string.now ≤ 24) × (1 ≤ stay) × (stay ≤ slot.now.layout.b) }
    ensures { UpperTold result slot.now.layout slot.now.bytes.now row.now string.now stay }
{
    let all = whole(row, slot.layout);
    let part = all.part(stay, all.count);
    written(string, slot.upper(), part.count, part.bytes)
}

// The slot A of a split, cut down: its upper bound is now the string, and the others' entries are gone.
pub fn lower_half(slot: &Slot, row: &[u8; ROOM], string: &[u8], stay: usize) -> [u8; SLOT]
    requires { (length string.now ≤ 24) × (1 ≤ stay) × (stay ≤ slot.now.layout.b) }
    ensures { LowerTold result slot.now.layout slot.now.bytes.now row.now string.now stay }
{
    let part = whole(row, slot.layout).part(0, stay);
    written(slot.lower(), string, stay, part.bytes)
}

// A used slot written whole: its bounds and its entries, and zero elsewhere.
fn written(lower: &[u8], upper: &[u8], count: usize, entries: &[u8]) -> [u8; SLOT]
    requires { (length lower.now ≤ 24) × (length upper.now ≤ 24) × (count ≤ 16) × (length entries.now ≤ entries_room) }
    ensures { (result ≡ written_bytes lower.now upper.now count entries.now) × AreBytes entries.now }
{
    let mut slot = [0u8; SLOT];
    slot[0] = 1;
    slot[1] = count as u8;
    slot[2] = lower.len() as u8;
    slot[3] = upper.len() as u8;
    copy(&mut slot, 8, lower);
    copy(&mut slot, 32, upper);
    copy(&mut slot, 64, entries);
    slot
}

// The bytes of the entries from the first name to the second, both included (R9.8).
pub fn part_between<'a>(slot: &Slot<'a>, first: Key, second: Key) -> &'a [u8]
    ensures { (length result.now ≤ entries_room) × (result.now ≡ part_of slot.now.layout slot.now.bytes.now (key_value first) (key_value second)) }
{
    slot.row().part_between(first, second)
}

// The bytes of all entries.
pub fn all_of<'a>(slot: &Slot<'a>) -> &'a [u8]
    ensures { (length result.now ≤ entries_room) × (result.now ≡ all_of slot.now.layout slot.now.bytes.now) }
{
    let row = slot.row();
    row.part(0, row.count).bytes
}

// How many entries so many bytes are.
pub fn entries_in(bytes: usize, layout: Layout) -> usize
    ensures { result ≡ bytes / entry_length layout }
{
    bytes / layout.entry_size()
}
