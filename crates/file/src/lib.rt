// The file: its header and sizes, its slots, the one function that commits a change, and create.
//
// R2.1 to R2.7 of docs/RULES.md have the header and the length: 16 bytes, then the slots.
#![tactic(auto)]

ghost use Rattle.std.specs.Prelude.{◌≡◌, ◌+◌, ◌*◌, ◌<◌, ◌≤◌, [], ◌∷◌, length, take, slice_index};
ghost use Rattle.std.proofs.Math.Seq.{paste};
ghost use Rattle.model.specs.declared.Layout.{Layout};
ghost use Rattle.model.specs.Tests.{same_str};
ghost use Rattle.model.specs.Files.{created, free};
ghost use Rattle.model.specs.Format.{bytes_at_slot, file_bytes, header_bytes, is_offered, layout_of, slot_size};
ghost use Rattle.file.specs.Maps.{RoomTold};
ghost use Rattle.file.specs.Plans.{Committed, Fits, Planned};
ghost use Rattle.file.specs.Sizes.{Sized, Fitting, Told};

use bucket::{SLOT, Slot};
use model::Layout;

mod order;
mod survey;

pub use order::{holder, leave_out};
pub use survey::{Fault, Survey, survey_of, with_next};

// What a header says: the layout of the slots, and their number.
#[derive(Clone, Copy, PartialEq, Eq)]
pub struct Size {
    pub layout: Layout,
    pub slots: usize,
}

// R2.3: the versions that are offered.
fn is_offered(version: usize) -> bool
    ensures { result ≡ is_offered version }
{
    1 <= version && version <= 3
}

// R2.3, R2.4, R2.5 and R2.7: the version is offered, b and slots are in range, and the length fits them.
pub fn sizes(length: usize, layout: Layout, slots: usize) -> Option<Size>
    ensures { Fitting result length layout slots }
{
    if !is_offered(layout.version) {
        return None;
    }
    if layout.b < 2 {
        return None;
    }
    if 16 < layout.b {
        return None;
    }
    if slots < 1 {
        return None;
    }
    if 64 < slots {
        return None;
    }
    if length != 16 + slots * layout.slot_size() {
        return None;
    }
    Some(Size { layout, slots })
}

// Whether the bytes are right that say what kind of file it is, and those behind the sizes.
fn is_marked(file: &[u8]) -> bool
    requires { 16 ≤ length file.now }
    ensures { result ≡ same_str (take 16 file.now) (header_bytes (layout_of file.now) (slice_index file.now 6)) }
{
    if file[0] != b'T' {
        return false;
    }
    if file[1] != b'K' {
        return false;
    }
    if file[2] != b'F' {
        return false;
    }
    digits::is_zero(&file[7..16])
}

// Bytes 3 and 4 are the version, byte 5 is b.
fn layout_of(file: &[u8]) -> Layout
    requires { 16 ≤ length file.now }
    ensures { result ≡ layout_of file.now }
{
    Layout {
        version: u16::from_le_bytes([file[3], file[4]]) as usize,
        b: file[5] as usize,
    }
}

// The sizes of a file whose length and header are right.
pub fn header_of(file: &[u8]) -> Option<Size>
    ensures { Told result file.now }
{
    if file.len() < 16 {
        return None;
    }
    if !is_marked(file) {
        return None;
    }
    sizes(file.len(), layout_of(file), file[6] as usize)
}

// The bytes of slot k.
pub fn slot_at<'a>(file: &'a [u8], size: Size, k: usize) -> Slot<'a>
    requires { (Sized (length file.now) size) × (k < size.slots) }
    ensures { (result.bytes.now ≡ bytes_at_slot size.layout k file.now) × (result.layout ≡ size.layout) }
{
    let n = size.layout.slot_size();
    let at = 16 + k * n;
    let end = at + n;
    Slot {
        bytes: &file[at..end],
        layout: size.layout,
    }
}

// What a change is to store: one slot or two, the first one first. A plan is found before a byte is written, and without
// the limit. `one` begins with what slot `first` is to be, `two` with what slot `second` is to be. The stores are a count and not
// an enum or two Options, since `commit` counts them: that is what fixes their order (docs/DECISIONS.md).
#[derive(Clone, Copy)]
pub struct Plan {
    pub stores: u64,
    pub first: usize,
    pub one: [u8; SLOT],
    pub second: usize,
    pub two: [u8; SLOT],
}

pub fn one_store(first: usize, slot: &[u8; SLOT]) -> Plan
    ensures { (result.stores ≡ 1) × (result.first ≡ first) × (result.one ≡ slot.now) × (result.second ≡ 0) }
{
    Plan {
        stores: 1,
        first,
        one: *slot,
        second: 0,
        two: [0u8; SLOT],
    }
}

// One store, which frees a slot.
pub fn freeing(first: usize) -> Plan
    ensures { (result.first ≡ first) × (result.second ≡ 0) × ((y : Layout) → y.b ≤ 16 → Planned result y ((first, free) ∷ [])) }
{
    one_store(first, &[0u8; SLOT])
}

pub fn two_stores(first: usize, slot: &[u8; SLOT], second: usize, other: &[u8; SLOT]) -> Plan
    ensures { (result.stores ≡ 2) × (result.first ≡ first) × (result.one ≡ slot.now)
        × (result.second ≡ second) × (result.two ≡ other.now) }
{
    Plan {
        stores: 2,
        first,
        one: *slot,
        second,
        two: *other,
    }
}

// R7.1: a store replaces one whole slot, by the beginning of the bytes given.
fn store(file: &mut [u8], size: Size, k: usize, slot: &[u8; SLOT])
    requires { (Sized (length file.old) size) × (k < size.slots) }
    ensures { (length file.new ≡ length file.old)
        × (file.new ≡ paste file.old (16 + k * slot_size size.layout) (take (slot_size size.layout) slot.now) (slot_size size.layout)) }
{
    let whole = &slot[..];
    let n = size.layout.slot_size();
    let at = 16 + k * n;
    entries::copy(file, at, &whole[0..n]);
}

// R7.12: makes the plan's stores in their order, as many as the limit allows, and tells whether the limit stopped it. Nothing
// else writes to a lent file, create aside.
pub fn commit(file: &mut [u8], size: Size, plan: Plan, limit: u64) -> bool
    requires { (Sized (length file.old) size) × (Fits plan size) }
    ensures { Committed result file.old file.new size.layout plan limit }
{
    for made in 0..plan.stores {
        if limit <= made {
            return true;
        }
        if made == 0 {
            store(file, size, plan.first, &plan.one);
        } else {
            store(file, size, plan.second, &plan.two);
        }
    }
    false
}

// R9.1: a new file over the whole buffer.
pub fn create(file: &mut [u8], size: Size)
    requires { Sized (length file.old) size }
    ensures { file.new ≡ file_bytes size.layout (created size.slots) }
{
    // From byte 0 on: what the header does not write is zero too.
    file[0..].fill(0);
    file[0] = b'T';
    file[1] = b'K';
    file[2] = b'F';
    file[3] = size.layout.version as u8;
    file[5] = size.layout.b as u8;
    file[6] = size.slots as u8;
    file[16] = 1;
}

// R7.6: the lowest free slot.
pub fn lowest_free(used: u64, slots: usize) -> Option<usize>
    ensures { RoomTold used slots result }
{
    if slots <= used.count_ones() as usize {
        return None;
    }
    let lowest = (!used).trailing_zeros() as usize;
    if slots <= lowest {
        return None;
    }
    Some(lowest)
}
