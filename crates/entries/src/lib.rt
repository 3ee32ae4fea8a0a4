// Rows of entries of e bytes each: a filled name (24), a value (8) and, where e is 40, a run (8), both little-endian.
//
// Only `entry_at` has a product; its contract gives the callers what they need of it, so their own sums are linear. Only
// `content_at` and `entry_of` tell the two sizes apart.
#![tactic(auto)]

ghost use Rattle.std.specs.Prelude.{◌≡◌, ◌≤◌, ◌+◌, length};
ghost use Rattle.std.proofs.Math.Seq.{paste};
ghost use Rattle.model.specs.Format.{EntrySize, bytes_of_entry, padded};
ghost use Rattle.entries.specs.Rows.{Stands, content_number};

use model::Content;

mod row;

pub use row::Row;

// The most bytes that the entries of one bucket and one more have: 17 of 40.
pub const ROOM: usize = 680;

// Where entry i of so many begins.
pub fn entry_at(e: usize, i: usize, count: usize) -> usize
    requires { (i ≤ count) × (count ≤ 17) × (24 ≤ e) × (e ≤ 40) }
    ensures { Stands e i count result }
{
    e * i
}

// The bytes of an entry, and zero behind them. Entries of 32 bytes have no run, and the one given is not written.
fn entry_of(e: usize, name: &[u8; 24], content: Content) -> [u8; 40]
    requires { EntrySize e }
    ensures { (result ≡ padded 40 (bytes_of_entry e (name.now, content_number content))) × (length name.now ≡ 24) }
{
    let mut entry = [0u8; 40];
    copy(&mut entry, 0, name);
    copy(&mut entry, 24, &content.value.to_le_bytes());
    if e < 40 {
        return entry;
    }
    copy(&mut entry, 32, &content.run.to_le_bytes());
    entry
}

// Puts s over d from `at` on. One name for copy_from_slice at a place: its contract, paste, is what all who write cite.
pub fn copy(d: &mut [u8], at: usize, s: &[u8])
    requires { at + length s.now ≤ length d.old }
    ensures { d.new ≡ paste d.old at s.now (length s.now) }
{
    let end = at + s.len();
    d[at..end].copy_from_slice(s);
}
