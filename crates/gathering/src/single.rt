// What look up tests by words: one name, the names of one bucket. Nearly always all is well and is seen so at once; of a no
// nothing is promised, and who gets it asks again.
ghost use Rattle.std.specs.Prelude.{◌≡◌, ◌*◌, ◌≤◌, true, length};
ghost use Rattle.model.specs.Tests.{is_legal_filled, is_legal_name};
ghost use Rattle.model.specs.Names.{filled};
ghost use Rattle.digits.specs.Keys.{NamingTold};
ghost use Rattle.gathering.specs.Names.{Rising, names};

use crate::{byte_faults, faults, nothing_seen, with_names};
use digits::Key;

// Whether 24 bytes are seen to be a filled name.
fn is_filled(name: &[u8]) -> bool
    requires { length name.now ≡ 24 }
    ensures { result ≡ true → is_legal_filled name.now ≡ true }
{
    byte_faults(name, name) == 0
}

// Whether a name is seen to be legal. Filling adds no fault, so its digits are tested in the filled name.
fn is_legal(name: &[u8], digits: &[u8]) -> bool
    requires { digits.now ≡ filled name.now }
    ensures { result ≡ true → is_legal_name name.now ≡ true }
{
    if name.len() == 0 {
        return false;
    }
    if 24 < name.len() {
        return false;
    }
    if name[name.len() - 1] == 0x20 {
        return false;
    }
    is_filled(digits)
}

// As `digits::naming_of`, which it asks where the name is not seen to be legal.
pub fn naming_of(name: &[u8], digits: &[u8; 24]) -> Option<Key>
    requires { digits.now ≡ filled name.now }
    ensures { NamingTold result name.now digits.now }
{
    if is_legal(name, digits) {
        return Some(Key::at(digits, 0));
    }
    digits::naming_of(name, digits)
}

// Whether the names of `count` entries of e bytes each are seen to be legal and to ascend.
pub fn are_names(s: &[u8], e: usize, count: usize) -> bool
    requires { (32 ≤ e) × (e * count ≤ length s.now) }
    ensures { result ≡ true → Rising 0 (names e count s.now) }
{
    faults(with_names(nothing_seen(), s, e, count)) == 0
}
