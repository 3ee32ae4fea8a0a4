// What list writes.
ghost use Rattle.std.specs.Prelude.{◌<◌, length};
ghost use Rattle.file.specs.Sizes.{Below, Sized};

use digits::Key;
use file::Size;

// The entries of a file from one name to another: the slots in range order, the place of the bucket that holds the first name and that of
// the second's, and the two names' keys.
#[derive(Clone, Copy)]
pub struct Span<'a> {
    pub file: &'a [u8],
    pub size: Size,
    pub order: &'a [u8; 64],
    pub from: usize,
    pub to: usize,
    pub low: Key,
    pub high: Key,
    ghost sized: { Sized (length file.now) size },
    ghost inside: { Below order.now size.slots },
    ghost small: { to < 64 },
}
