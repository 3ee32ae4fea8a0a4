// What a put is to do in a bucket that has room for it.
use model::Content;
use slots::Spot;

// A name with the content that is put under it, the slot k whose range holds it, and its spot there.
#[derive(Clone, Copy)]
pub struct Change<'a, 'b> {
    pub k: usize,
    pub spot: Spot<'a>,
    pub name: &'b [u8; 24],
    pub content: Content,
}
