// Places in a text.
ghost use Rattle.std.specs.Prelude.{◌≡◌, ◌≤◌, length};

use super::names::Names;

// A place in a text that is read over the names of a box.
#[derive(Clone, Copy)]
pub struct Cursor<'a> {
    pub(crate) names: &'a Names,
    pub(crate) text: &'a [u8],
    pub(crate) at: usize,
    ghost within: { at ≤ length text.now },
}
