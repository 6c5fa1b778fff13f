//! A worker's seat at a desk.
ghost use Rattle.std.specs.Prelude.{◌≡◌, [], length};

use crate::entry::View;

/// A worker's right to draw, raise and look. It takes no bytes: what it knows is in contracts alone.
#[derive(Drop)]
pub struct Seat {
    pub(crate) inner: atomic_table::Seat<u8, View>,
    ghost one: { length inner.me.0 ≡ 1 },
    ghost bare: { inner.me.1 ≡ [] },
}
