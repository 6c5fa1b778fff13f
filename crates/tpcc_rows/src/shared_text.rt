//! Shared texts of printable ASCII, for long ones that seldom change.
ghost use Rattle.std.specs.Prelude.{◌≡◌, ◌≤◌, [], IfOk, length};
ghost use Rattle.tpcc_rows.specs.Texts.{ArePrintable};

use crate::memory::Memory;
use crate::text::Text;
use std::alloc::Global;
use std::marker::Model;
use std::sync::ArcSlice;

/// A reference-counted text of at most `N` bytes, each from 0x20 to 0x7E. An empty one allocates nothing; of any other
/// all copies share the bytes.
#[derive(Drop)]
pub struct SharedText<const N: usize> {
    bytes: Option<ArcSlice<u8>>,
}

impl<const N: usize> Model for SharedText<N> {
    ghost use Rattle.std.specs.Prelude.{ℕ, List, [], option_map, unwrap_or};
    ghost use Rattle.std.specs.Arc.{arc_slice_items};
    ghost use Rattle.tpcc_rows.specs.Texts.{IsText};

    ghost Value = { List ℕ };

    ghost view = { λ t. unwrap_or (option_map arc_slice_items t.bytes) [] };

    ghost invariant = { λ t. IsText N (unwrap_or (option_map arc_slice_items t.bytes) []) };
}

impl<const N: usize> SharedText<N> {
    /// The empty text.
    pub fn empty() -> SharedText<N>
        ensures { result ≡ [] }
    {
        SharedText { bytes: None }
    }

    pub fn new(alloc: Global, text: &Text<N>) -> Result<SharedText<N>, Memory>
        ensures { IfOk result (λ shared. shared ≡ text.now) }
    {
        let bytes = text.as_bytes();
        if bytes.is_empty() {
            return Ok(SharedText::empty());
        }
        let bytes = ArcSlice::from_slice(alloc, bytes)?;
        Ok(SharedText { bytes: Some(bytes) })
    }

    pub fn as_bytes(&self) -> &[u8]
        ensures value { result.now ≡ self.now }
        ensures fits { length result.now ≤ N }
        ensures printable { ArePrintable result.now }
    {
        match &self.bytes {
            Some(bytes) => bytes.as_slice(),
            None => b"",
        }
    }

    /// One more reference to the same text, without allocating. Refused once there are 2^63 of them.
    pub fn copied(&self) -> Result<SharedText<N>, Memory>
        ensures { IfOk result (λ copy. copy ≡ self.now) }
    {
        let Some(bytes) = &self.bytes else {
            return Ok(SharedText::empty());
        };
        let bytes = bytes.clone()?;
        Ok(SharedText { bytes: Some(bytes) })
    }
}
