//! The token of a batch.
ghost use Rattle.std.specs.Prelude.{◌≡◌};
ghost use Rattle.tpcc_model.specs.Tokens.{token_of};

use sha2::{Digest, Sha256};

/// What a token is of.
#[derive(Clone, Copy, Debug, PartialEq, Eq)]
pub struct TokenParts {
    /// The number of the batch.
    pub sequence: u64,
    /// The token before it.
    pub prior: [u8; 32],
    /// The digest of the catalog.
    pub catalog: [u8; 32],
    /// The root of the rows that the batch leaves.
    pub root: [u8; 32],
    /// The digest of the batch's replies.
    pub replies: [u8; 32],
}

impl TokenParts {
    /// The token. It takes no memory.
    pub fn token(&self) -> [u8; 32]
        ensures { result ≡ token_of self.now.sequence self.now.prior self.now.catalog self.now.root self.now.replies }
    {
        let mut hasher = Sha256::new();
        hasher.update(b"EVE-TPCC-2".as_slice());
        hasher.update(self.sequence.to_be_bytes().as_slice());
        hasher.update(self.prior.as_slice());
        hasher.update(self.catalog.as_slice());
        hasher.update(self.root.as_slice());
        hasher.update(self.replies.as_slice());
        hasher.finalize()
    }
}
