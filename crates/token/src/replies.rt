//! The digest of a batch's replies.
ghost use Rattle.std.specs.Prelude.{◌≡◌, ◌≤◌, ◌+◌, length};
ghost use Rattle.tpcc_model.specs.Tokens.{replies_digest};
ghost use Rattle.tpcc_rows.specs.declared.id.TheConstants.{END_OF_NUMBERS};

use crate::encoding::encode_reply;
use requests::reply::Reply;
use sha2::{Digest, Sha256};
use tpcc_rows::row_buf::RowBuf;

/// The digest of replies to requests that are numbered from `first` on. It takes no memory.
pub fn reply_digest(first: u64, replies: &[Reply]) -> [u8; 32]
    requires { first + length replies.now ≤ END_OF_NUMBERS }
    ensures { result ≡ replies_digest first replies.now }
{
    let mut buffer = RowBuf::new();
    let mut hasher = Sha256::new();
    let mut number = first;
    for reply in replies {
        encode_reply(number, reply, &mut buffer);
        hasher.update(buffer.as_slice());
        number += 1;
    }
    hasher.finalize()
}
