//! The record of a batch.
use crate::path::Path;
use requests::reply::Reply;

/// The result of a batch: its number, its first request's number, the replies in request order, its token, and its path.
#[derive(Drop)]
pub struct Record {
    pub sequence: u64,
    pub first: u64,
    pub replies: Vec<Reply>,
    pub token: [u8; 32],
    pub path: Path,
}
