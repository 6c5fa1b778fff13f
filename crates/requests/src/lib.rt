//! Requests, replies, and batches of requests as CSV records.
#![tactic(auto)]

pub mod batch_reader;
pub mod batch_record;
pub mod laws;
pub mod number;
pub mod reading;
pub mod reply;
pub mod reply_text;
pub mod request;
pub mod request_fields;
mod request_limits;
pub mod request_record;

pub use batch_reader::BatchReader;
pub use number::{OrderedQuantity, PaymentAmount, Threshold};
pub use records::fail_at::FailAt;
pub use records::fault::{FaultKind, ReadError};
pub use records::io::{Counting, Failed, Sink, Source};
pub use records::memory_ends::{BytesSink, BytesSource};
pub use records::slurp::{push_all, slurp};
pub use reply::{
    Brand, DeliveryReply, LineReplies, LineReply, NewOrderReply, OrderStatusReply, PaymentReply,
    Reply, RequestRefusal, ShownCredit, ShownLine, ShownLines, ShownOrder, StockLevelReply,
};
pub use reply_text::write_reply;
pub use request::{
    Batch, CustomerChoice, Delivery, NewOrder, OrderStatus, OrderedLine, OrderedLines, Payment,
    Request, RequestKind, Requests, StockLevel, Verdict,
};
