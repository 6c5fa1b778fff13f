//! Parses the records of an image, and names the faults of an image.
#![tactic(auto)]

mod columns;
pub mod fault;
pub mod image_record;
pub mod record_fault;
pub mod version;

pub use fault::LoadError;
pub use image_record::ImageRecord;
pub use version::Version;
