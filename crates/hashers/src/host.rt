//! Runtimes that may start threads that outlive a call.
use std::marker::{Copy, Send};
use std::sync::Wait;
use std::thread::Threads;

/// A runtime that may start threads and wait, and may be copied to a thread that outlives a call.
pub trait Host: Threads + Wait + Sync + Send + Copy + 'static {}

impl<R: Threads + Wait + Sync + Send + Copy + 'static> Host for R {}
