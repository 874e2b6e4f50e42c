// LOG, of 003, section 6.1: its record, reader and writer, and its text, which ends at the first zero.
// Read specs/Log.antt, whose text and zeros take what is left of the payload, then specs/LogFaithful.antt.
#![tactic(auto)]

mod log;

pub use log::{Log, is_log_length, log_padded, log_text, read_log, take_log, write_log};
