//! Run sheets: packed scripts of hub calls, and the reader that decodes them.
#![tactic(auto)]

mod bit_reader;
pub mod channel_list;
mod channels;
mod header;
mod record;
pub mod sheet;
pub mod text;
pub mod words;
