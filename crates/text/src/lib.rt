// Text laid into a lent buffer, as far as it fits: a page to write to, and bytes and numbers at a place.
#![tactic(auto)]

mod bytes;
mod page;

pub use bytes::{LINE_END, put_byte, put_bytes, put_decimal};
pub use page::Page;
