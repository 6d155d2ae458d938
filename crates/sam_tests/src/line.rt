//! Lines: bytes as docs/reference/LINK.md has them, and times as docs/howto/RECONNECTING.md has them.

mod bytes;
mod times;
