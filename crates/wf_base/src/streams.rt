//! Reading a whole text, and writing one at once or in pieces, over any reader and any writer.
//!
//! A contract can't say what a file or a terminal holds. So a [`Source`] counts the failed calls of
//! its reader and the bytes that it gave, and a [`Sink`] counts the failed calls of its writer. A
//! function that reports a failed read or write is proved to do so only if the count rose. For
//! readers and writers over memory the contracts describe every byte.
//!
//! Begin with [`read_all`], [`write_whole`] and [`Page`].

pub mod page;
pub mod sink;
pub mod source;

pub use page::Page;
pub use sink::{Sink, WriteFault, write_whole};
pub use source::{ReadFault, Source, read_all};
