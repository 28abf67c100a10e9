//! Lines: those of a certificate, and lines of text.
//!
//! - [`Line`] and [`Lines`]: the steps of a certificate, which show that a box of candidates holds
//!   no decision map.
//! - [`Form`]: how much of a search's result a report contains.
//! - [`put_words`] and [`put_number`]: append a line of words, or a name and a number, to a text.

mod form;
mod line;
mod words;

pub use form::Form;
pub use line::{Line, Lines};
pub use words::{put_number, put_words};
