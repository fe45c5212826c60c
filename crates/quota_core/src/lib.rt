//! The books: limits and use of RAM and capabilities of every account. Limits move between accounts and are never
//! created.
//!
//! `dataspace_core` charges dataspaces to these accounts. For example, `books.open(books.root(), Ram(4096), Caps(1))`
//! opens an account with one page and one capability.
#![tactic(auto)]

mod account;
mod books;

pub use books::Books;
