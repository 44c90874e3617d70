//! Numbers by cell, 0 where none was put, of which few are others: pages of 256 cells, made as they are needed.
#![tactic(auto)]

mod index;
mod pages;
mod part;

pub use pages::Pages;
