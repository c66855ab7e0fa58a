// What a book tells of its rows, the laws that it keeps, and the questions by which it is asked.
#![tactic(auto)]

pub mod book;
pub mod conditions;
pub mod kinds;
pub mod named;
pub mod placed;
pub mod roles;
