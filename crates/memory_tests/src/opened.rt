//! A list that an owner makes in one block, of which each cell gets a seat once a word is opened on it.
mod drops;
mod list;
mod seats;
mod steps;
