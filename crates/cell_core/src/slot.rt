// One cell: its state in a word, and room for one value.
pub(crate) mod epoch;
pub(crate) mod member;
pub(crate) mod run;
pub(crate) mod steps;
