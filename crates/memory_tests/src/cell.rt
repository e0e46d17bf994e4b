pub(crate) mod block;
mod filled;
mod mend;
pub(crate) mod owner;
mod plain;
mod race;
mod runs;
mod words;
