//! One thread's hand of a vector, together with its vector: the calls that a library for C is made of.
//!
//! Contracts see a `Caller` as which vector it is of, its hand, and the token of the last place that it filled
//! (`specs/Caller.antt`). `specs/Grows.antt` says what growths of several places leave of it. No call waits, and none
//! gives a token away: the caller keeps the last one.
//!
//! A caller can prove that each call keeps the vector and the shares, that a push's place has its value, which a read
//! of that place returns, and that a list is as long as the size that was closed. A caller cannot prove what is at
//! places that others filled.
#![tactic(auto)]

mod caller;
mod close;
mod element;
mod grow;
mod hands;
mod look;
mod mend;
mod push;
mod read;
mod reopen;
mod uses;

pub use caller::Caller;
pub use element::Element;
