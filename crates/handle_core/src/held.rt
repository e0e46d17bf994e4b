//! What a handle has: one thread's hand of a vector, or a list, with elements of one of six sizes and two kinds.
use caller_core::Caller;
use opaque_core::Opaque;
use quiet_core::Quiet;

/// A hand of a vector of value elements, by the words of an element.
#[derive(Drop)]
pub enum AnyCaller {
    One(Caller<[u64; 1]>),
    Two(Caller<[u64; 2]>),
    Three(Caller<[u64; 3]>),
    Four(Caller<[u64; 4]>),
    Six(Caller<[u64; 6]>),
    Eight(Caller<[u64; 8]>),
}

/// A hand of a vector of opaque elements, by the words of an element.
#[derive(Drop)]
pub enum AnyOpaque {
    One(Caller<Opaque<1>>),
    Two(Caller<Opaque<2>>),
    Three(Caller<Opaque<3>>),
    Four(Caller<Opaque<4>>),
    Six(Caller<Opaque<6>>),
    Eight(Caller<Opaque<8>>),
}

/// A closed vector of value elements, by the words of an element.
#[derive(Drop)]
pub enum AnyList {
    One(Quiet<[u64; 1]>),
    Two(Quiet<[u64; 2]>),
    Three(Quiet<[u64; 3]>),
    Four(Quiet<[u64; 4]>),
    Six(Quiet<[u64; 6]>),
    Eight(Quiet<[u64; 8]>),
}

/// A closed vector of opaque elements, by the words of an element.
#[derive(Drop)]
pub enum AnyOpaqueList {
    One(Quiet<Opaque<1>>),
    Two(Quiet<Opaque<2>>),
    Three(Quiet<Opaque<3>>),
    Four(Quiet<Opaque<4>>),
    Six(Quiet<Opaque<6>>),
    Eight(Quiet<Opaque<8>>),
}

/// What a handle that is not empty has.
#[derive(Drop)]
pub enum Held {
    Hand(AnyCaller),
    OpaqueHand(AnyOpaque),
    List(AnyList),
    OpaqueList(AnyOpaqueList),
    // A box that waits for its content.
    Empty,
}
