//! How a call is done for each size of an element.

// Does the same with what an enum has, whatever its size.
macro_rules! by_size {
    ($kind:ident, $any:expr, $it:ident => $call:expr) => {
        match $any {
            $kind::One($it) => $call,
            $kind::Two($it) => $call,
            $kind::Three($it) => $call,
            $kind::Four($it) => $call,
            $kind::Six($it) => $call,
            $kind::Eight($it) => $call,
        }
    };
}

// The same for a call that gives something of the same size: it is put into an enum, unless the call is refused.
macro_rules! keep_size {
    ($kind:ident, $any:expr, $it:ident => $to:ident, $call:expr) => {
        match $any {
            $kind::One($it) => match $call {
                Ok(kept) => Ok($to::One(kept)),
                Err(refused) => Err(refused),
            },
            $kind::Two($it) => match $call {
                Ok(kept) => Ok($to::Two(kept)),
                Err(refused) => Err(refused),
            },
            $kind::Three($it) => match $call {
                Ok(kept) => Ok($to::Three(kept)),
                Err(refused) => Err(refused),
            },
            $kind::Four($it) => match $call {
                Ok(kept) => Ok($to::Four(kept)),
                Err(refused) => Err(refused),
            },
            $kind::Six($it) => match $call {
                Ok(kept) => Ok($to::Six(kept)),
                Err(refused) => Err(refused),
            },
            $kind::Eight($it) => match $call {
                Ok(kept) => Ok($to::Eight(kept)),
                Err(refused) => Err(refused),
            },
        }
    };
}

// The same for a call that gives back what it had if it is refused.
macro_rules! try_size {
    ($kind:ident, $any:expr, $it:ident => $to:ident, $call:expr) => {
        match $any {
            $kind::One($it) => match $call {
                Ok(done) => Ok($to::One(done)),
                Err(back) => Err($kind::One(back)),
            },
            $kind::Two($it) => match $call {
                Ok(done) => Ok($to::Two(done)),
                Err(back) => Err($kind::Two(back)),
            },
            $kind::Three($it) => match $call {
                Ok(done) => Ok($to::Three(done)),
                Err(back) => Err($kind::Three(back)),
            },
            $kind::Four($it) => match $call {
                Ok(done) => Ok($to::Four(done)),
                Err(back) => Err($kind::Four(back)),
            },
            $kind::Six($it) => match $call {
                Ok(done) => Ok($to::Six(done)),
                Err(back) => Err($kind::Six(back)),
            },
            $kind::Eight($it) => match $call {
                Ok(done) => Ok($to::Eight(done)),
                Err(back) => Err($kind::Eight(back)),
            },
        }
    };
}

// An enum with what this call opens, as its variant for one size, unless there is no memory.
macro_rules! opened {
    ($kind:ident, $size:ident, $call:expr) => {
        match $call {
            Ok(opened) => Ok($kind::$size(opened)),
            Err(_no_memory) => Err(Status::NoMemory),
        }
    };
}

pub(crate) use by_size;
pub(crate) use keep_size;
pub(crate) use opened;
pub(crate) use try_size;
