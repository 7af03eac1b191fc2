//! What the seats of a board's table know. All of it is data for contracts and proofs: no value of these types is made.
use fd_entries::Listing;
use std::collections::LinkedList;

/// Whether a seat has the turn for the value.
pub enum Turn {
    /// It hasn't.
    Away,
    /// It has, with the list of the value that it took, and whether it has posted since.
    Holder(LinkedList<Listing>, bool),
}

/// Whether a pass has the lock of the state.
pub enum Lock {
    /// It hasn't.
    Free,
    /// It has, with the listing in doubt that the state had when it was taken, or none.
    Owner(Option<Listing>),
}

/// What a board is about.
pub struct Subject {
    /// What its values and its state are about, in octets.
    pub text: LinkedList<u8>,
    /// Whether its state tells its contents.
    pub told: bool,
}

/// What a seat knows.
pub struct SeatView {
    /// All listings that it has seen, in order.
    pub history: LinkedList<Listing>,
    /// Another history, which a join brought and which is not compared yet.
    pub told: LinkedList<Listing>,
    /// How many of the parts of all passes it has.
    pub parts: u64,
    /// How many listings were posted by it and by those that were joined into it.
    pub amount: u64,
    /// The listings that may be listed though no post told of them.
    pub doubts: LinkedList<Listing>,
    /// The length of the list that the board began with.
    pub opening: u64,
    /// What the board is about.
    pub subject: Subject,
    /// Whether it has the turn.
    pub turn: Turn,
    /// Whether it has the lock.
    pub lock: Lock,
}
