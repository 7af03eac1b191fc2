//! Rounds: which messages a worker stores before it passes the gate again, and how many are read before they are stored.

/// How many messages a round has, and by how many octets it ends before.
const MESSAGES: u32 = 64;

const OCTETS: u64 = 134_217_728;

/// How many messages are read ahead, and by how many octets that ends before.
const AHEAD: u32 = 8192;

const AHEAD_OCTETS: u64 = 8_388_608;

/// How many messages a part of them has, where several threads look for the places of one part while the next is split off. Their start
/// takes as long as a thread needs for some thirty small messages.
const PART: u32 = 2048;

/// The round of the next message: its number, from 1, and how many messages and octets it has; how many were counted since the
/// last ones were handed on; and how many messages its part has, and may have.
#[derive(Clone, Copy)]
pub struct Rounds {
    number: u32,
    messages: u32,
    octets: u64,
    ahead: u32,
    ahead_octets: u64,
    part: u32,
    part_size: u32,
}

impl Rounds {
    /// No message has come.
    pub fn new() -> Rounds {
        Rounds {
            number: 1,
            messages: 0,
            octets: 0,
            ahead: 0,
            ahead_octets: 0,
            part: 0,
            part_size: AHEAD,
        }
    }

    /// The number of the round of the next message.
    pub fn number(&self) -> u32 {
        self.number
    }

    /// Counts a message of so many octets. Where it is the last of its round, the next round begins.
    pub fn count(&mut self, octets: u64) {
        self.messages = self.messages.saturating_add(1);
        self.octets = self.octets.saturating_add(octets);
        self.ahead = self.ahead.saturating_add(1);
        self.ahead_octets = self.ahead_octets.saturating_add(octets);
        self.part = self.part.saturating_add(1);
        if self.messages >= MESSAGES || self.octets >= OCTETS {
            self.number = self.number.saturating_add(1);
            self.messages = 0;
            self.octets = 0;
        }
    }

    /// So many were counted that they are handed on.
    pub fn is_full(&self) -> bool {
        self.ahead >= AHEAD || self.ahead_octets >= AHEAD_OCTETS
    }

    /// A part begins. Where one worker stores, it is all that is handed on at once.
    pub fn begin_part(&mut self, workers: usize) {
        self.part = 0;
        self.part_size = if workers == 1 { AHEAD } else { PART };
    }

    /// The part has so many messages that it ends.
    pub fn is_part(&self) -> bool {
        self.is_full() || self.part >= self.part_size
    }

    /// They are handed on.
    pub fn hand_on(&mut self) {
        self.ahead = 0;
        self.ahead_octets = 0;
    }
}
