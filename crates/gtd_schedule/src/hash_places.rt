//! Which cursors are kept, by the hashes of what closes their elements.

use std::alloc::{AllocError, Global};

/// How many cursors are kept at most.
const MOST_CURSORS: usize = 1_024;

/// How many nodes a kept cursor has at most.
const MOST_NODES: u64 = 64;

/// For how many spans the kept cursors have room together, at most.
const MOST_SPANS: u64 = 81_920;

/// For how many spans they have room together in a file of few elements.
const FEW_SPANS: u64 = 16_384;

/// For how many spans more they have room with each element in a direction, between these two.
const SPANS_OF_A_DIRECTION: u64 = 8;

/// For how many spans a cursor has room for each of its nodes, and once more: 16 of a period, and as many that came before these
/// were known.
const SPANS_OF_A_NODE: u64 = 32;

/// A cursor that is kept: the hash of what closes its element, its number, and for how many spans it has room.
#[derive(Clone, Copy)]
struct KeptNumber {
    hash: u32,
    number: usize,
    spans: u64,
}

/// The place of some hashes: the one that was looked for last, and the cursor that is kept there.
#[derive(Clone, Copy)]
struct HashPlace {
    last: u32,
    kept: Option<KeptNumber>,
}

/// For the hashes of elements, which of many cursors is kept. Nothing rests on what is said here: whoever finds a cursor sees
/// whether it is one of an element.
#[derive(Drop)]
pub(crate) struct HashPlaces {
    places: Vec<HashPlace>,
    /// For how many spans more a cursor that is kept may have room.
    room: u64,
}

// The place of a hash.
fn place_of(hash: u32, places: usize) -> usize {
    match (hash as usize).checked_rem(places) {
        Some(place) => place,
        None => 0,
    }
}

// For how many spans the cursors that are kept for so many elements in a direction have room together.
fn spans_for(directions: usize) -> u64 {
    (directions as u64)
        .saturating_mul(SPANS_OF_A_DIRECTION)
        .clamp(FEW_SPANS, MOST_SPANS)
}

// For how many spans a cursor of so many nodes has room at most.
fn spans_of(nodes: u64) -> u64 {
    nodes.saturating_add(1).saturating_mul(SPANS_OF_A_NODE)
}

impl HashPlaces {
    /// Places for the hashes of so many elements in a direction, at which no cursor is kept yet.
    pub(crate) fn new(alloc: Global, directions: usize) -> Result<HashPlaces, AllocError> {
        let count = directions.min(MOST_CURSORS);
        let mut places = Vec::with_capacity(alloc, count)?;
        for _ in 0..count {
            places.push(HashPlace {
                last: 0,
                kept: None,
            })?;
        }
        Ok(HashPlaces {
            places,
            room: spans_for(directions),
        })
    }

    // The cursor that is kept at the place of a hash.
    fn kept_at(&self, hash: u32) -> Option<KeptNumber> {
        self.places.get(place_of(hash, self.places.len()))?.kept
    }

    /// The number of the cursor that is kept for a hash.
    pub(crate) fn number_of(&mut self, hash: u32) -> Option<usize> {
        let place = place_of(hash, self.places.len());
        let there = self.places.get_mut(place)?;
        let kept = there.kept?;
        if kept.hash != hash {
            return None;
        }
        there.last = hash;
        Some(kept.number)
    }

    // Whether the element that was looked for last at the place of a hash had the same. From now on, this one was.
    fn is_seen_again(&mut self, hash: u32) -> bool {
        let place = place_of(hash, self.places.len());
        let Some(there) = self.places.get_mut(place) else {
            return false;
        };
        let is_same = there.last == hash;
        there.last = hash;
        is_same
    }

    /// Whether a new cursor of so many nodes is to be kept for a hash: if no cursor is kept at its place, or if the hash was
    /// looked for there twice running. A cursor of one node is not kept, since it opens at once, nor one of very many nodes, or
    /// for whose spans there is no room.
    pub(crate) fn is_to_be_kept(&mut self, hash: u32, nodes: u64) -> bool {
        let is_again = self.is_seen_again(hash);
        if nodes < 2 || nodes > MOST_NODES {
            return false;
        }
        match self.kept_at(hash) {
            None => spans_of(nodes) <= self.room,
            Some(kept) => is_again && spans_of(nodes) <= self.room.saturating_add(kept.spans),
        }
    }

    /// The number of the cursor that is kept at the place of a hash, of whatever element.
    pub(crate) fn number_at(&self, hash: u32) -> Option<usize> {
        Some(self.kept_at(hash)?.number)
    }

    /// Keeps the cursor with this number, of so many nodes, for a hash, and no longer the one that was kept at its place.
    pub(crate) fn keep(&mut self, hash: u32, number: usize, nodes: u64) {
        if let Some(kept) = self.kept_at(hash) {
            self.room = self.room.saturating_add(kept.spans);
        }
        let spans = spans_of(nodes);
        self.room = self.room.saturating_sub(spans);
        let place = place_of(hash, self.places.len());
        if let Some(there) = self.places.get_mut(place) {
            there.kept = Some(KeptNumber {
                hash,
                number,
                spans,
            });
        }
    }
}
