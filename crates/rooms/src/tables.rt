//! Sets of rooms, one for each chain, from the labels of chains and rooms.

ghost use Rattle.std.specs.Prelude.{◌≡◌, ℕ, ◌<◌, Some, None, slice_index_or};
ghost use Rattle.chains.specs.Sized.{count_of};
ghost use Rattle.rooms.specs.Tables.{holds, Paired, own_chain, is_chain, put_bit, keep_bit, empty_bit, empty_firsts, vital_next, firsts_next, wall_next, vital_bit, wall_bit, clear_bit, NoRoom, RestKept};

use crate::room_set::RoomSet;
use chains::labels::{MAX_POINTS, NO_POINT};
use grid::size::Size;

/// A board by the labels of its points: an own stone has its chain and no room, and every other point has its room.
#[derive(Clone, Copy)]
pub(crate) struct Parted<'a> {
    pub(crate) size: Size,
    pub(crate) chains: &'a [u16],
    pub(crate) rooms: &'a [u16],
    ghost paired: { Paired (count_of size) chains.now rooms.now },
}

impl Parted<'_> {
    ghost use Rattle.rooms.specs.Parted.{touch};

    /// The chain of the own stone at p, if one stands there.
    fn own_chain(&self, p: usize) -> Option<usize>
        requires { p < count_of self.now.size }
        ensures value { result ≡ own_chain self.now.chains.now self.now.rooms.now p }
        ensures inside { elim result [ Some c ↦ c < count_of self.now.size | None ↦ Unit {0} ] }
    {
        if self.rooms[p] == NO_POINT {
            Some(self.chains[p] as usize)
        } else {
            None
        }
    }

    /// Whether a stone of the chain stands at p.
    fn is_stone_of(&self, p: usize, chain: usize) -> bool
        requires { p < count_of self.now.size }
        ensures { result ≡ is_chain chain (own_chain self.now.chains.now self.now.rooms.now p) }
    {
        self.own_chain(p) == Some(chain)
    }

    /// Puts the room into the sets of the chains beside p.
    fn put_beside(&self, p: usize, room: usize, sets: &mut [RoomSet; MAX_POINTS])
        requires roomed { room < 384 }
        ensures { (c i : ℕ) → holds sets.new c i ≡ put_bit (touch self.now) p room c i (holds sets.old c i) }
    {
        for q in self.size.neighbours(p) {
            if let Some(chain) = self.own_chain(q) {
                sets[chain].insert(room);
            }
        }
    }

    /// Whether a stone of the chain is beside p.
    fn is_beside(&self, p: usize, chain: usize) -> bool
        ensures { result ≡ touch self.now p chain }
    {
        self.size.neighbours(p).any(|q| self.is_stone_of(q, chain))
    }

    /// Takes the room out of the sets of the chains beside the point `from` that are not beside p.
    fn keep_beside(&self, from: usize, p: usize, room: usize, sets: &mut [RoomSet; MAX_POINTS])
        ensures { (c i : ℕ) → holds sets.new c i ≡ keep_bit (touch self.now) from p room c i (holds sets.old c i) }
    {
        for q in self.size.neighbours(from) {
            if let Some(chain) = self.own_chain(q) {
                if !self.is_beside(p, chain) {
                    sets[chain].remove(room);
                }
            }
        }
    }

    /// Goes on to an empty point p of the room: a chain keeps the room in its set only if it is beside p and was beside each empty point before it.
    fn empty_point(
        &self,
        p: usize,
        room: usize,
        firsts: &mut [Option<u16>; MAX_POINTS],
        sets: &mut [RoomSet; MAX_POINTS],
    )
        requires inside { p < count_of self.now.size }
        requires roomed { room < count_of self.now.size }
        ensures first { firsts.new ≡ empty_firsts firsts.old p room (slice_index_or firsts.old room None) }
        ensures bits { (c i : ℕ) → holds sets.new c i
            ≡ empty_bit (touch self.now) (slice_index_or firsts.old room None) p room c i (holds sets.old c i) }
    {
        match firsts[room] {
            Some(first) => self.keep_beside(usize::from(first), p, room, sets),
            None => {
                firsts[room] = Some(p as u16);
                self.put_beside(p, room, sets);
            }
        }
    }

    /// Goes on to the point p, which counts if it is empty.
    fn vital_point(
        &self,
        p: usize,
        firsts: &mut [Option<u16>; MAX_POINTS],
        sets: &mut [RoomSet; MAX_POINTS],
    )
        requires inside { p < count_of self.now.size }
        ensures first { firsts.new ≡ firsts_next self.now.chains.now self.now.rooms.now firsts.old p }
        ensures bits { (c i : ℕ) → holds sets.new c i
            ≡ vital_next (touch self.now) self.now.chains.now self.now.rooms.now firsts.old p c i (holds sets.old c i) }
    {
        if self.chains[p] == NO_POINT {
            self.empty_point(p, self.rooms[p] as usize, firsts, sets);
        }
    }

    /// Goes on to the point p, which counts if it is in a room.
    fn wall_point(&self, p: usize, sets: &mut [RoomSet; MAX_POINTS])
        requires inside { p < count_of self.now.size }
        ensures { (c i : ℕ) → holds sets.new c i
            ≡ wall_next (touch self.now) self.now.rooms.now p c i (holds sets.old c i) }
    {
        if self.rooms[p] != NO_POINT {
            self.put_beside(p, self.rooms[p] as usize, sets);
        }
    }

    /// Takes all rooms out of both sets of each own chain.
    pub(crate) fn clear_chains(
        &self,
        vital: &mut [RoomSet; MAX_POINTS],
        walls: &mut [RoomSet; MAX_POINTS],
    )
        ensures vital { (c i : ℕ) → holds vital.new c i ≡ clear_bit self.now.chains.now self.now.rooms.now (count_of self.now.size) c (holds vital.old c i) }
        ensures walls { (c i : ℕ) → holds walls.new c i ≡ clear_bit self.now.chains.now self.now.rooms.now (count_of self.now.size) c (holds walls.old c i) }
    {
        // by number: the point is looked up in both labels and its neighbours
        for p in 0..self.size.points() {
            // The first point of a chain stands for it.
            if self.is_stone_of(p, p) {
                vital[p] = RoomSet::empty();
                walls[p] = RoomSet::empty();
            }
        }
    }

    /// Puts the rooms that are vital to each chain into its set, if the set has no room yet.
    pub(crate) fn write_vital(&self, sets: &mut [RoomSet; MAX_POINTS])
        ensures bits { (c i : ℕ) → NoRoom sets.old c → holds sets.new c i
            ≡ vital_bit (touch self.now) self.now.chains.now self.now.rooms.now (count_of self.now.size) c i }
        ensures rest { RestKept (touch self.now) sets.old sets.new }
    {
        let mut firsts = [None; MAX_POINTS];
        // by number: the point is looked up in both labels and its neighbours
        for p in 0..self.size.points() {
            self.vital_point(p, &mut firsts, sets);
        }
    }

    /// Puts the rooms that have each chain for a wall into its set, if the set has no room yet.
    pub(crate) fn write_walls(&self, sets: &mut [RoomSet; MAX_POINTS])
        ensures bits { (c i : ℕ) → NoRoom sets.old c → holds sets.new c i
            ≡ wall_bit (touch self.now) self.now.rooms.now (count_of self.now.size) c i }
        ensures rest { RestKept (touch self.now) sets.old sets.new }
    {
        // by number: the point is looked up in both labels and its neighbours
        for p in 0..self.size.points() {
            self.wall_point(p, sets);
        }
    }
}
