//! Sets of rooms, each room by its number, as bits of words.

ghost use Rattle.std.specs.Prelude.{◌≡◌, ℕ, ◌<◌, ◌≤◌, Bool, true, false, not, ◌&&◌, ◌||◌, ◌==◌};
ghost use Rattle.rooms.specs.Bits.{member, shared_below};

/// How many words a set has.
const WORDS: usize = 6;

/// How many rooms a word holds.
const WORD_ROOMS: usize = u64::BITS as usize;

/// How many rooms a set can hold: their numbers are below this.
const ROOMS: usize = WORDS * WORD_ROOMS;

/// A set of rooms. A room's number is below 384.
#[derive(Clone, Copy, PartialEq, Eq, Debug)]
pub struct RoomSet {
    words: [u64; WORDS],
}

impl RoomSet {
    /// The set without a room.
    #[tactic(auto, using(crate::proofs::Bits::member_zeros))]
    pub fn empty() -> RoomSet
        ensures { (i : ℕ) → member result.words i ≡ false }
    {
        RoomSet { words: [0; WORDS] }
    }

    /// Puts a room into the set. A number that is not below 384 changes nothing.
    #[tactic(auto, using(crate::proofs::Bits::member_insert))]
    pub fn insert(&mut self, room: usize)
        ensures inserted { room < 384 → (i : ℕ) → member self.new.words i ≡ (member self.old.words i || i == room) }
        ensures same { 384 ≤ room → self.new ≡ self.old }
    {
        if room < ROOMS {
            self.words[room / WORD_ROOMS] |= 1u64 << (room % WORD_ROOMS);
        }
    }

    /// Takes a room out of the set.
    #[tactic(auto, using(crate::proofs::Bits::member_remove, crate::proofs::Bits::member_without))]
    pub fn remove(&mut self, room: usize)
        ensures { (i : ℕ) → member self.new.words i ≡ (member self.old.words i && not (i == room)) }
    {
        if room < ROOMS {
            self.words[room / WORD_ROOMS] &= !(1u64 << (room % WORD_ROOMS));
        }
    }

    /// Whether a room is in the set. A number that is not below 384 is in none.
    #[tactic(auto, using(crate::proofs::Bits::member_read, crate::proofs::Bits::member_past))]
    pub fn contains(&self, room: usize) -> bool
        ensures value { result ≡ member self.now.words room }
        ensures past { 384 ≤ room → result ≡ false }
    {
        room < ROOMS && (self.words[room / WORD_ROOMS] >> (room % WORD_ROOMS)) & 1 == 1
    }

    /// Takes all rooms of the other set out of this one.
    pub fn remove_all(&mut self, struck: &RoomSet)
        ensures { (i : ℕ) → member self.new.words i ≡ (member self.old.words i && not (member struck.now.words i)) }
    {
        *self = self.without(struck);
    }

    /// This set without the rooms of the other one.
    fn without(&self, struck: &RoomSet) -> RoomSet
        ensures { (i : ℕ) → member result.words i ≡ (member self.now.words i && not (member struck.now.words i)) }
    {
        RoomSet {
            words: std::array::from_fn(|k| self.words[k] & !struck.words[k]),
        }
    }

    /// How many rooms are in both sets.
    pub fn shared(&self, other: &RoomSet) -> u32
        ensures { result ≡ shared_below 384 self.now.words other.now.words }
    {
        count_shared(&self.words, &other.words)
    }
}

/// How many rooms are in both sets. Of an array that is passed a proof knows that each word fits its type.
fn count_shared(one: &[u64; WORDS], two: &[u64; WORDS]) -> u32
    ensures { result ≡ shared_below 384 one.now two.now }
{
    one.iter().zip(two).map(|(a, b)| (a & b).count_ones()).sum()
}
