// A row of places as a cable.
ghost use Rattle.std.specs.Prelude.{◌≡◌, ◌+◌, ◌*◌, ◌^◌, ◌<◌, ◌≤◌, IfSome, is_some, if◌then◌else◌, length, vec_len, nat_lt, slice_get, slice_index};
ghost use Rattle.cable.specs.Bounds.{most_pairs, most_ticks};
ghost use Rattle.cable.specs.Model.{pairs_of, no_line, line_at, numbered};
ghost use Rattle.reel.specs.Rings.{empty_pair, pair_at, ring_at, spot};
ghost use Rattle.reel.specs.Rows.{held_said, laid, line_of, nth_of, one_tick_on, parts_of, row_model, with_newest, without_oldest};
ghost use Rattle.reel.specs.Shows.{sound, row_formed};

use super::Row;
use crate::place::{Carried, Pair, Place};
use crate::reuse::Reuse;
use arrayvec::ArrayVec;
use cable::refusal::CableRefusal;
use cable::{Cable, MOST_PAIRS, MOST_TICKS};
use std::marker::PhantomData;

// So many pairs that hold nothing, each with its delay.
fn empty_pairs(count: usize, delays: [u16; MOST_PAIRS]) -> ArrayVec<Pair, MOST_PAIRS>
    requires { count ≤ most_pairs }
    ensures { result.items ≡ numbered count (λ p. empty_pair (slice_index delays p)) }
{
    let mut pairs = ArrayVec::new();
    for delay in &delays[..count] {
        pairs.push(Pair::new(*delay));
    }
    pairs
}

impl<P: Reuse> Row<P> {
    /// Lays a cable over a row of places, of which each pair has an equal share; a remainder is not used. Fewer pairs than 1
    /// count as 1, more than a cable may have as that many, and so do more ticks. Nothing is held.
    pub fn new(row: Vec<Place>, pairs: usize, ticks: u64, delays: [u16; MOST_PAIRS]) -> Row<P>
        ensures { row_model P.Reuse.reused result ≡ laid P.Reuse.reused (vec_len row) pairs ticks delays }
    {
        let count = pairs.clamp(1, MOST_PAIRS);
        let share = row.len() / count;
        Row {
            places: row,
            pairs: empty_pairs(count, delays),
            share,
            clock: 0,
            left: ticks.min(MOST_TICKS),
            reuse: PhantomData,
        }
    }

    // The pair of this number, if there is one, and what the cable then shows of it.
    fn find(&self, pair: usize) -> Option<Pair>
        ensures value { result ≡ slice_get self.now.pairs.items pair }
        ensures counted { is_some result ≡ nat_lt pair (pairs_of (row_model P.Reuse.reused self.now)) }
        ensures shows { line_at (row_model P.Reuse.reused self.now) pair ≡ (if is_some result then line_of (parts_of P.Reuse.reused self.now) pair else no_line) }
        ensures found { IfSome result (λ found. (pair < length self.now.pairs.items) × (found ≡ pair_at self.now.pairs.items pair)) }
    {
        self.pairs.get(pair).copied()
    }

    // Where the place of the k-th byte of a pair stands in the row. That the pair is there is asked here and in the two that
    // change the row, since a value that proves it would hold the row's borrow through the change.
    fn spot(&self, pair: usize, k: usize) -> usize
        requires there { pair < length self.now.pairs.items }
        requires within { k < self.now.share }
        ensures value { result ≡ spot self.now.share pair (ring_at self.now.pairs.items pair).head k }
        ensures below { result < vec_len self.now.places }
    {
        pair * self.share + self.pairs[pair].ring.place(self.share, k)
    }

    // The place of the k-th byte that a pair holds.
    fn nth(&self, pair: usize, k: usize) -> Option<Place>
        ensures { result ≡ nth_of (parts_of P.Reuse.reused self.now) pair k }
    {
        (k < self.pairs.get(pair)?.ring.count).then(|| self.places[self.spot(pair, k)])
    }

    // The k-th byte that a pair holds, and its age.
    fn held(&self, pair: usize, k: usize) -> Option<Carried>
        ensures value { result ≡ held_said (row_model P.Reuse.reused self.now) pair k }
        ensures bound { IfSome result (λ carried. carried.age ≤ most_ticks) }
    {
        let Place { byte, tick } = self.nth(pair, k)?;
        Some(Carried {
            byte,
            age: self.clock - tick,
        })
    }

    // One tick passes.
    fn spend(&mut self)
        requires { 0 < self.old.left }
        ensures { row_model P.Reuse.reused self.new ≡ one_tick_on (row_model P.Reuse.reused self.old) }
    {
        self.left -= 1;
        self.clock += 1;
    }

    // Puts a byte behind those that a pair holds.
    fn store(&mut self, pair: usize, byte: u8)
        requires there { pair < length self.old.pairs.items }
        requires room { (ring_at self.old.pairs.items pair).used < self.old.share }
        ensures { row_model P.Reuse.reused self.new ≡ with_newest (row_model P.Reuse.reused self.old) pair byte }
    {
        let ring = self.pairs[pair].ring;
        let spot = self.spot(pair, ring.count);
        self.places[spot] = Place {
            byte,
            tick: self.clock,
        };
        self.pairs[pair].ring = ring.with_newest();
    }

    // Lets go of the oldest byte that a pair holds.
    fn let_go(&mut self, pair: usize)
        requires there { pair < length self.old.pairs.items }
        requires some { 1 ≤ (ring_at self.old.pairs.items pair).count }
        ensures { row_model P.Reuse.reused self.new ≡ without_oldest (row_model P.Reuse.reused self.old) pair }
    {
        let ring = self.pairs[pair].ring;
        self.pairs[pair].ring = ring.without_oldest(self.share, P::is_reused());
    }
}

impl<P: Reuse> Cable for Row<P> {
    ghost model = { row_model P.Reuse.reused };

    ghost formed = { λ c. row_formed (parts_of P.Reuse.reused c) (sound P.Reuse.reused c) };

    fn put(&mut self, pair: usize, byte: u8) -> Result<(), CableRefusal> {
        let found = self.find(pair).ok_or(CableRefusal::PairAbsent)?;
        if found.ring.used >= self.share {
            return Err(CableRefusal::NoPlace(pair));
        }
        self.store(pair, byte);
        Ok(())
    }

    fn tick(&mut self) -> Result<(), CableRefusal> {
        if self.left == 0 {
            return Err(CableRefusal::NoTick);
        }
        self.spend();
        Ok(())
    }

    fn take(&mut self, pair: usize) -> Option<u8> {
        let byte = self.peek(pair)?;
        self.let_go(pair);
        Some(byte)
    }

    fn peek(&self, pair: usize) -> Option<u8> {
        let Carried { byte, age } = self.held(pair, 0)?;
        (age >= u64::from(self.delay(pair))).then_some(byte)
    }

    fn since(&self, pair: usize, k: usize) -> Option<i64> {
        let age = self.held(pair, k)?.age;
        Some(age as i64 - i64::from(self.delay(pair)))
    }

    fn pairs(&self) -> usize {
        self.pairs.len()
    }

    fn left(&self) -> u64 {
        self.left
    }

    fn free(&self, pair: usize) -> usize {
        self.find(pair)
            .map_or(0, |found| self.share - found.ring.used)
    }

    fn delay(&self, pair: usize) -> u16 {
        self.find(pair).map_or(0, |found| found.delay)
    }
}
