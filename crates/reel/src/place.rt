// Places, and which of them a pair uses.
ghost use Rattle.std.specs.Prelude.{◌≡◌, ◌+◌, ◌<◌, ◌≤◌, ◌^◌};
ghost use Rattle.reel.specs.Rings.{empty_pair, round, one_more, one_less};

/// One place of a row: a byte, and how many ticks had passed when it was put.
#[derive(Clone, Copy, Default)]
pub struct Place {
    pub byte: u8,
    pub tick: u64,
}

/// A byte that a pair holds, and how many ticks ago it was put.
#[derive(Clone, Copy)]
pub(crate) struct Carried {
    pub(crate) byte: u8,
    pub(crate) age: u64,
}

/// Which of a pair's places hold its bytes: `count` of them, from `head` on and round, oldest first; and how many of its
/// places are used.
#[derive(Clone, Copy, Default)]
pub struct Ring {
    pub head: usize,
    pub count: usize,
    pub used: usize,
}

/// A pair: its delay, and where its bytes lie.
#[derive(Clone, Copy, Default)]
pub struct Pair {
    pub delay: u16,
    pub ring: Ring,
}

impl Ring {
    // The k-th place from `head` on, of `share` places that close to a ring.
    pub(crate) fn place(self, share: usize, k: usize) -> usize
        requires head { self.head ≤ share }
        requires within { k ≤ share }
        requires fits { share < 2 ^ 63 }
        ensures { result ≡ round share self.head k }
    {
        let place = self.head + k;
        if place < share { place } else { place - share }
    }

    // The ring with a byte more, which uses a place.
    pub(crate) fn with_newest(self) -> Ring
        requires room { self.used + 1 < 2 ^ 64 }
        requires counted { self.count ≤ self.used }
        ensures { result ≡ one_more self }
    {
        Ring {
            count: self.count + 1,
            used: self.used + 1,
            ..self
        }
    }

    // The ring without its oldest byte, of `share` places.
    pub(crate) fn without_oldest(self, share: usize, reused: bool) -> Ring
        requires head { self.head ≤ share }
        requires some { 1 ≤ self.count }
        requires counted { self.count ≤ self.used }
        requires within { self.used ≤ share }
        requires fits { share < 2 ^ 63 }
        ensures { result ≡ one_less reused share self }
    {
        Ring {
            head: self.place(share, 1),
            count: self.count - 1,
            used: self.used - usize::from(reused),
        }
    }
}

impl Pair {
    // A pair that holds nothing yet.
    pub(crate) fn new(delay: u16) -> Pair
        ensures { result ≡ empty_pair delay }
    {
        Pair {
            delay,
            ring: Ring::default(),
        }
    }
}
