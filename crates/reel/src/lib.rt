// Cables whose bytes lie in a row of places: the reel, which uses a place again once its byte is taken, and the tape, which
// uses each place once.
#![tactic(auto)]

pub mod place;
pub mod reuse;
pub mod row;

/// A cable that uses a place again once its byte is taken.
pub type Reel = row::Row<reuse::Again>;

/// A cable that uses each place once, and so keeps every byte that it carried.
pub type Tape = row::Row<reuse::Never>;
