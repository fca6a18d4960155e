// Whether a place is used again once its byte is taken.
ghost use Rattle.std.specs.Prelude.{◌≡◌, Bool, true, false};

/// What becomes of a place whose byte is taken.
pub trait Reuse {
    ghost reused: { Bool };

    /// Whether the place is used again.
    // A method, since a constant is no plainer: its ghost member would have its name, and each contract that says `reused` another.
    fn is_reused() -> bool
        ensures { result ≡ reused };
}

/// The place is used again.
// Two types, and no `bool` as the parameter of a row: `Row<Again>` says what `Row<true>` would not.
pub struct Again;

/// The place is not used again.
pub struct Never;

impl Reuse for Again {
    ghost reused = { true };

    fn is_reused() -> bool {
        true
    }
}

impl Reuse for Never {
    ghost reused = { false };

    fn is_reused() -> bool {
        false
    }
}
