//! Operators of SQL's logic, on the answers of a byte at a time.

ghost use Rattle.std.specs.Prelude.{◌≡◌, ◌&&◌, ◌||◌, Bool, Option, Some, not, refl};
ghost use Rattle.std.specs.Bool.{beq};
ghost use Rattle.fl_bitmaps.specs.Answers.{and_of, or_of, xor_of};
ghost use Rattle.fl_bitmaps.specs.Operators.{IsJoin};

/// A byte of which each bit says that an answer is known.
pub(crate) const ALL_KNOWN: u8 = u8::MAX;

/// Eight answers, a bit each, and which of them are known.
#[derive(Clone, Copy)]
pub(crate) struct Answers {
    pub bits: u8,
    pub known: u8,
}

/// An operator on answers.
pub(crate) trait Operator {
    ghost of: { Option Bool → Option Bool → Option Bool };

    /// The answers of a byte, joined with those of another one.
    fn join(left: Answers, right: Answers) -> Answers
        ensures { IsJoin of left right result };

    // Of known answers the result is known.
    ghost known: { (a b : Bool) → (c : Bool) × (of (Some a) (Some b) ≡ Some c) };
}

/// Whether both are true.
pub(crate) struct And;

impl Operator for And {
    ghost of = { and_of };

    ghost known = { λ a b. (a && b, refl) };

    fn join(left: Answers, right: Answers) -> Answers {
        let denied = left.known & !left.bits | right.known & !right.bits;
        Answers {
            bits: left.bits & right.bits,
            known: left.known & right.known | denied,
        }
    }
}

/// Whether either is true.
pub(crate) struct Or;

impl Operator for Or {
    ghost of = { or_of };

    ghost known = { λ a b. (a || b, refl) };

    fn join(left: Answers, right: Answers) -> Answers {
        let granted = left.known & left.bits | right.known & right.bits;
        Answers {
            bits: left.bits | right.bits,
            known: left.known & right.known | granted,
        }
    }
}

/// Whether they differ.
pub(crate) struct Xor;

impl Operator for Xor {
    ghost of = { xor_of };

    ghost known = { λ a b. (not (beq a b), refl) };

    fn join(left: Answers, right: Answers) -> Answers {
        Answers {
            bits: left.bits ^ right.bits,
            known: left.known & right.known,
        }
    }
}
