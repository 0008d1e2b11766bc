//! Where bytes go.

ghost use Rattle.std.specs.Prelude.{List, ℕ, [], ◌++◌};

/// Where bytes go. A function over any sink can only put bytes into it: it can neither take some back nor claim that a
/// write failed, so that what it says of `gives` it has done.
pub trait Sink {
    /// What a sink is after some bytes were put into it.
    ghost gives: { Self → List ℕ → Self → Type 0 };

    /// Puts bytes in.
    fn put(&mut self, bytes: &[u8])
        ensures { gives self.old bytes.now self.new };

    /// A sink into which nothing was put, and one into which bytes were put behind others.
    ghost none: { (s : Self) → gives s [] s };

    ghost then: { (a b c : Self) (xs ys : List ℕ) → gives a xs b → gives b ys c → gives a (xs ++ ys) c };
}
