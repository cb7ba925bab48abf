// Selections: which class goes next. Sets of classes are masks, bit c for class c, so that a class is a number and no enum.
ghost use Rattle.std.specs.Prelude.{◌≡◌, ℕ, Option};
ghost use Rattle.egress.specs.Mask.{SparesSeven, Within, Picks};

/// What a port asks which class goes next.
pub trait Selection {
    // the classes that this kind may ever hold back
    ghost MASK: { ℕ };

    // the classes held back now
    ghost held: { Self → ℕ };

    // the reply to each available set
    ghost pick: { Self → ℕ → Option ℕ };

    // the state after a pass
    ghost passed: { Self → Option ℕ → ℕ → ℕ → Self };

    /// The classes that this kind may ever hold back, for code.
    const MASK: u8;

    /// The same as `MASK`.
    fn may_hold() -> u8
        ensures { result ≡ MASK }
    {
        Self::MASK
    }

    /// The class that goes next of those available, or none.
    fn ask(&self, available: u8) -> Option<u8>
        ensures { result ≡ pick self.now available };

    // The three are no struct: a port has them from three places, and a kind that uses them takes them apart at once.
    /// A tick has gone by, with a class on the wire or none, frames of some classes waiting, and the gates of some open.
    fn pass(&mut self, wire: Option<u8>, waiting: u8, gates: u8)
        ensures { self.new ≡ passed self.old wire waiting gates };

    ghost spared: { SparesSeven MASK };

    ghost within: { (s : Self) → Within (held s) MASK };

    ghost picks: { (s : Self) → Picks (held s) (pick s) };
}
