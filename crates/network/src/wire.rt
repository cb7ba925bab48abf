// What is on the wire of a port.
ghost use Rattle.std.specs.Prelude.{◌≡◌, ◌-◌, if◌then◌else◌, Some, None, nat_lt};

/// The class put on the wire last, and the first tick at which the wire is free again. No `Option` of the two: a wire becomes free as time goes by, with nothing done to it.
#[derive(Clone, Copy, Default)]
pub struct Wire {
    pub class: u8,
    pub until: u64,
}

impl Wire {
    // Whether a frame is on the wire at tick t.
    pub(crate) fn is_busy(self, t: u64) -> bool
        ensures { result ≡ nat_lt t self.until }
    {
        t < self.until
    }

    // The class on the wire at tick t.
    pub(crate) fn class_at(self, t: u64) -> Option<u8>
        ensures { result ≡ (if nat_lt t self.until then Some self.class else None) }
    {
        self.is_busy(t).then_some(self.class)
    }

    // The same with its last tick: the pair that a network replies when its wire is read.
    pub(crate) fn carries(self, t: u64) -> Option<(u8, u64)>
        ensures { result ≡ (if nat_lt t self.until then Some (self.class, self.until - 1) else None) }
    {
        if self.is_busy(t) {
            Some((self.class, self.until - 1))
        } else {
            None
        }
    }
}
