// Settings that are refused.
ghost use Rattle.std.specs.Prelude.{◌≡◌, ℕ};
ghost use Rattle.egress.specs.Settings.{refusal_number};

/// The setting that lies beyond its limits.
#[derive(Clone, Copy, PartialEq, Debug)]
pub enum Refused {
    /// The slope of a shaped class: 1 to 999 thousandths of the link.
    Slope { class: u8, slope: u16 },
    /// The shift of a clock: −125 to 125 ticks.
    Shift(i16),
    /// The margin of a stepped clock: 0 to 125 ticks.
    Margin(u16),
    /// The period of a stepped clock: 1 to 65,535 ticks.
    Period(u32),
}

impl Refused {
    /// The number of the refusal: one for every setting.
    pub fn number(&self) -> u16
        ensures { result ≡ refusal_number self.now }
    {
        34
    }
}
