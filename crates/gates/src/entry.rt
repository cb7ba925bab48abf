// One entry of a gate control list.
ghost use Rattle.std.specs.Prelude.{◌≡◌, Some};
ghost use Rattle.gates.specs.Octets.{opens};
ghost use Rattle.gates.specs.Texts.{entry_text};

use std::fmt;

/// A gate octet and the ticks for which it lasts. Bit c is 1 where the gate of class c is open.
#[derive(Clone, Copy, Debug, PartialEq, Eq)]
pub struct GateEntry {
    pub octet: u8,
    pub ticks: u32,
}

/// Whether a gate octet opens the gate of a class; there is none above 7.
#[tactic(auto, using(std::proofs::lemmas::Nat::and_mask))]
pub fn is_open(octet: u8, class: u8) -> bool
    ensures { result ≡ opens octet class }
{
    class < 8 && (octet >> class) & 1 == 1
}

impl GateEntry {
    /// Whether the gate of a class is open; there is none above 7.
    pub fn is_open(&self, class: u8) -> bool
        ensures { result ≡ opens self.now.octet class }
    {
        is_open(self.octet, class)
    }
}

/// The octet in hex, and the ticks: `0x7F*190`.
impl fmt::Display for GateEntry {
    ghost output = { λ e. Some (entry_text e) };

    #[tactic(auto, using(std::proofs::lemmas::Fmt::hex_byte))]
    fn fmt<W: fmt::Write>(&self, f: &mut fmt::Formatter<W>) -> fmt::Result {
        let GateEntry { octet, ticks } = *self;
        write!(f, "0x{octet:02X}*{ticks}")
    }
}
