// How a gate list is written.
ghost use Rattle.std.specs.Prelude.{Some};
ghost use Rattle.gates.specs.Texts.{list_text};

use super::GateList;
use std::fmt;

/// The entries, parted by blanks: `0x7F*190 0x00*20`.
impl fmt::Display for GateList {
    ghost output = { λ l. Some (list_text l.entries.items) };

    fn fmt<W: fmt::Write>(&self, f: &mut fmt::Formatter<W>) -> fmt::Result {
        let Some((first, rest)) = self.entries().split_first() else {
            return Ok(());
        };
        write!(f, "{first}")?;
        for entry in rest {
            write!(f, " {entry}")?;
        }
        Ok(())
    }
}
