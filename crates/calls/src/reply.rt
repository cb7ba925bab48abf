// What the program answers to a call that is done.
ghost use Rattle.std.specs.Prelude.{Some};
ghost use Rattle.calls.specs.Texts.{offsets_text, reply_text};

use gates::list::GateList;
use std::fmt;

/// The reply to a call that is done.
#[derive(Drop)]
pub enum Reply {
    Opened,
    Placed { flow: usize, offsets: Vec<u32> },
    Added { flow: usize },
    Checked,
    Certificate { least: u32, greatest: u32 },
    Gates { list: GateList },
}

// Offsets as they are written: each behind a blank.
#[derive(Clone, Copy)]
struct Offsets<'a>(&'a [u32]);

impl fmt::Display for Offsets<'_> {
    ghost output = { λ o. Some (offsets_text o.0.now) };

    fn fmt<W: fmt::Write>(&self, f: &mut fmt::Formatter<W>) -> fmt::Result {
        for offset in self.0 {
            write!(f, " {offset}")?;
        }
        Ok(())
    }
}

impl fmt::Display for Reply {
    ghost output = { λ r. Some (reply_text r) };

    fn fmt<W: fmt::Write>(&self, f: &mut fmt::Formatter<W>) -> fmt::Result {
        match self {
            Reply::Opened => f.write_str("opened"),
            Reply::Placed { flow, offsets } => {
                let offsets = Offsets(offsets.as_slice());
                write!(f, "placed {flow} offsets{offsets}")
            }
            Reply::Added { flow } => write!(f, "added {flow}"),
            Reply::Checked => f.write_str("checked"),
            Reply::Certificate { least, greatest } => write!(f, "certificate {least} {greatest}"),
            Reply::Gates { list } => write!(f, "gates {list}"),
        }
    }
}
