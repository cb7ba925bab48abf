// What is shown of lines, selections and clocks of every kind.
ghost use Rattle.std.specs.Prelude.{◌≡◌, ℕ, ◌^◌, ◌≤◌, Some, None, Option};
ghost use Rattle.egress.specs.Figures.{Gains, Spends, Quarter, QuarterOfFive, Stops};
ghost use Rattle.egress.specs.Laws.{LineLaws};
ghost use Rattle.egress.specs.Mask.{Within};
ghost use Rattle.egress.specs.Times.{apart};

use crate::clock::Clock;
use crate::selection::Selection;

/// The laws of a waiting line hold, whatever waits in it.
pub fn line_laws_stand<T>()
    ensures { LineLaws T }
{}

/// What a shaped class gains and spends, and the figures.
pub fn shaper_figures_stand()
    ensures gains { Gains }
    ensures spends { Spends }
    ensures six { Quarter }
    ensures five { QuarterOfFive }
    ensures stops { Stops }
{}

// Asks any selection. Where class 7 alone is available, the reply is 7.
fn asked<S: Selection>(selection: &S, available: u8) -> Option<u8>
    ensures reply { result ≡ S.Selection.pick selection.now available }
    ensures seven { available ≡ 128 → result ≡ Some 7 }
{
    selection.ask(available)
}

/// Asks any selection twice. It gives one answer, and where class 7 alone is available that is 7.
pub fn ask_twice<S: Selection>(selection: &S, available: u8) -> (Option<u8>, Option<u8>)
    ensures reply { result.0 ≡ S.Selection.pick selection.now available }
    ensures again { result.1 ≡ result.0 }
    ensures seven { available ≡ 128 → result.0 ≡ Some 7 }
{
    let first = asked(selection, available);
    let second = asked(selection, available);
    (first, second)
}

/// Asks any selection, and lets a tick go by with the class that it replied on the wire.
pub fn ask_and_pass<S: Selection>(
    selection: &mut S,
    available: u8,
    waiting: u8,
    gates: u8,
) -> Option<u8>
    ensures reply { result ≡ S.Selection.pick selection.old available }
    ensures after { selection.new ≡ S.Selection.passed selection.old result waiting gates }
    ensures within { Within (S.Selection.held selection.new) S.Selection.MASK }
{
    let class = selection.ask(available);
    selection.pass(class, waiting, gates);
    class
}

/// How far any clock is off at the true tick t: at most its bound, from that bound up to 2^48.
pub fn error_at<K: Clock>(clock: &K, t: u64) -> u64
    ensures off { result ≡ apart t (K.Clock.reading clock.now t) }
    ensures near { K.Clock.bound clock.now ≤ t → t ≤ 2 ^ 48 → result ≤ K.Clock.bound clock.now }
{
    clock.read(t).abs_diff(t)
}
