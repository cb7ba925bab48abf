use crate::choice::{AnyClock, Choice, StrictOrShaper};
use crate::clock::Clock;
use crate::line::Line;
use crate::ordinary::{Frame, FrameLine};
use crate::scheduled::FlowLine;
use crate::selection::Selection;
use crate::shaper::Shaper;
use crate::shifted::Shifted;
use crate::stepped::Stepped;
use std::test::Fail;

#[test]
fn settings_at_their_limits(rt: HostRuntime) {
    let slopes = Shaper::new(1, 999).is_ok() & Shaper::new(999, 1).is_ok();
    let shifts = Shifted::new(-125).is_ok() & Shifted::new(125).is_ok();
    let steps = Stepped::new(0, 1).is_ok() & Stepped::new(125, 65_535).is_ok();
    assert!(rt; slopes & shifts & steps);
}

#[test]
fn settings_one_beyond_their_limits(rt: HostRuntime) {
    let six = Shaper::new(0, 1).is_err() & Shaper::new(1000, 1).is_err();
    let five = Shaper::new(1, 0).is_err() & Shaper::new(1, 1000).is_err();
    let shifts = Shifted::new(-126).is_err() & Shifted::new(126).is_err();
    let margins = Stepped::new(126, 1).is_err();
    let periods = Stepped::new(0, 0).is_err() & Stepped::new(0, 65_536).is_err();
    assert!(rt; six & five & shifts & margins & periods);
}

#[test]
fn a_line_goes_round_and_keeps_its_order(rt: HostRuntime) {
    let mut line = FrameLine::new();
    let mut kept = true;
    for label in 0..20u16 {
        kept = kept & line.push(Frame { octets: 64, label }).is_ok();
        if label >= 7 {
            kept = kept
                & (line.take()
                    == Some(Frame {
                        octets: 64,
                        label: label - 7,
                    }));
        }
    }
    assert!(rt; kept & (line.len() == 7));
}

#[test]
fn a_full_line_refuses(rt: HostRuntime) {
    let mut flows = FlowLine::new();
    let mut room = true;
    for flow in 0..16u8 {
        room = room & flows.push(flow).is_ok();
    }
    let mut none: [u8; 0] = [];
    let full = flows.push(16).is_err() & Line::new().push(&mut none, 1).is_err();
    assert!(rt; room & full & (flows.take() == Some(0)));
}

#[test]
fn a_shaped_class_works_off_its_debt(rt: HostRuntime) -> Result<(), Fail> {
    let Ok(shaper) = Shaper::new(250, 500) else {
        return Err(Fail::new("refused"));
    };
    let mut port: StrictOrShaper = Choice::Second(shaper);
    for _ in 0..100 {
        port.pass(Some(6), 0x40, 0xff);
    }
    for _ in 0..299 {
        port.pass(None, 0x40, 0xff);
    }
    let before = port.ask(0x60);
    port.pass(None, 0x40, 0xff);
    assert_eq!(rt; (before, port.ask(0x60)), (Some(5), Some(6)));
    Ok(())
}

#[test]
fn clocks_at_the_edges_of_time(rt: HostRuntime) -> Result<(), Fail> {
    let Ok(shifted) = Shifted::new(-10) else {
        return Err(Fail::new("refused"));
    };
    let slow: AnyClock = Choice::Second(Choice::First(shifted));
    assert_eq!(rt; (slow.read(9), slow.read(1 << 60)), (0, (1 << 48) - 10));
    Ok(())
}

#[test]
fn a_stepped_clock_starts_again_behind(rt: HostRuntime) -> Result<(), Fail> {
    let Ok(stepped) = Stepped::new(2, 3) else {
        return Err(Fail::new("refused"));
    };
    assert_eq!(rt;
        (stepped.read(12), stepped.read(14), stepped.read(15)),
        (14, 16, 13)
    );
    Ok(())
}

#[test]
fn a_choice_joins_the_masks(rt: HostRuntime) {
    let mask = <StrictOrShaper as Selection>::MASK;
    assert_eq!(rt; (mask, StrictOrShaper::may_hold()), (0x60, 0x60));
}
