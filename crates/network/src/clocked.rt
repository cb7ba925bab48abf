// A port with what it goes by: the gates that it follows, and the clock by which it does.
use crate::port::Port;
use gates::timetable::Timetable;

pub mod acts;

#[derive(Drop)]
pub struct ClockedPort<S, K> {
    pub(crate) port: Port<S>,
    pub(crate) gates: Timetable,
    pub(crate) clock: K,
}
