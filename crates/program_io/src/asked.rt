// What the arguments of a program ask of a response: the RT and the starting feature number of the command that it answers, and the allocation length, if that is
// given. They are a program's first three arguments, as `streams` takes them.
use super::streams;
use refusal::Refusal;
use text::{Feature, Header};

// RT, 0 where there is no argument.
pub fn rt(host: HostRuntime) -> u8 {
    (streams::arg(host, 1) % 256) as u8
}

// The starting feature number, 0 where there is no argument.
pub fn from(host: HostRuntime) -> Feature {
    Feature(streams::arg(host, 2))
}

// Whether nothing else is asked than a reading of RT 0 from 0.
pub fn plain(host: HostRuntime) -> bool {
    if streams::given(host, 3) {
        return false;
    }
    if streams::arg(host, 1) != 0 {
        return false;
    }
    streams::arg(host, 2) == 0
}

// The most bytes that the command lets through: C where an allocation length is given, else those that any response may have.
pub fn most(host: HostRuntime) -> usize {
    if streams::given(host, 3) {
        return text::most(streams::arg(host, 3));
    }
    Header::RETURN_LIMIT
}

// What is refused of a response to a command with an allocation length: as in a sweep, too many bytes, or too few for one that is cut.
fn fault_at_length(host: HostRuntime, allocation: u16, s: &[u8]) -> Refusal {
    let most = text::most(allocation);
    let scan = reading::scan(most, rt(host), from(host), s);
    let reading = scan.reading;
    let fault = reading.refusal;
    if fault.number != 0 {
        return fault;
    }
    if reading.complete {
        return fault;
    }
    if s.len() < most {
        return refusal::CUT_SHORT;
    }
    fault
}

// What is refused of a response to the command that is asked for.
pub fn fault(host: HostRuntime, s: &[u8]) -> Refusal {
    if streams::given(host, 3) {
        return fault_at_length(host, streams::arg(host, 3), s);
    }
    let reading = reading::read(rt(host), from(host), s);
    reading.refusal
}
