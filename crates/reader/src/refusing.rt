// What is said of a response that is refused.
use super::HEX;
use program_io::streams::STDOUT_FILENO;
use program_io::{asked, dumps};
use program_words::{grounds, told};
use refusal::Refusal;

// Of one that is read as the answer to the command that is asked for: to standard output.
pub fn say_asked(host: HostRuntime, fault: Refusal, s: &[u8]) {
    grounds::say_refused(
        host,
        STDOUT_FILENO,
        asked::rt(host),
        asked::from(host),
        asked::most(host),
        fault,
        s,
    );
}

// Of a capture, which answers RT 0 from 0: to standard error, with a hint.
pub fn say_capture(host: HostRuntime, refusal: Refusal, s: &[u8]) {
    told::say_capture_refused(host, refusal, s);
    dumps::hint(host, HEX, s);
}
