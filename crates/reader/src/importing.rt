// Writes the drive sheet of a captured response to RT 0 from 0 to standard output. A refusal is a line on standard error, and nothing is written then.
use super::refusing;
use program_io::streams;

pub fn import(host: HostRuntime, s: &[u8]) {
    let mut sheet = [0u8; program_room::LONGEST_SHEET];
    let imported = program_room::sheet_of(s, &mut sheet);
    let refusal = imported.refusal;
    if refusal.number != 0 {
        refusing::say_capture(host, refusal, s);
        return;
    }
    let count = imported.count;
    streams::say(host, &sheet[..count]);
}
