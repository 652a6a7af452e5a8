// What each number means, said in the words of the one table.
use program_io::streams;
use refusal::Refusal;

fn say(host: HostRuntime, fd: i32, what: &[u8]) {
    streams::say_to(host, fd, what);
}

// Says what a refusal means: the sentence of its number.
pub fn say_meaning(host: HostRuntime, fd: i32, refusal: Refusal) {
    let mut text = [0; meanings::LONGEST];
    let count = meanings::put_words(refusal.number, &mut text);
    say(host, fd, fields::part(&text, 0, count));
}

// An upper-case hexadecimal digit.
fn digit(d: u16) -> u8 {
    let digits = *b"0123456789ABCDEF";
    digits[(d % 16) as usize]
}

// Four upper-case hexadecimal digits.
pub fn say_hex4(host: HostRuntime, fd: i32, n: u16) {
    let text = [digit(n / 4096), digit(n / 256), digit(n / 16), digit(n)];
    say(host, fd, &text);
}

// Two of them.
pub fn say_byte(host: HostRuntime, fd: i32, b: u8) {
    let text = [digit(b as u16 / 16), digit(b as u16)];
    say(host, fd, &text);
}

// The line of a sheet that a refusal names, if it names one: of so many profiles, or with this feature number.
fn say_line(host: HostRuntime, fd: i32, refusal: Refusal, profiles: u64, feature: u16) {
    if refusal.place == 0 {
        return;
    }
    if refusal.number == refusal::PROFILE_BAD.number {
        say(host, fd, b" at profile ");
        streams::say_decimal_to(host, fd, refusal.place as u64);
        say(host, fd, b" of ");
        streams::say_decimal_to(host, fd, profiles);
        return;
    }
    say(host, fd, b" at entry ");
    streams::say_decimal_to(host, fd, refusal.place as u64);
    say(host, fd, b", feature ");
    say_hex4(host, fd, feature);
    say(host, fd, b"h");
}

// Says `refused`, the number, the line at fault of a sheet with so many profiles, whose entry there has this feature number, and what the number means.
pub fn say_refused(host: HostRuntime, fd: i32, refusal: Refusal, profiles: u64, feature: u16) {
    say(host, fd, b"refused ");
    streams::say_decimal_to(host, fd, refusal.number as u64);
    say_line(host, fd, refusal, profiles, feature);
    say(host, fd, b": ");
    say_meaning(host, fd, refusal);
    say(host, fd, b"\n");
}
