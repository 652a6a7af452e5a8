// Forms: what is said of numbers, in words or as JSON, each a text.
use super::{tables, words};
use program_io::streams;
use program_io::streams::{STDOUT_FILENO, say};

// Says one of two texts.
pub fn say_either(host: HostRuntime, json: bool, value: &[u8], words: &[u8]) {
    if json {
        say(host, value);
        return;
    }
    say(host, words);
}

// The words of a number that is 1 or 0.
fn say_bool(host: HostRuntime, number: u32) {
    if number == 0 {
        say(host, b"false");
        return;
    }
    say(host, b"true");
}

fn say_current(host: HostRuntime, number: u32) {
    if number != 0 {
        say(host, b", current");
    }
}

// Says a number as a letter asks: x in four hexadecimal digits, b as true or false, c as whether something is current, f and p as the name of a feature and of a profile, any other in
// decimal.
fn say_as(host: HostRuntime, letter: u8, number: u32) {
    let short = (number % 65536) as u16;
    match letter {
        b'x' => words::say_hex4(host, STDOUT_FILENO, short),
        b'b' => say_bool(host, number),
        b'c' => say_current(host, number),
        b'f' => super::names::say_feature(host, short),
        b'p' => super::names::say_profile(host, short),
        _ => streams::say_decimal(host, number as u64),
    }
}

// The number at an index, 0 where there is none.
fn number_at(numbers: &[u32], k: usize) -> u32 {
    if k < numbers.len() {
        return numbers[k];
    }
    0
}

// Says a run of a form, which but for the first one begins with the letter of a number.
fn say_run(host: HostRuntime, run: &[u8], k: usize, numbers: &[u32]) {
    if k == 0 {
        say(host, run);
        return;
    }
    say_as(host, fields::byte(run, 0), number_at(numbers, k - 1));
    say(host, fields::part(run, 1, run.len()));
}

// Says a form: a text, where a % and the letter behind it stand for the next number.
fn say_form(host: HostRuntime, form: &[u8], numbers: &[u32]) {
    let mut at = 0;
    let mut k = 0;
    while at < form.len() {
        let run = tables::before(form, at, b'%');
        say_run(host, run, k, numbers);
        at = at + run.len() + 1;
        k = k + 1;
    }
}

// Says one of two forms.
pub fn fill(host: HostRuntime, json: bool, value: &[u8], words: &[u8], numbers: &[u32]) {
    if json {
        say_form(host, value, numbers);
        return;
    }
    say_form(host, words, numbers);
}
