// Compares what no other test can, since no function exports it: each step of a sweep whose record is lent, a line each of standard input. tests/cases compares all
// else over the exported functions.
#![tactic(auto)]

ghost use Rattle.std.specs.Prelude.{◌≡◌};
ghost use Rattle.std.specs.Counts.{IsPrefixLen};
ghost use Rattle.sweep.specs.Sweep.{turn, stepped};

use program_words::tables;
use std::io::{Print, Read};
use sweep::{Step, Sweep};
use text::{Feature, Profile};

// ---- what is said

fn say(host: HostRuntime, what: &[u8]) {
    let _ = Print::write_all(&host.stdout(), what);
}

fn say_decimal(host: HostRuntime, n: u64) {
    let _ = host.print(n);
}

// The title of a case, and whether it is right.
fn say_case(host: HostRuntime, title: &[u8], right: bool) {
    say(host, title);
    if right {
        say(host, b"| ok\n");
        return;
    }
    say(host, b"| WRONG\n");
}

// How many bytes of a, from the first on, are those of b.
fn agreeing(a: &[u8], b: &[u8]) -> usize {
    let mut i = 0;
    while i < a.len() {
        if a[i] != fields::byte(b, i) {
            return i;
        }
        i += 1;
    }
    i
}

// Whether as many bytes of b as a has are those of a.
fn same(a: &[u8], b: &[u8]) -> bool {
    agreeing(a, b) == a.len()
}

// ---- a sweep whose record is lent

// The value of a hexadecimal digit, 16 for any other byte.
fn value(byte: u8) -> u8 {
    match byte {
        b'0'..=b'9' => byte - b'0',
        b'A'..=b'F' => byte - b'A' + 10,
        _ => 16,
    }
}

// Adds a digit to bytes that so many digits were put to; what is none, or has no room, adds nothing.
fn put_digit(out: &mut [u8], digits: usize, byte: u8) -> usize {
    let digit = value(byte);
    if digit == 16 {
        return digits;
    }
    let at = digits / 2;
    if out.len() <= at {
        return digits;
    }
    out[at] = out[at] % 16 * 16 + digit % 16;
    digits + 1
}

// Puts the bytes that hexadecimal digits spell, over zeros, and counts them.
fn spelt(text: &[u8], out: &mut [u8]) -> usize {
    let mut digits = 0;
    let mut i = 0;
    while i < text.len() {
        digits = put_digit(out, digits, text[i]);
        i += 1;
    }
    digits / 2
}

// The record that 14 bytes spell.
fn record(bytes: &[u8]) -> Sweep {
    Sweep {
        rt: fields::byte(bytes, 0),
        allocation: fields::get2(bytes, 1),
        next: Feature(fields::get2(bytes, 3)),
        commands: fields::get4(bytes, 5),
        collected: fields::get2(bytes, 9) as usize,
        ended: fields::byte(bytes, 11) != 0,
        profile: Profile(fields::get2(bytes, 12)),
    }
}

// The same back, behind a refusal's number.
fn put_front(out: &mut [u8], number: u8, sweep: Sweep) -> usize {
    let next = sweep.next;
    let a = lent::put(out, 0, number);
    let b = lent::put(out, a, sweep.rt);
    let c = lent::put2(out, b, sweep.allocation);
    lent::put2(out, c, next.0)
}

fn put_rest(out: &mut [u8], at: usize, sweep: Sweep) -> usize {
    let profile = sweep.profile;
    let a = lent::put4(out, at, sweep.commands);
    let b = lent::put2(out, a, (sweep.collected % 65536) as u16);
    let c = lent::put(out, b, sweep.ended as u8);
    lent::put2(out, c, profile.0)
}

fn put_step(out: &mut [u8], step: Step) -> usize {
    let refusal = step.refusal;
    let at = put_front(out, refusal.number, step.sweep);
    put_rest(out, at, step.sweep)
}

// The step by the entry that is lent the record.
fn lent_step(start: Sweep, response: &[u8], out: &mut [u8]) -> Step
    ensures { turn result out.new ≡ stepped start response.now out.old }
{
    let mut record = start;
    let refusal = sweep::take_response(&mut record, response, out);
    Step {
        refusal: refusal,
        sweep: record,
    }
}

// Whether a step leaves this number, record and buffer, with as much of the memory as is wanted back, all bytes EEh.
fn stepped_so(
    before: &[u8],
    response: &[u8],
    after: &[u8],
    want: &[u8],
    memory: &mut [u8],
) -> bool {
    let room = want.len();
    if memory.len() < room {
        return false;
    }
    let mut got = [0u8; 15];
    let step = lent_step(record(before), response, &mut memory[..room]);
    put_step(&mut got, step);
    if !same(&got, after) {
        return false;
    }
    same(want, memory)
}

// The first field of a line, and what stands behind it.
fn field(line: &[u8]) -> &[u8] {
    tables::before(line, 0, b'|')
}

fn behind(line: &[u8]) -> &[u8] {
    let first = field(line);
    fields::part(line, first.len() + 1, line.len())
}

// Runs a line: title, record, response, number and record, buffer.
fn right_case(host: HostRuntime, line: &[u8]) -> bool {
    let mut before = [0u8; 14];
    let mut response = [0u8; 64];
    let mut after = [0u8; 15];
    let mut want = [0u8; 64];
    let mut memory = [0xEEu8; 64];
    let title = field(line);
    let start = behind(line);
    let sent = behind(start);
    let end = behind(sent);
    spelt(field(start), &mut before);
    let received = spelt(field(sent), &mut response);
    spelt(field(end), &mut after);
    let length = spelt(behind(end), &mut want);
    let right = stepped_so(
        &before,
        fields::part(&response, 0, received),
        &after,
        fields::part(&want, 0, length),
        &mut memory,
    );
    say_case(host, title, right);
    right
}

// ---- all cases

// Whether a line is a case, and no comment.
fn is_case(line: &[u8]) -> bool {
    fields::byte(line, 0) != b'#'
}

fn right_line(host: HostRuntime, line: &[u8]) -> bool {
    if !is_case(line) {
        return false;
    }
    right_case(host, line)
}

// One more, if it counts.
fn more(n: u64, counts: bool) -> u64 {
    if !counts {
        return n;
    }
    if n < 0xFFFFFFFF {
        return n + 1;
    }
    n
}

// Runs every line, and says how many of how many cases are right.
fn lines(host: HostRuntime, s: &[u8]) {
    let mut cases: u64 = 0;
    let mut right: u64 = 0;
    let mut at = 0;
    while at < s.len() {
        let line = tables::line_at(s, at);
        cases = more(cases, is_case(line));
        right = more(right, right_line(host, line));
        at = at + line.len() + 1;
    }
    say_decimal(host, right);
    say(host, b" of ");
    say_decimal(host, cases);
    say(host, b" lines ok\n");
}

// Reads standard input until the buffer is full, the input ends or a read fails.
fn read_full(host: HostRuntime, buf: &mut [u8]) -> usize
    ensures { IsPrefixLen result buf.new }
{
    let mut done = 0;
    while done < buf.len() {
        match host.stdin().read(&mut buf[done..]) {
            Ok(0) => break,
            Ok(more) => done += more,
            Err(_) => break,
        }
    }
    done
}

fn main(host: HostRuntime) {
    let mut input = [0u8; 8192];
    let received = read_full(host, &mut input);
    lines(host, &input[..received]);
}
