// What every program does at its ends: it takes its arguments, reads its input, writes its output, and says how it went to the front-end that started it. What reaches
// the system is handed `host`, the runtime that main is given: itself, since of the bounds that stand for its parts none writes bytes to standard error, and a name of a file
// may be any bytes.
ghost use Rattle.std.specs.Prelude.{◌≡◌};
ghost use Rattle.std.specs.Counts.{IsPrefixLen};

use std::env::{Env, FillError};
use std::fs::{File, OpenOptions};
use std::io;
use std::io::{ErrorKind, Print, Read, Write};

// ---- descriptors, by the numbers that the front-end knows them by

pub const STDOUT_FILENO: i32 = 1;

pub const STDERR_FILENO: i32 = 2;

// The descriptor that the front-end reads the marks from.
const MARKS: i32 = 3;

// The name by which a descriptor that the front-end has opened is opened once more, that of the marks or of a response; any other has none.
fn name_of(fd: i32) -> &'static str {
    match fd {
        MARKS => "/dev/fd/3",
        5 => "/dev/fd/5",
        _ => "",
    }
}

// Opens such a descriptor once more, to write behind all that was written there before.
fn opened(host: HostRuntime, fd: i32) -> io::Result<File> {
    OpenOptions::new().append(true).open(&host, name_of(fd))
}

fn append(host: HostRuntime, fd: i32, what: &[u8]) -> io::Result<()> {
    let mut file = opened(host, fd)?;
    file.write_all(what)
}

fn append_decimal(host: HostRuntime, fd: i32, n: u64) -> io::Result<()> {
    let mut file = opened(host, fd)?;
    write!(file, "{n}")
}

fn write_all(host: HostRuntime, fd: i32, what: &[u8]) -> io::Result<()> {
    match fd {
        STDOUT_FILENO => Print::write_all(&host.stdout(), what),
        STDERR_FILENO => Print::write_all(&host.stderr(), what),
        _ => append(host, fd, what),
    }
}

fn print_decimal(host: HostRuntime, fd: i32, n: u64) -> io::Result<()> {
    match fd {
        STDOUT_FILENO => host.stdout().print(n),
        STDERR_FILENO => host.stderr().print(n),
        _ => append_decimal(host, fd, n),
    }
}

// ---- marks: a program has no exit status, so it says on a descriptor of its own how it went

// Only a program that was started with arguments makes marks: with none, nobody reads them.
fn mark(host: HostRuntime, what: &[u8]) {
    if is_there(host, 1) {
        let _ = write_all(host, MARKS, what);
    }
}

// Something is refused, a fault was found, or a feature is missing; the program has said so.
pub fn mark_fault(host: HostRuntime) {
    mark(host, b"1");
}

// The program came to its end: without this mark it did not.
pub fn mark_end(host: HostRuntime) {
    mark(host, b".");
}

// ---- input and output

// What was read: how many bytes, none where reading failed.
#[derive(Clone, Copy)]
pub struct Input {
    pub failed: bool,
    pub count: usize,
}

// Nothing was read, and a mark says so.
pub fn not_read(host: HostRuntime) -> Input
    ensures { result.count ≡ 0 }
{
    mark(host, b"r");
    Input {
        failed: true,
        count: 0,
    }
}

// Reads until the buffer is full or the input ends, and then closes what it reads from.
fn filled<R: Read + Drop>(mut from: R, buf: &mut [u8]) -> Input
    ensures { IsPrefixLen result.count buf.new }
{
    let mut done = 0;
    while done < buf.len() {
        match from.read(&mut buf[done..]) {
            Ok(0) => break,
            Ok(more) => done += more,
            Err(_) => {
                return Input {
                    failed: true,
                    count: 0,
                };
            }
        }
    }
    Input {
        failed: false,
        count: done,
    }
}

// The same, and where a read fails, a mark says so: once a file that has the descriptor of the marks is closed.
pub fn read_from<R: Read + Drop>(host: HostRuntime, from: R, buf: &mut [u8]) -> Input
    ensures { IsPrefixLen result.count buf.new }
{
    let got = filled(from, buf);
    if got.failed {
        return not_read(host);
    }
    got
}

// Reads standard input.
pub fn read(host: HostRuntime, buf: &mut [u8]) -> Input
    ensures { IsPrefixLen result.count buf.new }
{
    read_from(host, host.stdin(), buf)
}

// Opens the file that an argument names.
pub fn open_named(host: HostRuntime, i: usize) -> io::Result<File> {
    let mut name = [0u8; NAME];
    let length = word(host, i, &mut name);
    match str::from_utf8(&name[..length]) {
        Ok(path) => File::open(&host, path),
        Err(_) => Err(io::Error::from(ErrorKind::InvalidFilename)),
    }
}

// Reads the file that an argument names.
pub fn read_named(host: HostRuntime, i: usize, buf: &mut [u8]) -> Input
    ensures { IsPrefixLen result.count buf.new }
{
    match open_named(host, i) {
        Ok(file) => read_from(host, file, buf),
        Err(_) => not_read(host),
    }
}

// Not all could be written. A pipe that nobody reads any more is no news to whoever closed it: the program has then said all that anybody hears.
fn mark_unwritten(host: HostRuntime, why: ErrorKind) {
    if why == ErrorKind::BrokenPipe {
        mark_fault(host);
        return;
    }
    mark(host, b"w");
}

// Writes to a descriptor. Where not all could be written, a mark says so.
pub fn say_to(host: HostRuntime, fd: i32, what: &[u8]) {
    if let Err(why) = write_all(host, fd, what) {
        mark_unwritten(host, why.kind());
    }
}

// Writes a number to a descriptor, as say_to does.
pub fn say_decimal_to(host: HostRuntime, fd: i32, n: u64) {
    if let Err(why) = print_decimal(host, fd, n) {
        mark_unwritten(host, why.kind());
    }
}

// Writes an argument to a descriptor.
pub fn say_arg_to(host: HostRuntime, fd: i32, i: usize) {
    let mut name = [0u8; NAME];
    let length = word(host, i, &mut name);
    say_to(host, fd, &name[..length]);
}

// Both to standard output.
pub fn say(host: HostRuntime, what: &[u8]) {
    say_to(host, STDOUT_FILENO, what);
}

pub fn say_decimal(host: HostRuntime, n: u64) {
    say_decimal_to(host, STDOUT_FILENO, n);
}

// ---- arguments

// The longest argument that is taken.
const NAME: usize = 4096;

// Puts an argument at the front, and gives its length; 0 where it is not there, or has more bytes than there is room for.
fn word(host: HostRuntime, i: usize, buf: &mut [u8]) -> usize
    ensures { IsPrefixLen result buf.new }
{
    match host.arg(i, buf) {
        Ok(length) => length,
        Err(_) => 0,
    }
}

// Whether there is an argument of this number, the program's name being 0.
pub fn is_there(host: HostRuntime, i: usize) -> bool {
    let mut first = [0u8; 1];
    match host.arg(i, &mut first) {
        Err(FillError::NotPresent) => false,
        _ => true,
    }
}

// How many arguments there are, with the program's name.
pub fn arg_count(host: HostRuntime) -> usize {
    for i in 0..usize::MAX {
        if !is_there(host, i) {
            return i;
        }
    }
    usize::MAX
}

// The value of a hexadecimal digit, 16 for any other byte.
fn value(byte: u8) -> u8 {
    match byte {
        b'0'..=b'9' => byte - b'0',
        b'A'..=b'F' => byte - b'A' + 10,
        b'a'..=b'f' => byte - b'a' + 10,
        _ => 16,
    }
}

// The number that hexadecimal digits spell; of more than four the last four count. Any other byte counts as the digit 0: the front-end passes none.
fn spelt(word: &[u8]) -> u16 {
    let mut number: u16 = 0;
    let mut i = 0;
    while i < word.len() {
        number = number % 4096 * 16 + (value(word[i]) % 16) as u16;
        i += 1;
    }
    number
}

// The number that an argument of 1 to 4 hexadecimal digits spells, 0 where there is no such argument.
pub fn arg(host: HostRuntime, i: usize) -> u16 {
    let mut digits = [0u8; 4];
    let length = word(host, i, &mut digits);
    spelt(&digits[..length])
}

// Puts the bytes that pairs of hexadecimal digits spell at the front, as far as there is room. Any other byte counts as the digit 0.
pub fn unpacked(word: &[u8], bytes: &mut [u8]) -> usize
    ensures { IsPrefixLen result bytes.new }
{
    let mut n = 0;
    while n < bytes.len() {
        if word.len() / 2 <= n {
            break;
        }
        bytes[n] = value(word[2 * n]) % 16 * 16 + value(word[2 * n + 1]) % 16;
        n += 1;
    }
    n
}

// Puts the bytes that an argument of at most 128 hexadecimal digits spells at the front, and gives their count.
pub fn arg_bytes(host: HostRuntime, i: usize, bytes: &mut [u8; 64]) -> usize
    ensures { IsPrefixLen result bytes.new }
{
    let mut digits = [0u8; 128];
    let length = word(host, i, &mut digits);
    unpacked(&digits[..length], bytes)
}

// Whether an argument is there: `-` stands for one that is not given.
pub fn given(host: HostRuntime, i: usize) -> bool {
    let mut first = [0u8; 1];
    match host.arg(i, &mut first) {
        Err(FillError::NotPresent) => false,
        _ => first[0] != b'-',
    }
}
