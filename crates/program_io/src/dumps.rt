// What is read and written at the ends of a program: an input that is given as hexadecimal text or is padded behind its end, an output that is printed as such text,
// and a hint where text, or padding, was given for a response.
ghost use Rattle.std.specs.Counts.{IsPrefixLen};

use super::streams;
use super::streams::{Input, STDERR_FILENO};
use std::io::Read;

// The longest text that is taken: 8 characters for each byte of the longest response.
const MOST: usize = 524288;

// One byte more: a text that fills it is too long, and is not shortened.
const ROOM: usize = MOST + 1;

// The longest response; a program reads one byte more.
const LONGEST: usize = 65534;

// ---- input

fn failed() -> Input {
    Input {
        failed: true,
        count: 0,
    }
}

// The file that is read, by the argument that has its name for printing; 0: none.
fn say_name(host: HostRuntime, named: usize) {
    if named > 0 {
        streams::say_arg_to(host, STDERR_FILENO, named);
        streams::say_to(host, STDERR_FILENO, b": ");
    }
}

// Words, a number, and more words.
fn say_number(host: HostRuntime, before: &[u8], number: usize, behind: &[u8]) {
    streams::say_to(host, STDERR_FILENO, before);
    streams::say_decimal_to(host, STDERR_FILENO, number as u64);
    streams::say_to(host, STDERR_FILENO, behind);
}

// Something is wrong with the text that is read.
fn blame(host: HostRuntime, named: usize) {
    streams::mark_fault(host);
    say_name(host, named);
}

fn say_line(host: HostRuntime, named: usize, line: usize) {
    blame(host, named);
    say_number(
        host,
        b"line ",
        line,
        b" spells no bytes: it is no hexadecimal text of a kind that is read here\n",
    );
}

fn say_too_many(host: HostRuntime, named: usize, count: usize) {
    blame(host, named);
    say_number(
        host,
        b"the text spells ",
        count,
        b" bytes, more than are taken here\n",
    );
}

fn say_too_long(host: HostRuntime, named: usize) {
    blame(host, named);
    streams::say_to(
        host,
        STDERR_FILENO,
        b"the text has over 524,288 characters, more than are taken here\n",
    );
}

fn say_none(host: HostRuntime, named: usize) {
    blame(host, named);
    streams::say_to(host, STDERR_FILENO, b"the text spells no byte at all\n");
}

// The bytes that a text spells.
fn spelt(host: HostRuntime, named: usize, text: &[u8], buf: &mut [u8]) -> Input {
    let spelt = hex_text::spell(text, buf);
    if spelt.line != 0 {
        say_line(host, named, spelt.line);
        return failed();
    }
    let count = spelt.count;
    if count == 0 {
        say_none(host, named);
        return failed();
    }
    if buf.len() < count {
        say_too_many(host, named, count);
        return failed();
    }
    Input {
        failed: false,
        count: count,
    }
}

// A text of at most so many characters, and the bytes that it spells.
fn spelt_within(host: HostRuntime, named: usize, text: &[u8], buf: &mut [u8]) -> Input {
    if text.len() > MOST {
        say_too_long(host, named);
        return failed();
    }
    spelt(host, named, text, buf)
}

// Bytes that stand for themselves, as many as there is room for.
fn taken(bytes: &[u8], buf: &mut [u8]) -> Input {
    Input {
        failed: false,
        count: lent::copy(buf, 0, bytes),
    }
}

// Whether these are bytes of a response and no text, where that may be: a response begins with a byte 0, and no text has one.
fn is_bytes(plain: bool, s: &[u8]) -> bool {
    if !plain {
        return false;
    }
    if s.len() == 0 {
        return false;
    }
    fields::byte(s, 0) == 0
}

// The bytes that a text spells; or these bytes, where they may stand for themselves.
fn bytes_of(host: HostRuntime, plain: bool, named: usize, s: &[u8], buf: &mut [u8]) -> Input {
    if is_bytes(plain, s) {
        return taken(s, buf);
    }
    spelt_within(host, named, s, buf)
}

// Reads a text into lent memory, and gives its bytes.
fn read_into<R: Read + Drop>(
    host: HostRuntime,
    plain: bool,
    named: usize,
    from: R,
    text: &mut [u8; ROOM],
    buf: &mut [u8],
) -> Input {
    let got = streams::read_from(host, from, text);
    if got.failed {
        return failed();
    }
    bytes_of(host, plain, named, fields::part(text, 0, got.count), buf)
}

// Only a function that reads a text has the memory for one.
fn read_text<R: Read + Drop>(
    host: HostRuntime,
    plain: bool,
    named: usize,
    from: R,
    buf: &mut [u8],
) -> Input {
    let mut text = [0u8; ROOM];
    read_into(host, plain, named, from, &mut text, buf)
}

// What was read, which the buffer has.
fn within(got: Input, buf: &[u8]) -> Input
    ensures { IsPrefixLen result.count buf.now }
{
    let part = fields::part(buf, 0, got.count);
    Input {
        failed: got.failed,
        count: part.len(),
    }
}

// Standard input: bytes, or where argument i is given the bytes of a text.
fn read_all(host: HostRuntime, plain: bool, i: usize, buf: &mut [u8]) -> Input {
    if streams::given(host, i) {
        return read_text(host, plain, 0, host.stdin(), buf);
    }
    streams::read(host, buf)
}

// Without its padding, where the argument behind i says so.
fn read_trimmed(host: HostRuntime, plain: bool, i: usize, buf: &mut [u8]) -> Input
    ensures { IsPrefixLen result.count buf.new }
{
    let got = read_all(host, plain, i, buf);
    let kept = trimmed(host, i, 0, got, buf);
    within(kept, buf)
}

// Reads standard input: bytes, or where argument i is given the bytes that a text spells. Where the argument behind it is given, no more of these than a response has by
// its own Data Length.
pub fn read(host: HostRuntime, i: usize, buf: &mut [u8]) -> Input
    ensures { IsPrefixLen result.count buf.new }
{
    read_trimmed(host, false, i, buf)
}

// As read, but where argument i is given the input may be bytes all the same: that argument then speaks of what is written.
pub fn read_either(host: HostRuntime, i: usize, buf: &mut [u8]) -> Input
    ensures { IsPrefixLen result.count buf.new }
{
    read_trimmed(host, true, i, buf)
}

fn read_named_text(host: HostRuntime, file: usize, named: usize, buf: &mut [u8]) -> Input {
    match streams::open_named(host, file) {
        Ok(from) => read_text(host, false, named, from, buf),
        Err(_) => streams::not_read(host),
    }
}

fn read_all_named(host: HostRuntime, i: usize, file: usize, named: usize, buf: &mut [u8]) -> Input {
    if streams::given(host, i) {
        return read_named_text(host, file, named, buf);
    }
    streams::read_named(host, file, buf)
}

// Reads the file that an argument names, as read does; another argument has its name for printing.
pub fn read_named(host: HostRuntime, i: usize, file: usize, named: usize, buf: &mut [u8]) -> Input
    ensures { IsPrefixLen result.count buf.new }
{
    let got = read_all_named(host, i, file, named, buf);
    let kept = trimmed(host, i, named, got, buf);
    within(kept, buf)
}

// ---- padding: some adapters do not tell how many bytes came, and what is behind the response is then read with it

// How many bytes a response has by its own Data Length, 0 where no response has such a one.
fn own_length(s: &[u8]) -> usize {
    if s.len() < 8 {
        return 0;
    }
    let length = fields::get4(s, 0);
    if length < 4 {
        return 0;
    }
    if length % 4 != 0 {
        return 0;
    }
    length as usize + 4
}

// What stands behind these: nothing where there is no Data Length.
fn behind(s: &[u8]) -> &[u8] {
    let own = own_length(s);
    if own == 0 {
        return fields::part(s, 0, 0);
    }
    fields::part(s, own, s.len())
}

fn is_zero(s: &[u8]) -> bool {
    let mut i = 0;
    while i < s.len() {
        if s[i] != 0 {
            return false;
        }
        i += 1;
    }
    true
}

// What trimming left out is told where it is no mere padding.
fn say_left_out(host: HostRuntime, named: usize, count: usize) {
    say_name(host, named);
    say_number(
        host,
        b"--trim left out ",
        count,
        b" bytes behind the response that are not all 0\n",
    );
}

// So many bytes of a response that has padding.
fn cut_off(host: HostRuntime, named: usize, s: &[u8], rest: &[u8]) -> Input {
    if !is_zero(rest) {
        say_left_out(host, named, rest.len());
    }
    Input {
        failed: false,
        count: own_length(s),
    }
}

fn trim(host: HostRuntime, named: usize, got: Input, s: &[u8]) -> Input {
    let rest = behind(s);
    if rest.len() == 0 {
        return got;
    }
    cut_off(host, named, s, rest)
}

// What was read without its padding, where the argument behind i says so.
fn trimmed(host: HostRuntime, i: usize, named: usize, got: Input, buf: &[u8]) -> Input {
    if !streams::given(host, i % 256 + 1) {
        return got;
    }
    trim(host, named, got, fields::part(buf, 0, got.count))
}

// ---- a hint

// A character that is printed, or white space.
fn is_printed(c: u8) -> bool {
    match c {
        b' '..=b'~' => true,
        b'\t'..=b'\r' => true,
        _ => false,
    }
}

fn is_text(s: &[u8]) -> bool {
    let mut i = 0;
    while i < s.len() {
        if !is_printed(s[i]) {
            return false;
        }
        i += 1;
    }
    s.len() > 0
}

// Of a response that is longer than its own Data Length says: how many bytes it has by that, and what the others are. Of an input that is too long for a response only the
// front was read.
fn say_padded(host: HostRuntime, own: usize, rest: &[u8], all: bool) {
    say_number(
        host,
        b"by its own Data Length the response has ",
        own,
        b" bytes; the ",
    );
    if !all {
        streams::say_to(host, STDERR_FILENO, b"first ");
    }
    say_number(host, b"", rest.len(), b" bytes behind it are ");
    if !is_zero(rest) {
        streams::say_to(host, STDERR_FILENO, b"not ");
    }
    streams::say_to(
        host,
        STDERR_FILENO,
        b"all 0: --trim takes the response without them\n",
    );
}

fn hint_padded(host: HostRuntime, s: &[u8]) {
    let rest = behind(s);
    if rest.len() > 0 {
        say_padded(host, own_length(s), rest, s.len() <= LONGEST);
    }
}

fn hint_bytes(host: HostRuntime, s: &[u8]) {
    if is_text(s) {
        streams::say_to(
            host,
            STDERR_FILENO,
            b"what was read looks like text: with --hex hexadecimal text is read\n",
        );
        return;
    }
    hint_padded(host, s);
}

// Of bytes that were refused: whether they look like a text, unless argument i says that one was read; else whether they are padded.
pub fn hint(host: HostRuntime, i: usize, s: &[u8]) {
    if streams::given(host, i) {
        hint_padded(host, s);
        return;
    }
    hint_bytes(host, s);
}

// ---- output

fn digit(d: u8) -> u8 {
    let digits = *b"0123456789abcdef";
    digits[(d % 16) as usize]
}

fn say_byte(host: HostRuntime, b: u8) {
    streams::say(host, &[digit(b / 16), digit(b)]);
}

// Byte i as a word, a blank before all but the first.
fn say_word(host: HostRuntime, bytes: &[u8], i: usize) {
    if i > 0 {
        streams::say(host, b" ");
    }
    say_byte(host, fields::byte(bytes, i));
}

// Writes bytes to standard output as a line of words, two digits each, as `sg_raw` takes a command.
pub fn say_words(host: HostRuntime, bytes: &[u8]) {
    let mut i = 0;
    while i < bytes.len() {
        say_word(host, bytes, i);
        i += 1;
    }
    streams::say(host, b"\n");
}

// The offset of a line, and a colon.
fn say_offset(host: HostRuntime, offset: usize) {
    say_byte(host, (offset / 16777216 % 256) as u8);
    say_byte(host, (offset / 65536 % 256) as u8);
    say_byte(host, (offset / 256 % 256) as u8);
    say_byte(host, (offset % 256) as u8);
    streams::say(host, b":");
}

// Byte i of a row, or blanks in its place; a blank before every other one.
fn say_column(host: HostRuntime, row: &[u8], i: usize) {
    if i % 2 == 0 {
        streams::say(host, b" ");
    }
    if i < row.len() {
        say_byte(host, row[i]);
        return;
    }
    streams::say(host, b"  ");
}

fn say_columns(host: HostRuntime, row: &[u8]) {
    let mut i = 0;
    while i < 16 {
        say_column(host, row, i);
        i += 1;
    }
}

fn printed(c: u8) -> u8 {
    match c {
        b' '..=b'~' => c,
        _ => b'.',
    }
}

// The characters of a row, a point for each that is not printed.
fn say_characters(host: HostRuntime, row: &[u8]) {
    let mut i = 0;
    while i < row.len() {
        streams::say(host, &[printed(row[i])]);
        i += 1;
    }
}

// A line as `xxd` prints it, of at most 16 bytes.
fn say_row(host: HostRuntime, row: &[u8], offset: usize) {
    say_offset(host, offset);
    say_columns(host, row);
    streams::say(host, b"  ");
    say_characters(host, row);
    streams::say(host, b"\n");
}

fn say_rows(host: HostRuntime, bytes: &[u8]) {
    let mut at = 0;
    while at < bytes.len() {
        say_row(host, fields::part(bytes, at, 16), at);
        at += 16;
    }
}

// Writes bytes to standard output, or where argument i is given the text that `xxd` prints of them.
pub fn say(host: HostRuntime, i: usize, bytes: &[u8]) {
    if streams::given(host, i) {
        say_rows(host, bytes);
        return;
    }
    streams::say(host, bytes);
}
