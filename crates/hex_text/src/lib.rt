// Which bytes a text in hexadecimal spells, as `xxd`, `hexdump -C`, `od -A x -t x1`, `sg_raw`, `sg_get_config --hex` and C have it.
#![tactic(auto)]

ghost use Rattle.std.specs.Prelude.{◌≡◌, ◌+◌, ◌≤◌, ◌<◌, eqb, length};
ghost use Rattle.std.proofs.lemmas.List.Edits.{sets};
ghost use Rattle.hex_text.specs.Chars.{is_a, line_at, at as Chars·at, value as Chars·value, blank as Chars·blank, parts as Chars·parts, past as Chars·past, ends as Chars·ends};
ghost use Rattle.hex_text.specs.Front.{is_offset, is_six, is_end, is_said, is_words, opened_at, fresh as Front·fresh, width as Front·width, opened as Front·opened};
ghost use Rattle.hex_text.specs.Steps.{skipping, on as Steps·on, broken as Steps·broken, digit as Steps·digit, prefix as Steps·prefix, space as Steps·space, bar as Steps·bar, between as Steps·between, newline as Steps·newline, other as Steps·other, char as Steps·char, step as Steps-step};
ghost use Rattle.hex_text.specs.Text.{some, ended, spelled, outcome, given};
ghost use Rattle.hex_text.specs.inner.Walk.{finished, Walked};

// What a text spells: the first line that spells nothing legal, counted from 1, or 0, and then the count of bytes.
#[derive(Clone, Copy)]
pub struct Spelt {
    pub line: usize,
    pub count: usize,
}

// Classes of characters: blanks, hexadecimal digits, the digit 0, neither blank nor newline, no newline.
#[derive(Clone, Copy)]
enum Class {
    Blank,
    Digit,
    Zero,
    Solid,
    Inner,
}

// Where a reader of the text is: the line's bytes start at index `from`; so many blanks behind a byte end them, and so many are left (0: any number); a byte's first
// digit, or 16; whether a line had an offset, and whether a byte came.
#[derive(Clone, Copy)]
struct State {
    from: usize,
    wide: u8,
    left: u8,
    half: u8,
    dump: bool,
    started: bool,
}

// What a character does: the line is none, or a byte is spelt, or neither; and the state behind it.
#[derive(Clone, Copy)]
struct Effect {
    fault: bool,
    spells: bool,
    byte: u8,
    state: State,
}

// ---- characters

// The character at an index: behind the end of the text a line ends.
fn at(s: &[u8], i: usize) -> u8
    ensures { result ≡ Chars·at s.now i }
{
    if i < s.len() {
        return s[i];
    }
    b'\n'
}

// The value of a hexadecimal digit, 16 for any other character.
fn value(c: u8) -> u8
    ensures { result ≡ Chars·value c }
{
    if c < b'0' {
        return 16;
    }
    if c < b':' {
        return c - b'0';
    }
    if c < b'A' {
        return 16;
    }
    if c < b'G' {
        return c - 55;
    }
    if c < b'a' {
        return 16;
    }
    if c < b'g' {
        return c - 87;
    }
    16
}

// A space, a tab, a return before a newline, a colon.
fn blank(c: u8) -> bool
    ensures { result ≡ Chars·blank c }
{
    if c == b' ' {
        return true;
    }
    if c == b'\t' {
        return true;
    }
    if c == b'\r' {
        return true;
    }
    c == b':'
}

// What stands behind a byte.
fn parts(c: u8) -> bool
    ensures { result ≡ Chars·parts c }
{
    if blank(c) {
        return true;
    }
    if c == b'\n' {
        return true;
    }
    c == b','
}

fn solid(c: u8) -> bool
    ensures { result ≡ is_a (Class.Solid) c }
{
    if blank(c) {
        return false;
    }
    c != b'\n'
}

fn is_a(class: Class, c: u8) -> bool
    ensures { result ≡ is_a class c }
{
    match class {
        Class::Blank => blank(c),
        Class::Digit => value(c) < 16,
        Class::Zero => c == b'0',
        Class::Solid => solid(c),
        Class::Inner => c != b'\n',
    }
}

// The index behind the characters of a class that stand from an index on.
fn past(class: Class, s: &[u8], from: usize) -> usize
    ensures { result ≡ Chars·past class s.now from }
{
    let mut i = from;
    while i < s.len() {
        let c = at(s, i);
        if !is_a(class, c) {
            return i;
        }
        i += 1;
    }
    i
}

// A newline ends one line, any other character none.
fn ends(c: u8) -> usize
    ensures { (result ≡ Chars·ends c) × (result ≤ 1) }
{
    if c == b'\n' {
        return 1;
    }
    0
}

// The line that an index stands in, counted from 1.
// Asks: an index of the text, or its end; the walk stops there.
fn line_at(s: &[u8], i: usize) -> usize
    requires { i ≤ length s.now }
    ensures { result ≡ line_at s.now i }
{
    let mut line: usize = 1;
    let mut k = 0;
    while k < i {
        let c = at(s, k);
        line += ends(c);
        k += 1;
    }
    line
}

// ---- the front of a line: its first word of digits stands from a to b, and blanks behind it to e

// An offset: a word of digits, two blanks or more, a digit.
fn is_offset(s: &[u8], a: usize, b: usize, e: usize) -> bool
    ensures { result ≡ is_offset s.now a b e }
{
    if b <= a {
        return false;
    }
    if e <= b {
        return false;
    }
    if e <= b + 1 {
        return false;
    }
    let c = at(s, e);
    value(c) < 16
}

// A number that is another one and this much more, where there is such a number.
fn is_sum(n: usize, m: usize, more: usize) -> bool
    ensures { result ≡ eqb n (m + more) }
{
    if n < m {
        return false;
    }
    n - m == more
}

// An offset as `od -A x -t x1` prints it: six digits, one blank, a word of two digits.
fn is_six(dump: bool, s: &[u8], a: usize, b: usize, e: usize) -> bool
    ensures { result ≡ is_six dump s.now a b e }
{
    if !is_sum(b, a, 6) {
        return false;
    }
    if !is_sum(e, b, 1) {
        return false;
    }
    let w = past(Class::Digit, s, e);
    if !is_sum(w, e, 2) {
        return false;
    }
    if dump {
        return true;
    }
    b <= past(Class::Zero, s, a)
}

// The offset of the end, alone in its line.
fn is_end(dump: bool, s: &[u8], a: usize, b: usize, e: usize) -> bool
    ensures { result ≡ is_end dump s.now a b e }
{
    if !dump {
        return false;
    }
    if b <= a {
        return false;
    }
    at(s, e) == b'\n'
}

// Words, by where they stand.
fn is_said(started: bool, s: &[u8], a: usize) -> bool
    ensures { result ≡ is_said started s.now a }
{
    if started {
        let c = at(s, a);
        if c == b'}' {
            return true;
        }
        return c == b'u';
    }
    let e = past(Class::Solid, s, a);
    let c = at(s, e);
    blank(c)
}

// Words: they start with no decimal digit, and not with hexadecimal digits alone.
fn is_words(started: bool, s: &[u8], a: usize, b: usize) -> bool
    ensures { result ≡ is_words started s.now a b }
{
    let c = at(s, b);
    if parts(c) {
        return false;
    }
    let d = at(s, a);
    if value(d) < 10 {
        return false;
    }
    is_said(started, s, a)
}

// How many blanks end the bytes behind an offset.
fn width(c: u8) -> u8
    ensures { result ≡ Front·width c }
{
    if c == b':' {
        return 2;
    }
    3
}

// The state at the start of a line.
fn fresh(from: usize, wide: u8, dump: bool, started: bool) -> State
    ensures { result ≡ Front·fresh from wide dump started }
{
    State {
        from: from,
        wide: wide,
        left: 0,
        half: 16,
        dump: dump,
        started: started,
    }
}

fn opened_at(dump: bool, started: bool, s: &[u8], i: usize, a: usize, b: usize, e: usize) -> State
    ensures { result ≡ opened_at dump started s.now i a b e }
{
    if is_offset(s, a, b, e) {
        let c = at(s, b);
        return fresh(e, width(c), true, started);
    }
    if is_six(dump, s, a, b, e) {
        return fresh(e, 3, true, started);
    }
    if is_end(dump, s, a, b, e) {
        return fresh(past(Class::Inner, s, i), 0, dump, started);
    }
    if is_words(started, s, a, b) {
        return fresh(past(Class::Inner, s, i), 0, dump, started);
    }
    fresh(i, 0, dump, started)
}

fn opened(dump: bool, started: bool, s: &[u8], i: usize) -> State
    ensures { result ≡ Front·opened dump started s.now i }
{
    let a = past(Class::Blank, s, i);
    let b = past(Class::Digit, s, a);
    let e = past(Class::Blank, s, b);
    opened_at(dump, started, s, i, a, b, e)
}

// ---- what one character does

// No byte is spelt.
fn on(q: State) -> Effect
    ensures { result ≡ Steps·on q }
{
    Effect {
        fault: false,
        spells: false,
        byte: 0,
        state: q,
    }
}

// The line is none.
fn broken(q: State) -> Effect
    ensures { result ≡ Steps·broken q }
{
    let mut none = on(q);
    none.fault = true;
    none
}

// What is left of the line is skipped.
fn skip(q: State, s: &[u8], i: usize) -> Effect
    ensures { result ≡ Steps·on (skipping q (Chars·past (Class.Inner) s.now i)) }
{
    let mut next = q;
    next.from = past(Class::Inner, s, i);
    on(next)
}

// A digit: a byte's second, or its first.
// Asks: a digit below 16; the value was looked at.
fn digit(q: State, v: u8) -> Effect
    requires { v < 16 }
    ensures { result ≡ Steps·digit q v }
{
    let half = q.half;
    let mut next = q;
    if half < 16 {
        next.left = q.wide;
        next.half = 16;
        next.started = true;
        return Effect {
            fault: false,
            spells: true,
            byte: half * 16 + v,
            state: next,
        };
    }
    next.half = v;
    on(next)
}

// Behind a byte's first digit: `0x` spells nothing.
fn prefix(q: State, c: u8) -> Effect
    ensures { result ≡ Steps·prefix q c }
{
    let mut next = q;
    next.half = 16;
    if q.half != 0 {
        return broken(q);
    }
    if c == b'x' {
        return on(next);
    }
    if c == b'X' {
        return on(next);
    }
    broken(q)
}

// A blank: the last that is left ends the line's bytes.
fn space(q: State, s: &[u8], i: usize) -> Effect
    ensures { result ≡ Steps·space q s.now i }
{
    let left = q.left;
    if left == 0 {
        return on(q);
    }
    if left == 1 {
        return skip(q, s, i);
    }
    let mut next = q;
    next.left = left - 1;
    on(next)
}

// The bar before the characters that `hexdump` prints behind the bytes.
fn bar(q: State, s: &[u8], i: usize) -> Effect
    ensures { result ≡ Steps·bar q s.now i }
{
    if q.wide == 3 {
        return skip(q, s, i);
    }
    broken(q)
}

// Between bytes.
fn between(q: State, c: u8, s: &[u8], i: usize) -> Effect
    ensures { result ≡ Steps·between q c s.now i }
{
    if blank(c) {
        return space(q, s, i);
    }
    if c == b',' {
        return on(q);
    }
    if c == b'|' {
        return bar(q, s, i);
    }
    broken(q)
}

// A newline: half a byte is none, else the next line starts.
fn newline(q: State, s: &[u8], i: usize) -> Effect
    ensures { result ≡ Steps·newline q s.now i }
{
    if q.half < 16 {
        return broken(q);
    }
    on(opened(q.dump, q.started, s, i))
}

// A character that is no digit.
fn other(q: State, c: u8, s: &[u8], i: usize) -> Effect
    ensures { result ≡ Steps·other q c s.now i }
{
    if q.half < 16 {
        return prefix(q, c);
    }
    between(q, c, s, i)
}

// Asks: an index of the text, so that there is a next one; the walk stops at its end.
fn char(q: State, c: u8, s: &[u8], i: usize) -> Effect
    requires { i < length s.now }
    ensures { result ≡ Steps·char q c s.now i }
{
    if c == b'\n' {
        return newline(q, s, i + 1);
    }
    let v = value(c);
    if v < 16 {
        return digit(q, v);
    }
    other(q, c, s, i)
}

// The character at an index; what stands before the line's bytes is skipped.
// Asks: an index of the text; the walk stops at its end.
fn step(q: State, s: &[u8], i: usize) -> Effect
    requires { i < length s.now }
    ensures { result ≡ Steps-step q s.now i }
{
    if i < q.from {
        return on(q);
    }
    let c = at(s, i);
    char(q, c, s, i)
}

// ---- the text

// Puts a byte, if one is spelt.
fn put_some(out: &mut [u8], at: usize, spells: bool, byte: u8) -> usize
    ensures { (result ≡ length (some spells byte)) × (out.new ≡ sets out.old at (some spells byte)) }
{
    if spells {
        lent::put(out, at, byte);
        return 1;
    }
    0
}

// What is left at the end: half a byte is none.
fn finish(q: State, s: &[u8], count: usize) -> Spelt
    ensures { result ≡ finished (ended q s.now (length s.now)) count }
{
    if q.half < 16 {
        return Spelt {
            line: line_at(s, s.len()),
            count: 0,
        };
    }
    Spelt {
        line: 0,
        count: count,
    }
}

// Walks over the text, and puts each byte as far as there is room.
fn walk(text: &[u8], out: &mut [u8]) -> Spelt
    ensures { Walked (spelled text.now) out.old result out.new }
{
    let mut q = opened(false, false, text, 0);
    let mut count = 0;
    let mut i = 0;
    while i < text.len() {
        let x = step(q, text, i);
        if x.fault {
            return Spelt {
                line: line_at(text, i),
                count: 0,
            };
        }
        count += put_some(out, count, x.spells, x.byte);
        q = x.state;
        i += 1;
    }
    finish(q, text, count)
}

// Puts the bytes that a text spells at the front of the buffer. Where a line spells nothing legal, or the bytes have no room, nothing is put.
pub fn spell(text: &[u8], out: &mut [u8]) -> Spelt
    ensures { outcome result out.new ≡ given (spelled text.now) out.old }
{
    let mut none = [0u8; 1];
    let seen = walk(text, &mut none);
    if seen.line != 0 {
        return seen;
    }
    if out.len() < seen.count {
        return seen;
    }
    walk(text, out)
}
