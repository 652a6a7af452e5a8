// Tables of text: a line for each number, which is the number, a space, and what stands for it. A table is a literal that is lent to a walk, so that it is read-only data.
ghost use Rattle.std.specs.Prelude.{◌<◌};

// The index of the first byte that is this mark, the length if none is.
fn until(s: &[u8], mark: u8) -> usize {
    let mut i = 0;
    while i < s.len() {
        if s[i] == mark {
            return i;
        }
        i += 1;
    }
    i
}

// The bytes from here on, up to this mark.
pub fn before(s: &[u8], at: usize, mark: u8) -> &[u8] {
    let rest = fields::part(s, at, s.len());
    fields::part(rest, 0, until(rest, mark))
}

// The line that starts here, without its end.
pub fn line_at(table: &[u8], at: usize) -> &[u8] {
    before(table, at, b'\n')
}

// The first word of a line, and what stands behind it.
fn first(line: &[u8]) -> &[u8] {
    before(line, 0, b' ')
}

fn behind(line: &[u8]) -> &[u8] {
    let word = first(line);
    fields::part(line, word.len() + 1, line.len())
}

// The value of a hexadecimal digit, 0 for any other byte.
fn digit(byte: u8) -> u32
    ensures { result < 16 }
{
    match byte {
        b'0'..=b'9' => (byte - b'0') as u32,
        b'A'..=b'F' => (byte - b'A') as u32 + 10,
        _ => 0,
    }
}

// A number with one more digit, hexadecimal or decimal, where any other byte counts as 0; of more than fit into 16 bits the last ones count.
fn longer(number: u32, hex: bool, byte: u8) -> u32 {
    let kept = number % 65536;
    if hex {
        return kept * 16 + digit(byte);
    }
    kept * 10 + digit(byte)
}

// The number that digits spell.
pub fn number(digits: &[u8], hex: bool) -> u32 {
    let mut number = 0;
    let mut i = 0;
    while i < digits.len() {
        number = longer(number, hex, digits[i]);
        i += 1;
    }
    number
}

// The text of the line that has this number, in hexadecimal or decimal; none where no line has it.
pub fn text_of(table: &[u8], hex: bool, wanted: u32) -> &[u8] {
    let mut at = 0;
    while at < table.len() {
        let line = line_at(table, at);
        if number(first(line), hex) == wanted {
            return behind(line);
        }
        at = at + line.len() + 1;
    }
    fields::part(table, 0, 0)
}
