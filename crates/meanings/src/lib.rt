// What each number means, in words: the one table, from which the programs and `gcf_words` take them. A line for each number, from 0 on; one that is not given has
// an empty line. It is a literal that is lent to a walk, so that it is read-only data.
#![tactic(auto)]

ghost use Rattle.std.specs.Prelude.{◌≡◌};
ghost use Rattle.std.specs.List.{position};
ghost use Rattle.lent.specs.Wrote.{Wrote};
ghost use Rattle.meanings.specs.Lines.{is_end, behind_lines, up_to_end, text_line};
ghost use Rattle.meanings.specs.Meanings.{sentence};

// The most characters of a sentence.
pub const LONGEST: usize = 129;

// Where the first line end is, if there is one. By index: the C library's code for 32 bits cannot hand out an `Option` of a reference, as `iter` does.
#[tactic(auto, using(crate::proofs::Laws::position_found, crate::proofs::Laws::position_missing))]
fn line_end(s: &[u8]) -> Option<usize>
    ensures { result ≡ position is_end s.now }
{
    for at in 0..s.len() {
        if s[at] == b'\n' {
            return Some(at);
        }
    }
    None
}

// What stands before the first line end; all where there is none.
#[tactic(auto, using(crate::proofs::Laws::upto_found, crate::proofs::Laws::upto_all))]
fn first_line(s: &[u8]) -> &[u8]
    ensures { result.now ≡ up_to_end s.now }
{
    match line_end(s) {
        Some(end) => &s[..end],
        None => s,
    }
}

// What stands behind the first line end; nothing where there is none.
#[tactic(auto, using(crate::proofs::Laws::behind_found, crate::proofs::Laws::behind_all))]
fn behind_line(s: &[u8]) -> &[u8]
    ensures { result.now ≡ behind_lines s.now 1 }
{
    match line_end(s) {
        Some(end) => &s[end + 1..],
        None => &s[s.len()..],
    }
}

// The line that has so many before it, without its end.
#[tactic(auto, using(crate::proofs::Laws::line_is))]
fn line_of(s: &[u8], lines: usize) -> &[u8]
    ensures { result.now ≡ text_line lines s.now }
{
    let mut rest = s;
    for passed in 0..lines {
        rest = behind_line(rest);
    }
    first_line(rest)
}

// Puts the sentence of a number.
pub fn put_words(number: u8, out: &mut [u8]) -> usize
    ensures { Wrote out.old 0 (sentence number) result out.new }
{
    let line = line_of(
        b"accepted\n\
        the sheet has under 4 bytes, or under 4 + 8n + 4p\n\
        the sheet has more than 63 profiles\n\
        a profile's number is 0 or listed before, its third byte is over 1 or its last is not 0\n\
        a feature number is 0, or not above the one before\n\
        a reserved bit of a feature's flags is not 0\n\
        a body length is no multiple of 4\n\
        a body offset is not the end of the body before\n\
        the sheet does not end where the last body ends\n\
        the command has neither 10 nor 12 bytes\n\
        the command's first byte is not 46h\n\
        RT 3 is reserved\n\
        the response buffer is too short\n\
        a reading with RT over 2\n\
        the response has under 8 or over 65,534 bytes\n\
        Data Length is under 4 or no multiple of 4\n\
        more bytes than Data Length + 4 were received\n\
        an Additional Length is no multiple of 4\n\
        a feature number is not above the one before\n\
        a feature is not current\n\
        a descriptor ends beyond Data Length + 4\n\
        a sweep with RT over 1\n\
        a sweep with an allocation length under 8\n\
        the response is cut and has no whole descriptor\n\
        there is no room for the collected descriptors\n\
        there is no room for another start\n\
        the sweep had ended\n\
        the response is cut after feature FFFF\n\
        the response is cut, and shorter than was asked for\n\
        the response is cut\n\
        every response has to report it, and it is missing\n\
        its body has not the length that it must have\n\
        Persistent and Current are not both 1\n\
        a reserved flag bit is not 0\n\
        Persistent is 1 and Current is 0\n\
        Persistent is 1, and feature 0003 is reported\n\
        a reserved body bit or a pad byte is not 0\n\
        SAO is 0 and the cue sheet length is not 0\n\n\
        a profile number is 0\n\
        no table for this profile\n\
        feature 0 is missing or its flags are not 03h, header bytes 4-5 are not 0, or Current Profile is not the first current one listed\n\
        the sheet buffer is too short\n\n\
        a feature is Persistent and not Current\n\
        another Current Profile than the first response had\n\
        the sense data has not 18 bytes\n\
        the response code is not 70h\n\
        the box does not write such sense data\n\
        the buffer for the mended copy is too short\n\
        the list of changes is too short\n\
        a list does not ascend, or has a repeat\n\
        the sheet lacks a listed feature or profile\n\
        the buffer for the loaded sheet is too short\n\
        no command gives this number\n\
        the buffer for sense data has under 18 bytes\n",
        number as usize,
    );
    lent::copy(out, 0, line)
}
