// Reads a drive sheet and does with it what is asked, a module for each: it is answered from, laid out anew, loaded, swept, or what a box answered is judged by it.
// Arguments: what a command asks for (`asked`), and how many bytes it has (`packets`), with none RT 0 from 0, allocation length 65,535; whether the sheet is in columns; whether there is a
// stack for the longest sheet; what is done; and what that takes beyond, from the eighth on.
#![tactic(auto)]

mod answering;
mod converting;
mod judging;
mod loading;
mod sweeping;

ghost use Rattle.std.specs.Counts.{IsPrefixLen};

use layout::Layout;
use program_io::streams;
use program_io::streams::Input;
use program_words::sheets;

// The argument that says whether the sheet is in columns.
const COLUMNS: usize = 5;

// The one that is given, and is 0, where there is a stack for the longest sheet.
const LONG: usize = 6;

// The one that says what is done. Its numbers stand in `serve_sheet`, and in `gcf` as well.
const DONE: usize = 7;

const JUDGE: u16 = 4;

// Does it, with as much memory to write to as a sheet may have, and for numbers: the starts of a sweep, or the lists of a medium, in which the front-end passes no more.
fn serve_sheet(host: HostRuntime, lay: Layout, sheet: &[u8], out: &mut [u8], numbers: &mut [u16]) {
    match streams::arg(host, DONE) {
        0 => answering::answer(host, lay, sheet),
        1 => converting::convert(host, lay, sheet, out),
        2 => loading::load(host, lay, sheet, numbers, out),
        3 => sweeping::sweep(host, lay, sheet, out, numbers),
        JUDGE => judging::judge(host, lay, sheet),
        _ => {}
    }
}

// The sheet is in a file where standard input has exchanges.
fn read_sheet(host: HostRuntime, input: &mut [u8]) -> Input
    ensures { IsPrefixLen result.count input.new }
{
    if streams::arg(host, DONE) == JUDGE {
        return streams::read_named(host, judging::FILE, input);
    }
    streams::read(host, input)
}

fn serve_input(host: HostRuntime, input: &mut [u8], out: &mut [u8], numbers: &mut [u16]) {
    let got = read_sheet(host, input);
    if got.failed {
        return;
    }
    let count = got.count;
    if count == input.len() {
        sheets::say_too_long(host, count);
        return;
    }
    serve_sheet(
        host,
        sheets::layout_given(host, COLUMNS),
        &input[..count],
        out,
        numbers,
    );
}

fn serve(host: HostRuntime) {
    let mut input = [0u8; sheets::SHORT + 1];
    let mut out = [0u8; sheets::SHORT];
    let mut numbers = [0u16; sweeping::STARTS];
    serve_input(host, &mut input, &mut out, &mut numbers);
    streams::mark_end(host);
}

// The same with memory for the longest sheet, which takes a larger stack, and then so many times more: that it may call itself keeps the compiler from making this memory a part of main's.
fn serve_long(host: HostRuntime, again: u16) {
    let mut input = [0u8; sheets::LONGEST + 1];
    let mut out = [0u8; sheets::LONGEST];
    let mut numbers = [0u16; sweeping::STARTS];
    serve_input(host, &mut input, &mut out, &mut numbers);
    streams::mark_end(host);
    if again > 0 {
        serve_long(host, again - 1);
    }
}

fn main(host: HostRuntime) {
    if streams::given(host, LONG) {
        serve_long(host, streams::arg(host, LONG));
        return;
    }
    serve(host);
}
