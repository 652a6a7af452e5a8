// What the programs that read a drive sheet say of it: how it is laid out, why it is refused, with the line that the refusal names, and what it may be instead.
use super::words;
use layout::Layout;
use program_io::streams;
use program_io::streams::STDERR_FILENO;
use refusal::Refusal;

// ---- how long it may be

// The most bytes that a sheet can have: 65,535 entries with bodies of 252 bytes, and 63 profiles.
pub const LONGEST: usize = 17039356;

// The most that fit, twice, into the stack that a system gives a program.
pub const SHORT: usize = 1048576;

// Of a sheet that fills its memory, which has one byte more than are taken: so that it is not shortened.
pub fn say_too_long(host: HostRuntime, room: usize) {
    streams::mark_fault(host);
    say(host, b"the sheet has ");
    streams::say_decimal_to(host, STDERR_FILENO, room as u64);
    say(host, b" bytes or more, more than are taken here\n");
}

// ---- how it is laid out

// How the sheet that is read is laid out: in columns where this argument is given.
pub fn layout_given(host: HostRuntime, i: usize) -> Layout {
    if streams::given(host, i) {
        return Layout::Columns;
    }
    Layout::Rows
}

// ---- what it may be instead

fn say(host: HostRuntime, what: &[u8]) {
    streams::say_to(host, STDERR_FILENO, what);
}

// Whether these are as many bytes as a response has by its own Data Length.
fn is_response(s: &[u8]) -> bool {
    if s.len() < 8 {
        return false;
    }
    fields::get4(s, 0) as usize + 4 == s.len()
}

fn is_accepted(lay: Layout, s: &[u8]) -> bool {
    let fault = sheet::check(lay, s);
    fault.number == 0
}

// Of a sheet in rows that is refused.
fn hint_rows(host: HostRuntime, s: &[u8]) {
    if is_accepted(Layout::Columns, s) {
        say(
            host,
            b"what was read is a drive sheet in columns: --columns takes one, and gcf rows makes rows of it\n",
        );
    }
}

// Of one in columns.
fn hint_columns(host: HostRuntime, s: &[u8]) {
    if is_accepted(Layout::Rows, s) {
        say(
            host,
            b"what was read is a drive sheet in rows: it is taken without --columns, and gcf columns makes columns of it\n",
        );
    }
}

fn hint_layout(host: HostRuntime, lay: Layout, s: &[u8]) {
    match lay {
        Layout::Rows => hint_rows(host, s),
        Layout::Columns => hint_columns(host, s),
    }
}

// Where the sheet itself is refused, and no command: whether it is a response, or laid out otherwise.
fn hint(host: HostRuntime, lay: Layout, s: &[u8]) {
    if is_accepted(lay, s) {
        return;
    }
    if is_response(s) {
        say(
            host,
            b"what was read looks like a response: gcf import makes a drive sheet of one\n",
        );
        return;
    }
    hint_layout(host, lay, s);
}

// ---- a refusal

fn say_line(host: HostRuntime, refusal: Refusal, lay: Layout, sheet: &[u8]) {
    let profiles = layout::profile_count(sheet);
    if refusal.place == 0 {
        words::say_refused(host, STDERR_FILENO, refusal, profiles as u64, 0);
        return;
    }
    let feature = layout::feature_at(lay, sheet, refusal.place - 1);
    words::say_refused(host, STDERR_FILENO, refusal, profiles as u64, feature.0);
}

// A refusal of a sheet or a command, with the line of the sheet that it names.
pub fn say_refused(host: HostRuntime, refusal: Refusal, lay: Layout, sheet: &[u8]) {
    streams::mark_fault(host);
    say_line(host, refusal, lay, sheet);
    hint(host, lay, sheet);
}
