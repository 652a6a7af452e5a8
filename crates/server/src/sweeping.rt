// Runs the bench sweep against the sheet and tells its rounds and totals. Arguments: whether the collected descriptors are to be written as one response, and whether the
// commands are told.
use command::Command;
use layout::Layout;
use program_io::streams::{STDERR_FILENO, say, say_decimal};
use program_io::{asked, dumps, packets, streams};
use program_words::{grounds, sheets, told};
use sweep::Sweep;
use text::{Feature, Header, Profile};

// No sweep has more commands.
pub const STARTS: usize = 65536;

// The argument that says whether a response is written.
const RESPONSE: usize = 8;

// The argument that says whether the commands are told.
const COMMANDS: usize = 9;

fn say_command(host: HostRuntime, command: &[u8]) {
    if streams::given(host, COMMANDS) {
        say(host, b"command ");
        dumps::say_words(host, command);
    }
}

// How the box is asked: the layout of its sheet, RT, allocation length.
#[derive(Clone, Copy)]
struct Asking {
    lay: Layout,
    rt: u8,
    a: u16,
}

// Where a sweep has got to: the first entry that is left, and how many bytes of descriptors are.
#[derive(Clone, Copy)]
struct Place {
    from: u16,
    left: usize,
}

// How many bytes are left behind a reading that ends there.
fn left_behind(left: usize, end: usize) -> usize {
    if end < Header::LENGTH {
        return left;
    }
    let taken = end - Header::LENGTH;
    if left < taken {
        return 0;
    }
    left - taken
}

fn tell_command(host: HostRuntime, asking: Asking, start: Feature) {
    let mut command = [0u8; Command::PACKET];
    let made = Command::build(
        packets::length(host, packets::LENGTH),
        asking.rt,
        start,
        asking.a,
        &mut command,
    );
    say_command(host, fields::part(&command, 0, made.count));
}

// What a round is asked for: how many bytes the box sends, and where the sweep has got to behind them.
#[derive(Clone, Copy)]
struct Round {
    count: usize,
    place: Place,
}

fn first_place(asking: Asking, sheet: &[u8]) -> Place {
    let lay = asking.lay;
    Place {
        from: 0,
        left: responder::size(lay, sheet, asking.rt, Feature(0)),
    }
}

// A round of the bench sweep: the box is asked again, and gives the same bytes. It is told where the request starts and how much is left, so that it does not count that
// anew for each round.
fn ask(asking: Asking, sheet: &[u8], start: Feature, place: Place, response: &mut [u8]) -> Round {
    let lay = asking.lay;
    let rt = asking.rt;
    let n = layout::feature_count(sheet);
    let from = sheet::next_from(lay, sheet, n, start, place.from);
    let reply = responder::send_sized(lay, sheet, rt, start, asking.a, from, place.left, response);
    let reading = reading::read(rt, start, fields::part(response, 0, reply.count));
    Round {
        count: reply.count,
        place: Place {
            from: from,
            left: left_behind(place.left, reading.end),
        },
    }
}

fn say_round(
    host: HostRuntime,
    asking: Asking,
    sheet: &[u8],
    start: Feature,
    place: Place,
    response: &mut [u8],
) -> Place {
    tell_command(host, asking, start);
    let round = ask(asking, sheet, start, place, response);
    told::say_round(
        host,
        asking.rt,
        start,
        fields::part(response, 0, round.count),
    );
    round.place
}

// A line for each start that was noted.
fn say_rounds(
    host: HostRuntime,
    asking: Asking,
    sheet: &[u8],
    starts: &[u16],
    commands: u32,
    response: &mut [u8],
) {
    let mut place = first_place(asking, sheet);
    let mut i = 0;
    while i < starts.len() {
        if commands as usize <= i {
            return;
        }
        place = say_round(host, asking, sheet, Feature(starts[i]), place, response);
        i += 1;
    }
}

// What is promised of the totals.
fn say_bound(host: HostRuntime, commands: u32, most: usize, collected: usize) {
    say(host, b"bound: (");
    say_decimal(host, commands as u64);
    say(host, b" - 1) * (");
    say_decimal(host, most as u64);
    say(host, b" - 8) < 2 * ");
    say_decimal(host, collected as u64);
    say(host, b"\n");
}

// And that no list of starts receives all that was collected in fewer commands.
fn say_fewest(host: HostRuntime, commands: u32) {
    say(host, b"no list of starts takes fewer than ");
    say_decimal(host, commands as u64);
    say(host, b"\n");
}

// A sweep on its way to the round that is refused, and whether that was said.
#[derive(Clone, Copy)]
struct Way {
    place: Place,
    sweep: Sweep,
    said: bool,
}

// One round more of it: where it is refused, the number with the byte and the feature of the descriptor that the command has no room for.
fn walk_on(
    host: HostRuntime,
    asking: Asking,
    sheet: &[u8],
    way: Way,
    response: &mut [u8],
    collected: &mut [u8],
) -> Way {
    let sweep = way.sweep;
    let start = sweep.next;
    let place = way.place;
    let round = ask(asking, sheet, start, place, response);
    let got = fields::part(response, 0, round.count);
    let step = sweep.take(got, collected);
    let refusal = step.refusal;
    if refusal.number != 0 {
        grounds::say_refused(
            host,
            STDERR_FILENO,
            asking.rt,
            start,
            text::most(asking.a),
            refusal,
            got,
        );
    }
    let place = round.place;
    let taken = step.sweep;
    Way {
        place: place,
        sweep: taken,
        said: refusal.number != 0,
    }
}

// Says where a sweep is refused by 23: the box is asked again, up to that round.
fn say_cut(
    host: HostRuntime,
    asking: Asking,
    sheet: &[u8],
    response: &mut [u8],
    collected: &mut [u8],
) {
    let begun = Sweep::start(asking.rt, asking.a);
    let sweep = begun.sweep;
    let mut way = Way {
        place: first_place(asking, sheet),
        sweep: sweep,
        said: false,
    };
    let mut i = 0;
    while i < STARTS {
        if way.said {
            return;
        }
        way = walk_on(host, asking, sheet, way, response, collected);
        i += 1;
    }
}

fn sweep_into(
    host: HostRuntime,
    lay: Layout,
    sheet: &[u8],
    response: &mut [u8],
    collected: &mut [u8],
    starts: &mut [u16],
) {
    let rt = asked::rt(host);
    let a = streams::arg(host, 3);
    let asking = Asking {
        lay: lay,
        rt: rt,
        a: a,
    };
    let benched = bench::bench(lay, sheet, rt, a, response, collected, starts);
    let refusal = benched.refusal;
    if refusal.number == refusal::NONE_WHOLE.number {
        streams::mark_fault(host);
        say_cut(host, asking, sheet, response, collected);
        return;
    }
    if refusal.number != 0 {
        sheets::say_refused(host, refusal, lay, sheet);
        return;
    }
    let profile = Profile(fields::get2(response, 6));
    say_rounds(host, asking, sheet, starts, benched.commands, response);
    told::say_totals(host, benched.commands, benched.collected);
    say_bound(host, benched.commands, text::most(a), benched.collected);
    say_fewest(host, benched.commands);
    if streams::given(host, RESPONSE) {
        told::put_response(host, profile, fields::part(collected, 0, benched.collected));
    }
}

pub fn sweep(
    host: HostRuntime,
    lay: Layout,
    sheet: &[u8],
    collected: &mut [u8],
    starts: &mut [u16],
) {
    let mut response = [0u8; Header::RETURN_LIMIT];
    sweep_into(host, lay, sheet, &mut response, collected, starts);
}
