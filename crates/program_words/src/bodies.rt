// The fields of the bodies, in words or as JSON: one table, a line for each feature with its fields, as document 002 and the published MMC have them.
ghost use Rattle.std.specs.Prelude.{◌≤◌};

use super::forms::say_either;
use super::tables;
use program_io::streams::{say, say_decimal};

// A field: the place of its first byte in the descriptor and how many bytes these are, what their number is divided by, the remainder that is then taken (0: none is), and its kind: a
// number (0) whose values the physical interfaces (1) or the loading mechanisms (2) name, a text (3), which goes to the end where it has no bytes, or a list (4) of numbers with so
// many bytes each, as many as the byte at the place that stands for the divisor says, or all where that is 0.
#[derive(Clone, Copy)]
struct Field {
    at: u32,
    bytes: u32,
    divisor: u32,
    modulus: u32,
    kind: u32,
}

const PHYSICAL: u32 = 1;

const TEXT: u32 = 3;

const LIST: u32 = 4;

// ---- a field of the table

// The hexadecimal number of a column.
fn column(text: &[u8], at: usize, count: usize) -> u32 {
    tables::number(fields::part(text, at, count), true)
}

// The numbers of a field, which stand in columns, and the name behind them.
fn field_of(text: &[u8]) -> Field {
    Field {
        at: column(text, 0, 2),
        bytes: column(text, 3, 1),
        divisor: column(text, 5, 2),
        modulus: column(text, 8, 2),
        kind: column(text, 11, 1),
    }
}

fn name_of(text: &[u8]) -> &[u8] {
    fields::part(text, 13, text.len())
}

// ---- a value

// The number that bytes of a descriptor tell, one to four of them; bytes behind its end count as 0.
fn number_in(descriptor: &[u8], at: usize, bytes: u32) -> u32 {
    match bytes {
        2 => fields::get2(descriptor, at) as u32,
        3 => fields::get3(descriptor, at),
        4 => fields::get4(descriptor, at),
        _ => fields::byte(descriptor, at) as u32,
    }
}

fn divided(number: u32, divisor: u32, modulus: u32) -> u32 {
    if divisor == 0 {
        return number;
    }
    if modulus == 0 {
        return number / divisor;
    }
    number / divisor % modulus
}

// The value of a field in a descriptor.
fn value_of(field: Field, descriptor: &[u8]) -> u32 {
    let number = number_in(descriptor, field.at as usize, field.bytes);
    divided(number, field.divisor, field.modulus)
}

// A character as it can stand in a line and in JSON: a quote, a backslash and what is not printed have another in their place. The body has the bytes.
fn shown(c: u8) -> u8 {
    match c {
        b'"' => b'.',
        b'\\' => b'.',
        b' '..=b'~' => c,
        _ => b'.',
    }
}

fn say_text(host: HostRuntime, text: &[u8]) {
    let mut i = 0;
    while i < text.len() {
        say(host, &[shown(text[i])]);
        i += 1;
    }
}

// The bytes of a text.
fn text_of(field: Field, descriptor: &[u8]) -> &[u8] {
    let bytes = field.bytes;
    if bytes == 0 {
        return fields::part(descriptor, field.at as usize, descriptor.len());
    }
    fields::part(descriptor, field.at as usize, bytes as usize)
}

// How many bytes a number of a list has.
fn size(bytes: u32) -> usize
    ensures { (1 ≤ result) × (result ≤ 4) }
{
    match bytes {
        4 => 4,
        2 => 2,
        _ => 1,
    }
}

// How many bytes a list has, whose numbers a byte counts; one of longer numbers is counted by none.
fn counted(count: u8, bytes: u32) -> usize {
    if bytes == 2 {
        return count as usize + count as usize;
    }
    count as usize
}

// The bytes of a list, as far as they are there.
fn list_of(field: Field, descriptor: &[u8]) -> &[u8] {
    let place = field.divisor;
    if place == 0 {
        return fields::part(descriptor, field.at as usize, descriptor.len());
    }
    let count = fields::byte(descriptor, place as usize);
    fields::part(descriptor, field.at as usize, counted(count, field.bytes))
}

// The numbers of a list, each of so many bytes.
fn say_list(host: HostRuntime, list: &[u8], bytes: u32) {
    let mut at: usize = 0;
    while at < list.len() {
        if at > 0 {
            say(host, b", ");
        }
        say_decimal(host, number_in(list, at, bytes) as u64);
        at = at + size(bytes);
    }
}

fn say_value(host: HostRuntime, json: bool, field: Field, descriptor: &[u8]) {
    if field.kind == TEXT {
        say_either(host, json, b"\"", b"");
        say_text(host, text_of(field, descriptor));
        say_either(host, json, b"\"", b"");
        return;
    }
    if field.kind == LIST {
        say_either(host, json, b"[", b"");
        say_list(host, list_of(field, descriptor), field.bytes);
        say_either(host, json, b"]", b"");
        return;
    }
    say_decimal(host, value_of(field, descriptor) as u64);
}

fn say_name(host: HostRuntime, kind: u32, value: u32) {
    if kind == PHYSICAL {
        super::names::say_physical(host, value);
        return;
    }
    super::names::say_loading(host, value);
}

// The name of a value, where it has one.
fn say_meaning(host: HostRuntime, json: bool, kind: u32, value: u32) {
    if kind < PHYSICAL {
        return;
    }
    if kind >= TEXT {
        return;
    }
    say_either(host, json, b",\"meaning\":\"", b" (");
    say_name(host, kind, value);
    say_either(host, json, b"\"", b")");
}

// Whether mending would change the value: then the check finds a fault there, of a cue sheet length, which alone has three bytes, 37, of any other field 36.
fn say_fault(host: HostRuntime, json: bool, field: Field, descriptor: &[u8], clean: &[u8]) {
    if field.kind >= TEXT {
        return;
    }
    if value_of(field, descriptor) == value_of(field, clean) {
        return;
    }
    if field.bytes == 3 {
        say_either(
            host,
            json,
            b",\"fault\":37",
            b", which the check finds without SAO",
        );
        return;
    }
    say_either(
        host,
        json,
        b",\"fault\":36",
        b", which the check finds reserved",
    );
}

// ---- the fields of a feature

fn say_field(
    host: HostRuntime,
    json: bool,
    name: &[u8],
    field: Field,
    descriptor: &[u8],
    clean: &[u8],
) {
    say_either(host, json, b"{\"name\":\"", b"    ");
    say(host, name);
    say_either(host, json, b"\",\"value\":", b": ");
    say_value(host, json, field, descriptor);
    say_meaning(host, json, field.kind, value_of(field, descriptor));
    say_fault(host, json, field, descriptor, clean);
    say_either(host, json, b"}", b"\n");
}

// Whether a descriptor has all bytes of a field, and one at least.
fn is_there(field: Field, descriptor: &[u8]) -> bool {
    field.at as usize + field.bytes as usize <= descriptor.len()
}

// Says a field of the table, if it is there, and whether one has been said by now.
fn say_next(
    host: HostRuntime,
    json: bool,
    said: bool,
    text: &[u8],
    descriptor: &[u8],
    clean: &[u8],
) -> bool {
    let field = field_of(text);
    if !is_there(field, descriptor) {
        return said;
    }
    if said {
        say_either(host, json, b",", b"");
    }
    say_field(host, json, name_of(text), field, descriptor, clean);
    true
}

// Says the fields of a line of the table, which has a semicolon and a space between them, and whether there is one.
fn say_listed(host: HostRuntime, line: &[u8], json: bool, descriptor: &[u8], clean: &[u8]) -> bool {
    let mut said = false;
    let mut at = 0;
    while at < line.len() {
        let text = tables::before(line, at, b';');
        said = say_next(host, json, said, text, descriptor, clean);
        at = at + text.len() + 2;
    }
    said
}

// Says the fields of a feature's descriptor, of which `clean` is a copy that the mender has been over, and whether there is one.
pub fn say_fields(
    host: HostRuntime,
    json: bool,
    number: u16,
    descriptor: &[u8],
    clean: &[u8],
) -> bool {
    let line = tables::text_of(
        b"0001 04 4 01 00 1 Physical Interface Standard; 08 1 02 02 0 INQ2; 08 1 01 02 0 DBE\n\
        0002 04 1 02 02 0 OCEvent; 04 1 01 02 0 Async\n\
        0003 04 1 20 08 2 Loading Mechanism; 04 1 10 02 0 Load; 04 1 08 02 0 Eject; 04 1 04 02 0 Prevent Jumper; 04 1 01 02 0 Lock\n\
        0004 04 1 08 02 0 DWP; 04 1 04 02 0 WDCB; 04 1 02 02 0 SPWP; 04 1 01 02 0 SSWPP\n\
        0010 04 4 01 00 0 Logical Block Size; 08 2 01 00 0 Blocking; 0A 1 01 02 0 Page Present\n\
        001E 04 1 80 02 0 DAP; 04 1 02 02 0 C2 Flags; 04 1 01 02 0 CD-Text\n\
        001F 04 1 01 02 0 MULTI110; 06 1 02 02 0 Dual-RW; 06 1 01 02 0 Dual-R\n\
        0020 04 4 01 00 0 Last Logical Block Address; 08 4 01 00 0 Logical Block Size; 0C 2 01 00 0 Blocking; 0E 1 01 02 0 Page Present\n\
        0021 04 2 01 00 0 Data Types Supported; 06 1 04 02 0 TRIO; 06 1 02 02 0 ARSV; 06 1 01 02 0 BUF; 07 1 01 00 0 Number of Link Sizes; \
        08 1 07 00 4 Link Sizes\n\
        0023 04 1 08 02 0 RENoSA; 04 1 04 02 0 Expand; 04 1 02 02 0 QCert; 04 1 01 02 0 Cert; 05 1 80 02 0 FRF; 08 1 01 02 0 RRM\n\
        0024 04 1 80 02 0 SSA\n\
        0025 04 4 01 00 0 Logical Block Size; 08 2 01 00 0 Blocking; 0A 1 01 02 0 Page Present\n\
        0028 04 1 04 02 0 DVD+Write; 04 1 02 02 0 DVD+Read; 04 1 01 02 0 Write\n\
        0029 04 1 01 02 0 DRT-DM; 05 1 01 00 0 Number of DBI Cache Zones; 06 2 01 00 0 Number of Entries\n\
        002A 04 1 01 02 0 Write; 05 1 02 02 0 Quick Start; 05 1 01 02 0 Close Only\n\
        002B 04 1 01 02 0 Write\n\
        002C 04 1 08 02 0 DSDG; 04 1 04 02 0 DSDR; 04 1 02 02 0 Intermediate; 04 1 01 02 0 Blank\n\
        002D 04 1 40 02 0 BUF; 04 1 10 02 0 R-W Raw; 04 1 08 02 0 R-W Pack; 04 1 04 02 0 Test Write; 04 1 02 02 0 CD-RW; 04 1 01 02 0 R-W Subcode; \
        06 2 01 00 0 Data Types Supported\n\
        002E 04 1 40 02 0 BUF; 04 1 20 02 0 SAO; 04 1 10 02 0 Raw MS; 04 1 08 02 0 Raw; 04 1 04 02 0 Test Write; 04 1 02 02 0 CD-RW; \
        04 1 01 02 0 R-W; 05 3 01 00 0 Maximum Cue Sheet Length\n\
        002F 04 1 40 02 0 BUF; 04 1 08 02 0 RDL; 04 1 04 02 0 Test Write; 04 1 02 02 0 DVD-RW\n\
        0033 07 1 01 00 0 Number of Link Sizes; 08 1 07 00 4 Link Sizes\n\
        0034 04 1 01 02 0 CLJB; 07 1 01 00 0 Buffer Block Size\n\
        0037 05 1 01 00 0 CD-RW Media Sub-types\n\
        003A 04 1 01 02 0 Write; 05 1 02 02 0 Quick Start; 05 1 01 02 0 Close Only\n\
        003B 04 1 01 02 0 Write\n\
        0040 08 2 01 00 0 BD-RE Class 0; 0A 2 01 00 0 BD-RE Class 1; 0C 2 01 00 0 BD-RE Class 2; 0E 2 01 00 0 BD-RE Class 3; \
        10 2 01 00 0 BD-R Class 0; 12 2 01 00 0 BD-R Class 1; 14 2 01 00 0 BD-R Class 2; 16 2 01 00 0 BD-R Class 3; 18 2 01 00 0 BD-ROM Class 0; \
        1A 2 01 00 0 BD-ROM Class 1; 1C 2 01 00 0 BD-ROM Class 2; 1E 2 01 00 0 BD-ROM Class 3\n\
        0041 04 1 01 02 0 SVNR; 08 2 01 00 0 BD-RE Class 0; 0A 2 01 00 0 BD-RE Class 1; 0C 2 01 00 0 BD-RE Class 2; 0E 2 01 00 0 BD-RE Class 3; \
        10 2 01 00 0 BD-R Class 0; 12 2 01 00 0 BD-R Class 1; 14 2 01 00 0 BD-R Class 2; 16 2 01 00 0 BD-R Class 3; 18 2 01 00 0 BD-ROM Class 0; \
        1A 2 01 00 0 BD-ROM Class 1; 1C 2 01 00 0 BD-ROM Class 2; 1E 2 01 00 0 BD-ROM Class 3\n\
        0050 04 1 01 02 0 HD DVD-R; 06 1 01 02 0 HD DVD-RAM\n\
        0051 04 1 01 02 0 HD DVD-R; 06 1 01 02 0 HD DVD-RAM\n\
        0052 04 1 01 02 0 BGP\n\
        0080 04 1 01 02 0 RI\n\
        0101 04 1 01 02 0 Page Present\n\
        0102 04 1 10 02 0 SCC; 04 1 04 02 0 SDP; 07 1 01 20 0 Highest Slot Number\n\
        0103 04 1 04 02 0 Scan; 04 1 02 02 0 SCM; 04 1 01 02 0 SV; 06 2 01 00 0 Number of Volume Levels\n\
        0104 04 1 01 02 0 M5\n\
        0105 04 1 01 02 0 Group 3; 06 2 01 00 0 Unit Length\n\
        0106 07 1 01 00 0 CSS Version\n\
        0107 04 1 10 02 0 RBCB; 04 1 08 02 0 SCS; 04 1 04 02 0 MP2A; 04 1 02 02 0 WSPD; 04 1 01 02 0 SW\n\
        0108 04 0 00 00 3 Serial Number\n\
        010A 04 4 00 00 4 Disc Control Blocks\n\
        010B 07 1 01 00 0 CPRM Version\n\
        010C 04 8 00 00 3 Creation Date; 0C 6 00 00 3 Creation Time\n\
        010D 04 1 01 02 0 BNG; 05 1 01 00 0 Block Count for Binding Nonce; 06 1 01 10 0 Number of AGIDs; 07 1 01 00 0 AACS Version\n\
        010E 04 1 01 00 0 Maximum Number of Scrambled Extent Information Entries\n\
        0120 05 1 10 10 0 BD CPS Major Version; 05 1 01 10 0 BD CPS Minor Version; 06 1 01 04 0 Maximum Number of Open SACs\n\
        0142 04 1 80 02 0 PSAU; 04 1 40 02 0 LOSPB; 04 1 01 02 0 ME; 06 2 05 00 4 Profile Numbers",
        true,
        number as u32,
    );
    say_listed(host, line, json, descriptor, clean)
}

// The link sizes of 0021h and 0033h, as many bytes as their byte 7 says.
pub fn say_links(host: HostRuntime, number: u16, descriptor: &[u8]) {
    let sizes = fields::part(descriptor, 8, fields::byte(descriptor, 7) as usize);
    if number == 0x0021 {
        say_list(host, sizes, 1);
    }
    if number == 0x0033 {
        say_list(host, sizes, 1);
    }
}
