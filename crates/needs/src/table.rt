// The table of what each profile requires: its columns, one for each profile, and its lines, which say what is asked of a feature and in which columns. A row is one
// number, so that it is laid out by one store at most.
ghost use Rattle.std.specs.Prelude.{◌≡◌, true};
ghost use Rattle.reading.specs.Places.{descs};
ghost use Rattle.reading.specs.Completed.{complete_fault};
ghost use Rattle.needs.specs.Required.{required, column_of};
ghost use Rattle.needs.specs.Judge.{said, wrong_in, lowest_from, lowest};
ghost use Rattle.needs.specs.inner.Table.{line_read, column_read, column_in};
ghost use Rattle.needs.specs.inner.Walk.{ascends};

use super::{Judgement, one, walk};
use text::{Feature, Profile};

// A column: the profile, its mark in the lines, and how long a body may be.
#[derive(Clone, Copy)]
pub struct Column(pub Profile, pub u8, pub u8);

// A line: the marks of the columns that it stands in, the feature that they need, the least length of its body, a place in the body, which is the descriptor's byte 4
// further on, the bits that must be set there, and the flags that must be set.
#[derive(Clone, Copy)]
pub struct Need(pub u8, pub Feature, pub u8, pub u8, pub u8, pub u8);

// The columns: profile, mark, longest body. FFFFh, removable disk, CD-ROM, DVD-ROM, DVD-RAM, the archive subset.
const COLUMNS: [u32; 6] = [
    0xFFFF_01_FF,
    0x0002_02_FF,
    0x0008_04_FF,
    0x0010_08_FF,
    0x0012_10_FF,
    0x0000_20_20,
];

// The lines: marks, feature, least length, place, bits, flags.
const LINES: [u64; 17] = [
    0x3F_0000_00_00_00_00,
    0x3F_0001_00_00_00_00,
    0x3E_0002_00_00_00_00,
    0x1E_0003_00_00_00_00,
    0x20_0003_04_00_01_00,
    0x3E_0010_08_06_01_00,
    0x04_001E_00_00_00_00,
    0x38_001F_00_00_00_00,
    0x12_0020_00_00_00_00,
    0x20_0020_00_00_00_01,
    0x32_0023_00_00_00_00,
    0x12_0024_00_00_00_00,
    0x20_0024_00_00_00_01,
    0x3E_0100_00_00_00_00,
    0x32_0101_00_00_00_00,
    0x3E_0105_00_00_00_00,
    0x38_0107_00_00_00_00,
];

// A column without a mark, for a profile that has none.
const NO_COLUMN: Column = Column(Profile(0xFFFF), 0, 0);

// A column, read out of its row.
fn column_read(row: u32) -> Column
    ensures { result ≡ column_read row }
{
    let profile = Profile((row / 0x10000) as u16);
    Column(profile, (row / 0x100 % 0x100) as u8, (row % 0x100) as u8)
}

// A line, read out of its row.
pub fn line_read(row: u64) -> Need
    ensures { result ≡ line_read row }
{
    let feature = Feature((row / 0x100000000 % 0x10000) as u16);
    Need(
        (row / 0x1000000000000 % 0x100) as u8,
        feature,
        (row / 0x1000000 % 0x100) as u8,
        (row / 0x10000 % 0x100) as u8,
        (row / 0x100 % 0x100) as u8,
        (row % 0x100) as u8,
    )
}

// The column of a profile in a table.
fn column_in(rows: &[u32], profile: Profile) -> Column
    ensures { result ≡ column_in rows.now profile.0 }
{
    let mut i = 0;
    while i < rows.len() {
        let column = column_read(rows[i]);
        if column.0.0 == profile.0 {
            return column;
        }
        i += 1;
    }
    NO_COLUMN
}

// The column of a profile.
pub fn column_of(profile: Profile) -> Column
    ensures { result ≡ column_of profile.0 }
{
    let rows = COLUMNS;
    column_in(&rows[..], profile)
}

// The lowest feature of a complete response that breaks a column.
// Asks: a response that is accepted and complete, which the reading's numbers and 29 have shown before, and a column whose lines ascend, as those of the table do.
pub fn lowest_broken(column: Column, s: &[u8]) -> Judgement
    requires { ((complete_fault s.now).number ≡ 0) × (ascends column.1 required ≡ true) }
    ensures { said result ≡ lowest column (descs s.now) }
{
    let rows = LINES;
    walk::lowest_in(&rows[..], column, s)
}

// A feature of a complete response, by a column.
// Asks: a response that is accepted and complete, which the reading's numbers and 29 have shown before.
pub fn judged_one(column: Column, feature: Feature, s: &[u8]) -> Judgement
    requires { (complete_fault s.now).number ≡ 0 }
    ensures { said result ≡ lowest_from (wrong_in required column (descs s.now)) feature.0 1 }
{
    let rows = LINES;
    let need = one::line_in(&rows[..], column.1, feature);
    one::judged_in(column, need, feature, s)
}
