// What is wrong with one feature, whatever the others have.
ghost use Rattle.std.specs.Prelude.{◌≡◌, ◌&&◌, [], ◌∷◌, eqb};
ghost use Rattle.text.specs.Reading.{desc_at};
ghost use Rattle.reading.specs.Places.{descs};
ghost use Rattle.reading.specs.Completed.{complete_fault};
ghost use Rattle.needs.specs.Required.{marked};
ghost use Rattle.needs.specs.Judge.{said, desc_of, wrong_of};
ghost use Rattle.needs.specs.inner.Table.{lines_in};
ghost use Rattle.needs.specs.inner.Alone.{line_in, line_list, says_one};

use super::table::{Column, Need};
use super::walk::Fit;
use super::{Judgement, Wrong, table, walk};
use text::{Feature, Header};

// A line without a mark, for a feature that has none.
const NO_NEED: Need = Need(0, Feature(0), 0, 0, 0, 0);

// ---- its line

// Whether a line stands in the column with this mark and names this feature.
fn is_of(mark: u8, feature: Feature, need: Need) -> bool
    ensures { result ≡ (marked mark need && eqb need.1.0 feature.0) }
{
    if walk::is_marked(mark, need) {
        return need.1.0 == feature.0;
    }
    false
}

// The line of a column of a table that names a feature.
pub fn line_in(rows: &[u64], mark: u8, feature: Feature) -> Need
    ensures { result ≡ line_in mark feature.0 (lines_in rows.now) }
{
    let mut i = 0;
    while i < rows.len() {
        let need = table::line_read(rows[i]);
        if is_of(mark, feature, need) {
            return need;
        }
        i += 1;
    }
    NO_NEED
}

// ---- its descriptor

// A feature that is not needed, at its descriptor: it may only be too long.
fn free_at(longest: u8, feature: Feature, s: &[u8], at: usize) -> Judgement
    ensures { said result ≡ says_one feature.0 (wrong_of longest [] (desc_at s.now at ∷ [])) }
{
    if walk::long_at(longest, s, at) {
        return Judgement::Broken(feature, Wrong::TooLong);
    }
    Judgement::Conforms
}

// One that is needed, at its descriptor.
fn needed_at(need: Need, longest: u8, feature: Feature, s: &[u8], at: usize) -> Judgement
    ensures { said result ≡ says_one feature.0 (wrong_of longest (need ∷ []) (desc_at s.now at ∷ [])) }
{
    match walk::fit_at(need, longest, s, at) {
        Fit::Fits => Judgement::Conforms,
        Fit::Lacks(wrong) => Judgement::Broken(feature, wrong),
    }
}

// Either, by its line.
fn judged_at(column: Column, need: Need, feature: Feature, s: &[u8], at: usize) -> Judgement
    ensures { said result ≡ says_one feature.0 (wrong_of column.2 (line_list column.1 need) (desc_at s.now at ∷ [])) }
{
    if walk::is_marked(column.1, need) {
        return needed_at(need, column.2, feature, s, at);
    }
    free_at(column.2, feature, s, at)
}

// A feature that has no descriptor.
fn judged_absent(column: Column, need: Need, feature: Feature) -> Judgement
    ensures { said result ≡ says_one feature.0 (wrong_of column.2 (line_list column.1 need) []) }
{
    if walk::is_marked(column.1, need) {
        return Judgement::Broken(feature, Wrong::Absent);
    }
    Judgement::Conforms
}

// A feature by its line: at its descriptor, if there is one.
// Asks: a response that is accepted and complete, which the reading's numbers and 29 have shown before.
pub fn judged_in(column: Column, need: Need, feature: Feature, s: &[u8]) -> Judgement
    requires { (complete_fault s.now).number ≡ 0 }
    ensures { said result ≡ says_one feature.0 (wrong_of column.2 (line_list column.1 need) (desc_of feature.0 (descs s.now))) }
{
    let mut at = Header::LENGTH;
    while at < s.len() {
        let number = reading::number_at(s, at);
        if number.0 == feature.0 {
            return judged_at(column, need, feature, s, at);
        }
        at = reading::next_at(s, at);
    }
    judged_absent(column, need, feature)
}
