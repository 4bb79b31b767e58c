//! Columns of fields.

ghost use Rattle.std.specs.Prelude.{◌≡◌, ◌+◌, ◌<◌, ◌≤◌, IfNone, IfSome, length};
ghost use Rattle.pp_instructions.specs.Column.{begins_field, column_of};
ghost use Rattle.pp_instructions.specs.FieldsBefore.{IsFieldAt, fields_before};

use pp_deck::is_blank;
use std::marker::Model;

/// The columns of the fields of a line. Those that are asked for from left to right are found in
/// one walk. Contracts see the line.
#[derive(Drop)]
pub struct Columns<'a> {
    line: &'a [u8],
    /// How many characters have been passed over.
    place: usize,
    /// How many fields begin with one of them.
    passed: usize,
}

impl<'a> Model for Columns<'a> {
    ghost use Rattle.std.specs.Prelude.{◌≡◌, ◌≤◌, ℕ, List, length};
    ghost use Rattle.pp_instructions.specs.FieldsBefore.{fields_before};

    ghost Value = { List ℕ };

    ghost view = { λ columns. columns.line.now };

    ghost invariant = { λ columns. (columns.place ≤ length columns.line.now)
        × (fields_before columns.line.now columns.place ≡ columns.passed) };
}

impl<'a> Columns<'a> {
    /// The columns of a line.
    pub fn of(line: &'a [u8]) -> Columns<'a>
        ensures { result ≡ line.now }
    {
        Columns {
            line,
            place: 0,
            passed: 0,
        }
    }

    /// The column in which field n begins, from 1 on; n counts from 0. Column 1 if the line has no
    /// such field.
    pub fn column_of(&mut self, n: usize) -> u64
        ensures value { result ≡ column_of self.old n }
        ensures same { self.new ≡ self.old }
        ensures bound { result ≤ length self.old + 1 }
    {
        let is_passed = n < self.passed;
        let from = if is_passed { 0 } else { self.place };
        let passed = if is_passed { 0 } else { self.passed };
        match place_of(self.line, n, from, passed) {
            Some(place) => {
                self.place = place;
                self.passed = n;
                place as u64 + 1
            }
            None => 1,
        }
    }
}

/// Where field n of a line begins, looked for from `from` on, before which `passed` fields begin.
fn place_of(line: &[u8], n: usize, from: usize, passed: usize) -> Option<usize>
    requires from { from ≤ length line.now }
    requires counted { fields_before line.now from ≡ passed }
    requires few { passed ≤ n }
    ensures here { IfSome result (λ place. IsFieldAt line.now n place) }
    ensures none { IfNone result (fields_before line.now (length line.now) ≤ n) }
{
    let mut passed = passed;
    for place in from..line.len() {
        let begins = begins_field(line, place);
        if begins && passed == n {
            return Some(place);
        }
        passed += usize::from(begins);
    }
    None
}

/// Whether a field begins with this character of a line.
pub fn begins_field(line: &[u8], place: usize) -> bool
    requires { place < length line.now }
    ensures { result ≡ begins_field line.now place }
{
    !is_blank(line[place]) && (place == 0 || is_blank(line[place - 1]))
}
