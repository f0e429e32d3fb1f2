// The steps of a reader: each takes what comes next from a cursor, or refuses it with a fault.
ghost use Rattle.std.specs.Prelude.{◌≡◌, ℕ, ◌≤◌, true, false, length, drop, MatchOption, OnOk, ◌==◌, slice_index};
ghost use Rattle.limits.specs.Limits.{column_bytes};
ghost use Rattle.cursors.specs.Steps.{start, block, past, below, here, shown, lies, field, number, number_below, seat, word, at_word, line_end, flawed, page_end, outcome, outcome_by};

use crate::cursor::Cursor;
use crate::numbers::Number;
use columns::Word;
use faults::{Fault, Reason};
use limits::COLUMN_BYTES;
use std::ops::RangeBounds;

impl<'a> Cursor<'a> {
    // A cursor at the first byte of a page that is not too long.
    pub fn open(page: &'a [u8]) -> Cursor<'a>
        requires { length page.now ≤ 32768 }
        ensures { result ≡ start page.now }
    {
        Cursor {
            rest: page,
            line: 1,
            column: 1,
        }
    }

    // A fault at the column that comes next.
    fn fault(&self, reason: Reason) -> Fault
        ensures { result ≡ here reason self.now }
    {
        Fault::on_page(reason, self.line, self.column)
    }

    // The next column, where so many bytes are left.
    fn next_column(&self) -> Option<&'a [u8]>
        ensures { MatchOption result (block column_bytes self.now ≡ None) (λ column. (block column_bytes self.now ≡ Some column.now) × (length column.now ≡ column_bytes) × (column_bytes ≤ length self.now.rest)) }
    {
        self.rest.get(..COLUMN_BYTES)
    }

    // Goes on behind the next column.
    fn pass_column(&mut self)
        requires { column_bytes ≤ length self.old.rest }
        ensures { self.new ≡ past column_bytes self.old }
    {
        self.rest = &self.rest[COLUMN_BYTES..];
        self.column += 1;
    }

    // What is left behind a line feed, where one comes next.
    fn next_line(&self) -> Option<&'a [u8]>
        ensures { MatchOption result ((slice_index self.now.rest 0 == 10) ≡ false) (λ rest. ((slice_index self.now.rest 0 == 10) ≡ true) × (1 ≤ length self.now.rest) × (rest.now ≡ drop 1 self.now.rest)) }
    {
        self.rest.strip_prefix(b"\n")
    }

    // The number in the next column.
    fn shown(&self) -> Result<u64, Fault>
        ensures value { result ≡ shown self.now }
        ensures wide { OnOk result (column_bytes ≤ length self.now.rest) }
    {
        let Some(column) = self.next_column() else {
            return Err(self.fault(Reason::Layout));
        };
        let Some(value) = columns::number(column) else {
            return Err(self.fault(Reason::Layout));
        };
        Ok(value)
    }

    // A number that lies in a range, or else this fault.
    fn within<N: Number, R: RangeBounds<u64>>(
        &mut self,
        range: R,
        otherwise: Reason,
    ) -> Result<N, Fault>
        requires known { R.has_bounds range }
        requires narrow { (v : ℕ) → lies (R.start_bound range) (R.end_bound range) v ≡ true → v ≤ N.greatest }
        ensures { outcome_by N.value result self.new ≡ field (lies (R.start_bound range) (R.end_bound range)) otherwise self.old }
    {
        let value = self.shown()?;
        match N::narrow(value) {
            Some(number) if range.contains(&value) => {
                self.pass_column();
                Ok(number)
            }
            _ => Err(self.fault(otherwise)),
        }
    }

    // A number from `low` to `high`.
    pub fn number<N: Number>(&mut self, low: N, high: N) -> Result<N, Fault>
        ensures { outcome_by N.value result self.new ≡ number (N.value low) (N.value high) self.old }
    {
        self.within(low.wide()..=high.wide(), Reason::NumberBeyondLimits)
    }

    // A number below `end`.
    pub fn below(&mut self, end: u8) -> Result<u8, Fault>
        ensures { outcome result self.new ≡ number_below end self.old }
    {
        self.within(..u64::from(end), Reason::NumberBeyondLimits)
    }

    // A seat from `low` on, of the `n` that there are.
    pub fn seat(&mut self, low: u8, n: u8) -> Result<u8, Fault>
        ensures { outcome result self.new ≡ seat low n self.old }
    {
        self.within(u64::from(low)..u64::from(n), Reason::ListNotRising)
    }

    // Whether the next column holds the word.
    pub fn at_word(&self, expected: Word) -> bool
        ensures value { result ≡ at_word expected self.now }
        ensures wide { result ≡ true → 6 ≤ length self.now.rest }
    {
        let Some(column) = self.next_column() else {
            return false;
        };
        columns::holds(column, expected)
    }

    // A word that has to stand here.
    pub fn word(&mut self, expected: Word) -> Result<(), Fault>
        ensures { outcome result self.new ≡ word expected self.old }
    {
        if !self.at_word(expected) {
            return Err(self.fault(Reason::Layout));
        }
        self.pass_column();
        Ok(())
    }

    // The end of a line.
    pub fn end_line(&mut self) -> Result<(), Fault>
        ensures { outcome result self.new ≡ line_end self.old }
    {
        let Some(rest) = self.next_line() else {
            return Err(self.fault(Reason::Layout));
        };
        self.rest = rest;
        self.line += 1;
        self.column = 1;
        Ok(())
    }

    // The end of a line whose columns have to fit together: where they do not, a fault at its column 0.
    pub fn close_line(&mut self, flaw: Option<Reason>) -> Result<(), Fault>
        ensures { outcome result self.new ≡ flawed flaw self.old }
    {
        let line = self.line;
        self.end_line()?;
        match flaw {
            None => Ok(()),
            Some(reason) => Err(Fault::on_page(reason, line, 0)),
        }
    }

    // The end of the page.
    pub fn end_page(&self) -> Result<(), Fault>
        ensures { outcome result self.now ≡ page_end self.now }
    {
        if self.rest.is_empty() {
            Ok(())
        } else {
            Err(self.fault(Reason::Layout))
        }
    }
}
