//! Whole plans.
ghost use Rattle.std.specs.Prelude.{◌≡◌, ◌≤◌, ◌+◌, length};
ghost use Rattle.std.specs.List.{prefix_len};
ghost use Rattle.shorthand.specs.Reader.{left, StandsAt};
ghost use Rattle.shorthand.specs.Reading.{is_blank, named, heading, said, counted, put_over, read_answer, read_into};
ghost use Rattle.shorthand.specs.Written.{ReadBack};

use crate::reader::Reader;
use crate::words::{Action, Fault, Misread, Plan};
use rules::{Depot, Field, Plain, Rule};

/// Whether the character is a blank. A form feed, which `is_ascii_whitespace` takes too, is none.
fn is_blank(c: u8) -> bool
    ensures { result ≡ is_blank c }
{
    matches!(c, b' ' | b'\t' | b'\r' | b'\n')
}

impl Reader<'_> {
    /// Reads over any blanks.
    fn skip_blanks(&mut self)
        ensures { StandsAt self.old self.new (self.old.at + prefix_len is_blank (left self.old)) }
    {
        // By index: an iterator costs the runner that counts steps a quarter more, and `get` the built program.
        while self.at < self.text.len() && is_blank(self.text[self.at]) {
            self.at += 1;
        }
    }

    /// Reads the name of a rule; the plain rule where none is named.
    fn named(&mut self) -> Rule
        ensures rule { (result, self.new.at) ≡ named self.old.at (left self.old) }
        ensures text { self.new.text.now ≡ self.old.text.now }
    {
        if self.skip(b"depot") {
            Rule::Depot(Depot {})
        } else if self.skip(b"field") {
            Rule::Field(Field {})
        } else {
            self.skip(b"plain");
            Rule::Plain(Plain {})
        }
    }

    /// The same, behind any blanks.
    #[tactic(auto, using(crate::proofs::Readers::heading_behind))]
    fn rule(&mut self) -> Rule
        ensures rule { (result, self.new.at) ≡ heading self.old.at (left self.old) }
        ensures text { self.new.text.now ≡ self.old.text.now }
    {
        self.skip_blanks();
        self.named()
    }

    /// Reads the actions up to the end, puts them into the places lent, and counts them.
    fn actions(&mut self, places: &mut [Action]) -> Result<usize, Misread>
        requires { length self.old.text.now ≤ length places.old }
        ensures answer { result ≡ counted (said self.old.at self.old.at (left self.old)) }
        ensures places { places.new ≡ put_over (said self.old.at self.old.at (left self.old)).actions places.old }
    {
        for (count, place) in places.iter_mut().enumerate() {
            self.skip_blanks();
            if self.left().is_empty() {
                return Ok(count);
            }
            *place = self.action()?;
        }
        Ok(places.len())
    }
}

/// Reads a plan: the rule, and the actions, which are put into the places lent. There has to be a place for each character of the text.
/// Where the text is misread, the actions ahead of the fault are in their places.
pub fn read(text: &[u8], actions: &mut [Action]) -> Result<Plan, Fault>
    ensures answer { result ≡ read_answer (length actions.old) text.now }
    ensures places { actions.new ≡ read_into actions.old text.now }
    ensures back { ReadBack text.now actions.old actions.new result }
{
    if actions.len() < text.len() {
        return Err(Fault::NoRoom);
    }
    let mut reader = Reader::new(text);
    let rule = reader.rule();
    let count = reader.actions(actions)?;
    Ok(Plan { rule, count })
}
