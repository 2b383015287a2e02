//! The lines that a walk prints.
ghost use Rattle.std.specs.Prelude.{Some};
ghost use Rattle.walk.specs.Lines.{Plainly};
ghost use Rattle.walk.specs.Words.{totals_text, summary_text};

use crate::calls::{NUMBERS, RECORDS};
use crate::steps::{Step, Walk};
use crate::words::{Counted, Deed, Named, Scope};
use conversation::Ending;
use orderings::{Kind, Told, Word};
use rules::Rule;
use shorthand::Action;
use std::{fmt, io};
use trace_check::{Counts, Refusal, Reply};

/// The line of a step.
#[derive(Drop)]
struct Line<'a> {
    rule: Rule,
    /// The events so far are given by their numbers.
    events: &'a [Step],
    step: Step,
    ghost plainly: { Plainly step.reply },
}

impl Line<'_> {
    fn deed(&self, step: Step) -> Deed {
        Deed {
            rule: self.rule,
            task: step.task,
            action: step.action,
        }
    }

    fn fmt_opened<W: fmt::Write>(&self, f: &mut fmt::Formatter<W>, number: u32) -> fmt::Result {
        let event = self.events.len();
        let who = Named(self.step.task);
        let kind = match self.step.action {
            Action::OpenTask => Kind::Task,
            _ => Kind::Finish,
        };
        let scope = Scope { kind, number };
        write!(f, "event {event}: {who} opens {scope}")
    }

    /// The scope closed is the task that the close belongs to, or else a finish.
    fn fmt_closed<W: fmt::Write>(&self, f: &mut fmt::Formatter<W>, number: u32) -> fmt::Result {
        let event = self.events.len();
        let kind = if number == self.step.task {
            Kind::Task
        } else {
            Kind::Finish
        };
        let scope = Scope { kind, number };
        write!(f, "event {event}: {scope} ends")
    }

    fn fmt_clear<W: fmt::Write>(&self, f: &mut fmt::Formatter<W>) -> fmt::Result {
        let event = self.events.len();
        let deed = self.deed(self.step);
        write!(f, "event {event}: {deed}: clear")
    }

    fn fmt_clash<W: fmt::Write>(&self, f: &mut fmt::Formatter<W>, earlier: u32) -> fmt::Result {
        let event = self.events.len();
        let deed = self.deed(self.step);
        write!(f, "event {event}: {deed}: CLASH with event {earlier}")?;
        if let Some(first) = self.events.get(earlier as usize) {
            let other = self.deed(*first);
            write!(f, ", where {other}")?;
        }
        write!(f, ": the two can come in either order")
    }

    fn fmt_told<W: fmt::Write>(&self, f: &mut fmt::Formatter<W>, word: Word) -> fmt::Result {
        let deed = self.deed(self.step);
        let who = Named(self.step.task);
        match word {
            Word::Before => write!(
                f,
                "question: {deed}: it is before, what it did comes ahead of what {who} does next"
            ),
            Word::Unordered => write!(
                f,
                "question: {deed}: it is unordered, what {who} does next can come ahead of it"
            ),
        }
    }

    fn fmt_refused<W: fmt::Write>(
        &self,
        f: &mut fmt::Formatter<W>,
        refusal: Refusal,
    ) -> fmt::Result {
        let deed = self.deed(self.step);
        let code = refusal.code();
        let number = code.number;
        let layer = code.layer;
        let layer_number = u8::from(layer);
        write!(
            f,
            "no event: {deed}: REFUSED by {number} of layer {layer_number}, {layer}: {refusal}"
        )
    }
}

impl fmt::Display for Line<'_> {
    fn fmt<W: fmt::Write>(&self, f: &mut fmt::Formatter<W>) -> fmt::Result {
        match self.step.reply {
            Ok(Reply::Opened(scope)) => self.fmt_opened(f, scope),
            Ok(Reply::Closed(scope)) => self.fmt_closed(f, scope),
            Ok(Reply::Found(None)) => self.fmt_clear(f),
            Ok(Reply::Found(Some((earlier, _)))) => self.fmt_clash(f, earlier),
            Ok(Reply::Told(Told::Word(word))) => self.fmt_told(f, word),
            Ok(Reply::Told(_)) => unreachable(),
            Err(refusal) => self.fmt_refused(f, refusal),
        }
    }
}

/// How many accesses, clashes and scopes there were.
#[derive(Drop)]
struct Totals(Counts);

impl fmt::Display for Totals {
    ghost output = { λ totals. Some (totals_text totals.0) };

    fn fmt<W: fmt::Write>(&self, f: &mut fmt::Formatter<W>) -> fmt::Result {
        let accesses = Counted {
            number: self.0.accesses,
            one: "access",
            many: "accesses",
        };
        let clashes = self.0.clashes;
        let scopes = Counted {
            number: self.0.scopes,
            one: "scope",
            many: "scopes",
        };
        write!(f, "{accesses}, {clashes} with a clash, {scopes} begun")
    }
}

/// The last line.
#[derive(Drop)]
struct Summary(Ending);

impl fmt::Display for Summary {
    ghost output = { λ summary. Some (summary_text summary.0) };

    fn fmt<W: fmt::Write>(&self, f: &mut fmt::Formatter<W>) -> fmt::Result {
        match self.0 {
            Ending::Verdict(counts) => {
                let totals = Totals(counts);
                write!(f, "verdict: {totals}")
            }
            Ending::GivenUp(counts) => {
                let totals = Totals(counts);
                write!(
                    f,
                    "given up, for a scope besides main is still open: {totals}"
                )
            }
        }
    }
}

/// A line for each step.
fn tell_steps(rt: &HostRuntime, rule: Rule, walk: &Walk) -> io::Result<()> {
    let mut events = Vec::new(rt.alloc());
    for step in &walk.steps {
        let line = Line {
            rule,
            events: &events,
            step: *step,
        };
        println!(rt; "{line}")?;
        if step.is_event() {
            events.push(*step)?;
        }
    }
    Ok(())
}

/// The whole walk.
pub(crate) fn tell(rt: &HostRuntime, rule: Rule, walk: &Walk) -> io::Result<()> {
    println!(rt; "rule {rule}, {RECORDS} records, {NUMBERS} scope numbers")?;
    tell_steps(rt, rule, walk)?;
    let summary = Summary(walk.ending);
    println!(rt; "{summary}")
}
