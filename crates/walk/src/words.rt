//! The words for tasks, scopes and actions.
ghost use Rattle.std.specs.Prelude.{◌≡◌, ◌==◌, cond, Some};
ghost use Rattle.walk.specs.Words.{task_name, scope_name, counted};

use orderings::Kind;
use rules::{ADD, READ, Rule, WRITE};
use shorthand::Action;
use std::fmt;

/// A task by its name.
#[derive(Drop)]
pub(crate) struct Named(pub(crate) u32);

impl fmt::Display for Named {
    ghost output = { λ named. Some (task_name named.0) };

    fn fmt<W: fmt::Write>(&self, f: &mut fmt::Formatter<W>) -> fmt::Result {
        let number = self.0;
        if number == 0 {
            write!(f, "main")
        } else {
            write!(f, "task {number}")
        }
    }
}

/// A scope, by its kind and number.
#[derive(Drop)]
pub(crate) struct Scope {
    pub(crate) kind: Kind,
    pub(crate) number: u32,
}

impl fmt::Display for Scope {
    ghost output = { λ scope. Some (scope_name scope.kind scope.number) };

    fn fmt<W: fmt::Write>(&self, f: &mut fmt::Formatter<W>) -> fmt::Result {
        let number = self.number;
        match self.kind {
            Kind::Task => write!(f, "task {number}"),
            Kind::Finish => write!(f, "finish {number}"),
        }
    }
}

/// The word for one thing or for several.
fn plural(number: u32, one: &'static str, many: &'static str) -> &'static str
    ensures { result.now ≡ cond (number == 1) one.now many.now }
{
    if number == 1 { one } else { many }
}

/// A number of things, with the word for one thing or for several.
#[derive(Drop)]
pub(crate) struct Counted {
    pub(crate) number: u32,
    pub(crate) one: &'static str,
    pub(crate) many: &'static str,
}

impl fmt::Display for Counted {
    ghost output = { λ things. Some (counted things.number things.one.now things.many.now) };

    fn fmt<W: fmt::Write>(&self, f: &mut fmt::Formatter<W>) -> fmt::Result {
        let number = self.number;
        let word = plural(number, self.one, self.many);
        write!(f, "{number} {word}")
    }
}

/// The fields whose bits are set in a mask of four bits.
#[derive(Drop)]
struct Fields(u32);

impl fmt::Display for Fields {
    fn fmt<W: fmt::Write>(&self, f: &mut fmt::Formatter<W>) -> fmt::Result {
        let word = plural(self.0.count_ones(), "field", "fields");
        write!(f, "{word}")?;
        for field in 0..4u32 {
            if (self.0 >> field) & 1 == 1 {
                write!(f, " {field}")?;
            }
        }
        Ok(())
    }
}

/// A class under the field rule.
#[derive(Drop)]
struct FieldClass(u32);

impl fmt::Display for FieldClass {
    fn fmt<W: fmt::Write>(&self, f: &mut fmt::Formatter<W>) -> fmt::Result {
        let read = self.0 & 0xF;
        let written = (self.0 >> 4) & 0xF;
        if read != 0 {
            let fields = Fields(read);
            write!(f, "reads {fields}")?;
        }
        if read != 0 && written != 0 {
            write!(f, ", ")?;
        }
        if written != 0 {
            let fields = Fields(written);
            write!(f, "writes {fields}")?;
        }
        Ok(())
    }
}

/// What a task does, under a rule.
#[derive(Drop)]
pub(crate) struct Deed {
    pub(crate) rule: Rule,
    pub(crate) task: u32,
    pub(crate) action: Action,
}

fn access<W: fmt::Write>(
    f: &mut fmt::Formatter<W>,
    rule: Rule,
    class: u32,
    record: u32,
) -> fmt::Result {
    match (rule, class) {
        (Rule::Field(_), 0) => write!(f, "accesses record {record} with class 00 (no field)"),
        (Rule::Field(_), _) => {
            let fields = FieldClass(class);
            write!(
                f,
                "accesses record {record} with class {class:02X} ({fields})"
            )
        }
        (_, READ) => write!(f, "reads record {record}"),
        (_, WRITE) => write!(f, "writes record {record}"),
        (_, ADD) => write!(f, "adds to record {record}"),
        _ => write!(f, "accesses record {record} with class {class:02X}"),
    }
}

impl fmt::Display for Deed {
    fn fmt<W: fmt::Write>(&self, f: &mut fmt::Formatter<W>) -> fmt::Result {
        let who = Named(self.task);
        write!(f, "{who} ")?;
        match self.action {
            Action::OpenTask => write!(f, "opens a task"),
            Action::OpenFinish => write!(f, "opens a finish"),
            Action::Close => write!(f, "closes a scope"),
            Action::Access(class, record) => access(f, self.rule, class, record),
            Action::Ask(task) => {
                let asked = Named(task);
                write!(f, "asks about {asked}")
            }
        }
    }
}
