use super::*;
use rules::ClashRule;
use std::process::Abort;
use std::test::Fail;

/// The number of the rule and the only action of a text.
fn single(rt: &impl Abort, text: &[u8]) -> Result<(u32, Action), Fail> {
    let mut actions = [Action::Close; 16];
    let plan = read(text, &mut actions)?;
    assert_eq!(rt; plan.count, 1);
    Ok((plan.rule.rule_number(), actions[0]))
}

fn is_single(rt: &impl Abort, text: &[u8], rule: u32, action: Action) -> Result<(), Fail> {
    assert_eq!(rt; single(rt, text)?, (rule, action));
    Ok(())
}

fn outcome(text: &[u8]) -> Result<Plan, Fault> {
    read(text, &mut [Action::Close; 16])
}

fn misread(position: usize, reason: Reason) -> Result<Plan, Fault> {
    Err(Fault::Misread(Misread { position, reason }))
}

#[test]
fn each_action_is_read(rt: HostRuntime) -> Result<(), Fail> {
    is_single(&rt, b"T", 0, Action::OpenTask)?;
    is_single(&rt, b"F", 0, Action::OpenFinish)?;
    is_single(&rt, b")", 0, Action::Close)?;
    is_single(&rt, b"r5", 0, Action::Access(0, 5))?;
    is_single(&rt, b"w005", 0, Action::Access(1, 5))?;
    is_single(&rt, b"a4294967295", 0, Action::Access(2, 4294967295))?;
    is_single(&rt, b"?12", 0, Action::Ask(12))
}

#[test]
fn classes_are_two_digits(rt: HostRuntime) -> Result<(), Fail> {
    is_single(&rt, b"10@3", 0, Action::Access(0x10, 3))?;
    is_single(&rt, b"0A@3", 0, Action::Access(0x0A, 3))?;
    assert_eq!(rt;
        single(&rt, b"F0@3")?,
        (0, Action::Access(0xF0, 3)),
        "an F that begins a class opens no finish"
    );
    is_single(&rt, b"FF@3", 0, Action::Access(0xFF, 3))
}

#[test]
fn the_rule_is_named_first(rt: HostRuntime) -> Result<(), Fail> {
    is_single(&rt, b"plain T", 0, Action::OpenTask)?;
    is_single(&rt, b"depot\n)", 1, Action::Close)?;
    is_single(&rt, b"\r\n field\tT", 2, Action::OpenTask)
}

#[test]
fn actions_are_parted_by_anything_or_nothing(rt: HostRuntime) -> Result<(), Fail> {
    let mut actions = [Action::Close; 16];
    let plan = read(b"F10@3 \t\r\nr1w2)", &mut actions)?;
    assert_eq!(rt; plan.count, 5);
    let expected = [
        Action::OpenFinish,
        Action::Access(0x10, 3),
        Action::Access(0, 1),
        Action::Access(1, 2),
        Action::Close,
    ];
    assert_eq!(rt; actions[..5], expected[..]);
    Ok(())
}

#[test]
fn what_is_no_action_is_misread(rt: HostRuntime) {
    assert_eq!(rt; outcome(b"x"), misread(1, Reason::NoAction));
    assert_eq!(rt; outcome(b"T t"), misread(3, Reason::NoAction));
    assert_eq!(rt;
        outcome(b"T plain"),
        misread(3, Reason::NoAction),
        "a rule is named first only"
    );
    assert_eq!(rt; outcome(b"dep T"), misread(1, Reason::NoAction));
}

#[test]
fn numbers_are_misread(rt: HostRuntime) {
    assert_eq!(rt;
        outcome(b"T r"),
        misread(4, Reason::NoNumber),
        "behind the last character"
    );
    assert_eq!(rt; outcome(b"r w5"), misread(2, Reason::NoNumber));
    assert_eq!(rt; outcome(b"?-1"), misread(2, Reason::NoNumber));
    assert_eq!(rt; outcome(b"r4294967296"), misread(2, Reason::TooLarge));
    assert_eq!(rt; outcome(b"r99999999999999"), misread(2, Reason::TooLarge));
}

#[test]
fn classes_are_misread(rt: HostRuntime) {
    assert_eq!(rt; outcome(b"1@3"), misread(2, Reason::NoDigit));
    assert_eq!(rt;
        outcome(b"1a@3"),
        misread(2, Reason::NoDigit),
        "digits are capitals"
    );
    assert_eq!(rt; outcome(b"10 3"), misread(3, Reason::NoAt));
    assert_eq!(rt; outcome(b"100@3"), misread(3, Reason::NoAt));
    assert_eq!(rt; outcome(b"10@"), misread(4, Reason::NoNumber));
}

#[test]
fn each_character_wants_a_place(rt: HostRuntime) {
    let mut actions = [Action::Close; 4];
    assert_eq!(rt; read(b"plain", &mut actions), Err(Fault::NoRoom));
}
