use super::*;

#[test]
fn plain_lets_two_reads_pass(rt: HostRuntime) {
    let rule = Plain {};
    assert!(rt; !rule.clashes(READ, READ));
    assert!(rt; rule.clashes(READ, WRITE));
    assert!(rt; rule.clashes(WRITE, READ));
    assert!(rt; rule.clashes(WRITE, WRITE));
}

#[test]
fn depot_lets_two_adds_pass(rt: HostRuntime) {
    let rule = Depot {};
    assert!(rt; !rule.clashes(READ, READ));
    assert!(rt; !rule.clashes(ADD, ADD));
    assert!(rt; rule.clashes(ADD, READ));
    assert!(rt; rule.clashes(WRITE, ADD));
}

#[test]
fn field_classes_meet_in_a_field(rt: HostRuntime) {
    let rule = Field {};
    assert!(rt; !rule.clashes(0x10, 0x02), "field 0 written, field 1 read");
    assert!(rt; rule.clashes(0x10, 0x01), "field 0 written, field 0 read");
    assert!(rt; rule.clashes(0x08, 0x80), "field 3 read, field 3 written");
    assert!(rt; rule.clashes(0x40, 0x40), "field 2 written twice");
    assert!(rt; !rule.clashes(0x0F, 0x0F), "all read");
}

#[test]
fn known_classes_end_at_the_edges(rt: HostRuntime) {
    assert!(rt; Plain {}.knows(0) && Plain {}.knows(1) && !Plain {}.knows(2));
    assert!(rt; Depot {}.knows(0) && Depot {}.knows(2) && !Depot {}.knows(3));
    assert!(rt; !Field {}.knows(0) && Field {}.knows(1));
    assert!(rt; Field {}.knows(255) && !Field {}.knows(256));
}

#[test]
fn rules_are_found_by_number(rt: HostRuntime) {
    for number in 0..3 {
        assert!(rt; Rule::try_from(number).is_ok_and(|rule| rule.rule_number() == number));
    }
    assert_eq!(rt; Rule::try_from(3), Err(UnknownRule {}));
}

#[test]
fn any_rule_answers_as_the_rule_it_holds(rt: HostRuntime) {
    let rule = Rule::Depot(Depot {});
    assert!(rt; rule.knows(ADD) && !rule.clashes(ADD, ADD));
    assert!(rt; !Rule::Plain(Plain {}).knows(ADD));
    assert!(rt; Rule::Field(Field {}).clashes(0x10, 0x01));
}
