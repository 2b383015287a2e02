//! Each refusal of the check by the state that brings it about, and the order in which they are tested.
use orderings::{Bags, Entry, Kind, Ordering};
use rows::{Row, Slot};
use rules::Plain;
use std::test::Fail;
use trace_check::{Check, Counts};

/// A start, or the number by which it is refused.
fn start(bags: &Bags, rows: &mut [Row], limit: u32) -> Result<(), u8> {
    let check = Check::start(bags, rows, limit).map_err(|refusal| refusal.code().number)?;
    let _ = check.give_up(bags);
    Ok(())
}

#[test]
fn start_refuses_rows_limit_and_scopes_begun(rt: HostRuntime) {
    let mut table = [Entry::EMPTY; 2];
    let mut bags = Bags::new(&mut table);
    let mut rows = [Row::EMPTY; 2];
    let mut none: [Row; 0] = [];
    assert_eq!(rt; start(&bags, &mut none, 10), Err(13));
    assert_eq!(rt; start(&bags, &mut rows, 0), Err(13));
    assert_eq!(rt; start(&bags, &mut rows, 1000001), Err(13));
    assert_eq!(rt; start(&bags, &mut rows, 1000000), Ok(()));
    assert!(rt; bags.open(Kind::Task).is_ok());
    assert!(rt; bags.close().is_ok());
    assert_eq!(rt; start(&bags, &mut rows, 0), Err(13));
    assert_eq!(rt; start(&bags, &mut rows, 10), Err(27));
}

/// An access of a class to a record, by main within a finish, where the row of record 1 of two was changed after the start: what it finds, or the
/// number by which it is refused.
fn access(row: Row, class: u32, record: u32) -> Result<Option<(u32, u32)>, u8> {
    let mut table = [Entry::EMPTY; 2];
    let mut bags = Bags::new(&mut table);
    let mut rows = [Row::EMPTY; 2];
    let mut check = Check::start(&bags, &mut rows, 10).map_err(|refusal| refusal.code().number)?;
    let _ = check.open(&mut bags, Kind::Finish);
    rows[1] = row;
    let answer = check.access(&mut bags, &Plain {}, &mut rows, class, record);
    let _ = check.give_up(&bags);
    answer.map_err(|refusal| refusal.code().number)
}

fn held(count: usize, first: Slot, second: Slot) -> Row {
    let mut row = Row::EMPTY;
    row.count = count;
    row.slots[0] = first;
    row.slots[1] = second;
    row
}

#[test]
fn access_refuses_record_class_and_damage_in_this_order(rt: HostRuntime) {
    let read = Slot {
        class: 0,
        event: 0,
        task: 0,
    };
    let write = Slot {
        class: 1,
        event: 0,
        task: 0,
    };
    assert_eq!(rt; access(held(9, read, write), 9, 2), Err(9));
    assert_eq!(rt; access(held(9, read, write), 9, 1), Err(10));
    assert_eq!(rt; access(held(9, read, write), 1, 1), Err(25));
    assert_eq!(rt; access(held(2, read, read), 1, 1), Err(25));
    assert_eq!(rt;
        access(held(2, Slot { class: 2, ..read }, write), 1, 1),
        Err(25)
    );
    assert_eq!(rt;
        access(held(2, Slot { task: 1, ..read }, write), 1, 1),
        Err(25)
    );
    assert_eq!(rt;
        access(held(2, Slot { task: 2, ..read }, write), 1, 1),
        Err(25)
    );
    assert_eq!(rt;
        access(held(2, Slot { event: 1, ..read }, write), 1, 1),
        Err(25)
    );
    assert_eq!(rt;
        access(held(1, read, Slot { class: 2, ..read }), 1, 1),
        Ok(None)
    );
    assert_eq!(rt; access(held(2, read, write), 1, 1), Ok(None));
}

#[test]
fn verdict_is_refused_while_a_scope_is_open(rt: HostRuntime) -> Result<(), Fail> {
    let mut table = [Entry::EMPTY; 2];
    let mut bags = Bags::new(&mut table);
    let mut rows = [Row::EMPTY; 2];
    let Ok(mut check) = Check::start(&bags, &mut rows, 10) else {
        return Err(Fail::new("the start was refused"));
    };
    let _ = check.open(&mut bags, Kind::Task);
    let _ = check.access(&mut bags, &Plain {}, &mut rows, 1, 1);
    let (refusal, mut check) = match check.verdict(&bags) {
        Ok(_) => return Err(Fail::new("the verdict was taken")),
        Err(back) => back,
    };
    let _ = check.close(&mut bags);
    let counts = check.give_up(&bags);
    assert_eq!(rt; refusal.code().number, 26);
    assert_eq!(rt;
        counts,
        Counts {
            accesses: 1,
            clashes: 0,
            scopes: 2
        }
    );
    Ok(())
}
