// What is left of lists, with closures that answer by a test and one that remembers.
use crate::Bounded;
use std::test::Fail;

// A list of four places that holds these.
fn list(values: &[u8]) -> Bounded<u8, 4> {
    let mut list = Bounded::new();
    for value in values {
        let _ = list.push(*value);
    }
    list
}

#[test]
fn keeps_by_a_test(rt: HostRuntime) -> Result<(), Fail> {
    let table: [(&[u8], &[u8]); 5] = [
        (&[], &[]),
        (&[1, 2], &[]),
        (&[7, 9], &[7, 9]),
        (&[2, 7, 3, 6], &[7, 6]),
        (&[8, 1, 1, 8], &[8, 8]),
    ];
    for (held, want) in table {
        let mut whole = list(held);
        let kept = whole.kept(|value| *value > 5);
        assert_eq!(rt; kept, list(want));
        assert_eq!(rt; whole, list(held));
        whole.retain(|value| *value > 5);
        assert_eq!(rt; whole, list(want));
    }
    Ok(())
}

// Each value is asked for once, in order: so those are kept that are higher than all before them.
#[test]
fn keeps_by_what_was_asked_before(rt: HostRuntime) -> Result<(), Fail> {
    let mut asked = list(&[]);
    let mut highest = 0;
    let kept = list(&[3, 2, 5, 4]).kept(|value| {
        let _ = asked.push(*value);
        let higher = *value > highest;
        highest = highest.max(*value);
        higher
    });
    assert_eq!(rt; kept, list(&[3, 5]));
    assert_eq!(rt; asked, list(&[3, 2, 5, 4]));
    Ok(())
}
