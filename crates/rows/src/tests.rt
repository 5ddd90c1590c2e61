use crate::row::Row;

#[test]
fn holds_what_is_put(rt: HostRuntime) {
    let mut row: Row<u8, 3> = Row::new(0);
    assert_eq!(rt; row.pop(), None);
    row.push(1);
    row.extend_from_slice(&[2, 3, 4]);
    assert_eq!(rt; row.as_slice(), [1, 2, 3].as_slice());
    row.push(5);
    row.insert(0, 6);
    assert_eq!(rt; row.len(), 3);
    assert_eq!(rt; row.pop(), Some(3));
    row.insert(1, 7);
    assert_eq!(rt; row.as_slice(), [1, 7, 2].as_slice());
}

#[test]
fn equal_by_values(rt: HostRuntime) {
    let mut row: Row<u8, 2> = Row::new(0);
    let other: Row<u8, 2> = Row::new(9);
    assert_eq!(rt; row, other);
    row.push(1);
    assert_ne!(rt; row, other);
}
