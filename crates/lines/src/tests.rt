use crate::Lines;

#[test]
fn writes_until_full(rt: HostRuntime) {
    let mut list = [0u32; 3];
    let mut lines = Lines::new(&mut list);
    assert_eq!(rt; lines.used(), 0);
    assert_eq!(rt; lines.write(5), Ok(()));
    assert_eq!(rt; lines.write(6), Ok(()));
    assert!(rt; lines.has_room());
    assert_eq!(rt; lines.write(7), Ok(()));
    assert!(rt; !lines.has_room());
    assert_eq!(rt; lines.write(8), Err(8));
    assert_eq!(rt; lines.used(), 3);
    assert_eq!(rt; list, [5, 6, 7]);
}

#[test]
fn later_lines_stay(rt: HostRuntime) {
    let mut list = [1u32, 2, 3];
    let mut lines = Lines::new(&mut list);
    assert_eq!(rt; lines.write(9), Ok(()));
    assert_eq!(rt; lines.used(), 1);
    assert_eq!(rt; list, [9, 2, 3]);
}

#[test]
fn no_line_at_all(rt: HostRuntime) {
    let mut lines = Lines::new(&mut [0u32; 0]);
    assert!(rt; !lines.has_room());
    assert_eq!(rt; lines.write(4), Err(4));
}
