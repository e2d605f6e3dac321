use super::cells::{Cell, split_cell};

#[test]
fn cells_split(rt: HostRuntime) {
    assert_eq!(rt; split_cell(0, 0), None);
    assert_eq!(rt; split_cell(0, 3), Some(Cell { head: 0, member: 0 }));
    assert_eq!(rt; split_cell(2, 3), Some(Cell { head: 0, member: 2 }));
    assert_eq!(rt; split_cell(3, 3), Some(Cell { head: 1, member: 0 }));
    assert_eq!(rt;
        split_cell(2047, 64),
        Some(Cell {
            head: 31,
            member: 63,
        })
    );
}
