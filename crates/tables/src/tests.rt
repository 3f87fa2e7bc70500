use crate::Table;
use std::test::Fail;

/// Each key has the value that it was given last, and keys come in rising order.
#[test]
fn keeps_what_was_inserted(rt: HostRuntime) -> Result<(), Fail> {
    let mut table: Table<u8> = Table::new(rt.alloc());
    table.insert(7, 70)?;
    table.insert(7, 71)?;
    table.insert(3, 30)?;
    assert_eq!(rt; table.len(), 2);
    assert_eq!(rt; table.get(7).copied(), Some(71));
    assert_eq!(rt; table.get(4).copied(), None);
    let mut value = 31;
    table.swap(3, &mut value);
    assert_eq!(rt; value, 30);
    assert_eq!(rt; table.keys().next().copied(), Some(3));
    assert_eq!(rt; table.values().next().copied(), Some(31));
    assert_eq!(rt; table.remove(3), Some(31));
    assert_eq!(rt; table.len(), 1);
    Ok(())
}
