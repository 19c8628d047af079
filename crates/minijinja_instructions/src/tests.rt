//! How much a list keeps of the lines and spans of its instructions.
use crate::instructions::InstructionList;
use std::test::Fail;

#[test]
fn a_line_is_kept_once(rt: HostRuntime) -> Result<(), Fail> {
    let mut list = InstructionList::new(rt.alloc(), "name", "source");
    for _ in 0..100_000 {
        list.add_with_line(0u8, 7)?;
    }
    assert!(rt; list.len() == 100_000);
    assert!(rt; list.marks.changes() == (1, 0));
    assert!(rt; list.get_line(0) == Some(7) && list.get_line(99_999) == Some(7));
    Ok(())
}
