// Many activities.
use crate::calls::{assert_ended, run};
use std::alloc::{AllocError, Global};
use std::test::Fail;

// So many activities, of which each says a line.
fn sayers(alloc: Global, count: usize) -> Result<Vec<u8>, AllocError> {
    let mut source = b"t = .t~new\n".to_vec(alloc)?;
    for _ in 0..count {
        source.extend_from_slice(b"t~start('m')\n")?;
    }
    source.extend_from_slice(b"::class t\n::method m unguarded\nsay 'm'")?;
    Ok(source)
}

#[test]
fn two_thousand_activities_say_a_line_each(rt: HostRuntime) -> Result<(), Fail> {
    let source = sayers(rt.alloc(), 2000)?;
    assert_ended(&rt, &run(&rt, source.as_slice())?, 0, 4000, 10_003);
    Ok(())
}
