use crate::{Command, parse_script, write_script};
use std::test::Fail;

#[test]
fn a_script_is_read_and_written(rt: HostRuntime) -> Result<(), Fail> {
    let bytes = b"# one step back\r\nrename Main 3:1 total\nundo";
    match parse_script(rt.alloc(), bytes) {
        Ok(commands) => {
            assert!(rt; matches!(commands.as_slice(), [Command::Rename { .. }, Command::Undo]));
            let written = write_script(rt.alloc(), commands.as_slice())?;
            assert_eq!(rt;
                written.as_slice(),
                b"rename Main 3:1 total\nundo\n".as_slice()
            );
        }
        Err(error) => panic!(rt; "{error:?}"),
    }
    Ok(())
}
