//! A role that has a code where another has none, which no command shows: each compiles all roles.
use crate::protocol_in;
use anb_base::SMALL_FILE;
use anb_compile::{CompileNo, compile};
use std::test::Fail;

#[test]
fn one_role_has_a_code_where_another_has_none(rt: HostRuntime) -> Result<(), Fail> {
    let alloc = rt.alloc();
    let text =
        "Protocol: P; Types: Agent A, B; Key K; Knowledge: A: scrypt(K,K); Actions: A -> B: K;";
    assert!(rt; text.len() <= SMALL_FILE as usize);
    let protocol = protocol_in(alloc, text.as_bytes())?;
    assert!(rt; protocol.roles().len() > 1);
    assert!(rt; compile(alloc, &protocol, 1).is_ok());
    assert!(rt;
        matches!(
            compile(alloc, &protocol, 0),
            Err(CompileNo::CannotSend { action: 1, role: 0 })
        )
    );
    Ok(())
}
