use crate::{Builtin, Prim, primitive, source};
use std::test::Fail;

#[test]
fn the_texts_begin_with_their_headers(rt: HostRuntime) -> Result<(), Fail> {
    assert!(rt; source(Builtin::Prelude).starts_with("module Prelude where\n"));
    assert!(rt; source(Builtin::Char).starts_with("module Char where\n"));
    assert!(rt; primitive("Prelude", "seq") == Some(Prim::Seq));
    assert!(rt; primitive("Char", "seq").is_none());
    Ok(())
}
