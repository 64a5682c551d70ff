//! What a linker defines, and what it refuses.

ghost use Rattle.std.specs.Prelude.{◌<◌};

use import_match::{ImportRefused, LinkError, Linker, Mismatch};
use std::test::Fail;
use wasm_types::{EntityType, Global, WasmValType};

const ANSWER: EntityType = EntityType::Global(Global {
    wasm_ty: WasmValType::I32,
    mutability: false,
});

#[test]
fn definitions_are_numbered_in_order(rt: HostRuntime) -> Result<(), Fail> {
    let mut linker = Linker::new(rt.alloc());
    assert!(rt; linker.len() == 0);
    assert!(rt; linker.define("m", "g", ANSWER)? == 0);
    assert!(rt; linker.define("m", "h", ANSWER)? == 1);
    // The boundary between the two names matters.
    assert!(rt; linker.define("mg", "", ANSWER)? == 2);
    assert!(rt; linker.define("", "mg", ANSWER)? == 3);
    assert!(rt; linker.len() == 4);
    Ok(())
}

#[test]
fn the_same_two_names_are_refused(rt: HostRuntime) -> Result<(), Fail> {
    let mut linker = Linker::new(rt.alloc());
    linker.define("m", "g", ANSWER)?;
    assert!(rt; linker.define("m", "g", ANSWER) == Err(LinkError::Duplicate));
    assert!(rt; linker.len() == 1);
    Ok(())
}

#[test]
fn a_refused_import_is_named(rt: HostRuntime) -> Result<(), Fail> {
    let refused = ImportRefused {
        from: "env",
        own: "memory",
        cause: LinkError::Mismatch(3, Mismatch::MemoryMax),
    };
    assert!(rt;
        format!(in rt.alloc(); "{refused}")?.as_str()
            == "env.memory: import 3 does not match its definition: the memory may grow too large"
    );
    Ok(())
}
