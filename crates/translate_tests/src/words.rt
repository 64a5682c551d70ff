//! What words name.

use command_words::{Collector, Command, read_words};
use std::test::Fail;
use wasm_types::Tunables;

/// Each option, with a value that it does not have where it is left out.
const WORDS: [&str; 11] = [
    "generate",
    "100000",
    "--cow",
    "--lazy-tables",
    "--branch-hints",
    "--native-debug",
    "--guest-debug",
    "--page=1",
    "--max-image=0",
    "--ptr=4",
    "--gc=null",
];

#[test]
fn each_option_is_read(rt: HostRuntime) -> Result<(), Fail> {
    let mut words = Vec::new(rt.alloc());
    assert_eq!(rt; read_words(words.as_slice()), None);
    for word in WORDS {
        words.push(String::from_str(rt.alloc(), word)?)?;
    }
    let want = Command {
        generate: Some(100_000),
        tunables: Tunables {
            debug_native: true,
            debug_guest: true,
            branch_hinting: true,
            memory_init_cow: true,
            table_lazy_init: true,
            ..Command::PLAIN.tunables
        },
        page_size: 1,
        max_image: 0,
        ptr: 4,
        collector: Collector::Null,
    };
    assert_eq!(rt; read_words(words.as_slice()), Some(want));
    Ok(())
}
