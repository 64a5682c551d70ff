//! The facts of a translated memory that a compiler needs.

use command_words::Command;
use wasm_types::{IndexType, Limits, Memory, MemoryTunables, Tunables, WasmValType};

#[test]
fn reserved_bytes_decide_on_moves_and_checks(rt: HostRuntime) {
    let tunables = Tunables {
        signals_based_traps: true,
        ..Command::PLAIN.tunables
    };
    let memory = Memory {
        idx_type: IndexType::I32,
        limits: Limits {
            min: 1,
            max: Some(3),
        },
        shared: false,
        page_size_log2: 16,
    };
    let choice = MemoryTunables {
        tunables: &tunables,
        reservation: 65536,
        guard_size: 0,
        may_move: true,
    };
    assert!(rt; memory.memory_may_move(&choice));
    assert!(rt; !memory.can_elide_bounds_check(&choice, 12));
    assert_eq!(rt; WasmValType::int_from_bits(32), WasmValType::I32);
}
