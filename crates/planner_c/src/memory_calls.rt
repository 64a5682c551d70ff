//! The calls from C that say how a memory may be placed in an engine's address space.

ghost use Rattle.std.specs.Prelude.{◌≡◌, ◌≢◌, ◌⊎◌, ◌↔◌, ◌≤◌, IsTrue};
ghost use Rattle.wasm_types.specs.declared.limits.IndexType.TheVariants.{I32};
ghost use Rattle.wasm_types.specs.declared.memory.Memory.{Memory};
ghost use Rattle.wasm_types.specs.declared.tunables.MemoryTunables.{MemoryTunables};
ghost use Rattle.wasm_types.specs.Sizes.{MayMove, ElidesBoundsChecks};
ghost use Rattle.planner_c.specs.MemoryCalls.{IsRowOf};

use plan_tables::MemoryRow;

/// The bytes that addresses of 32 bits reach: 2^32.
const REACHED: u64 = 4294967296;

/// Whether a memory may be moved as it grows, where `reservation` bytes are reserved for it at
/// first: `bobbinazure_memory_may_move`. It may not where `may_move` is 0, threads share it, it
/// cannot grow, or all that it can grow to is reserved.
/// Answers 1 or 0.
#[unsafe(no_mangle)]
pub extern "C" fn bobbinazure_memory_may_move(
    memory: &MemoryRow,
    reservation: u64,
    may_move: u32,
) -> u32
    ensures bit { (result ≡ 0) ⊎ (result ≡ 1) }
    ensures moves { (m : Memory) (choice : MemoryTunables) → IsRowOf m memory.now → choice.reservation ≡ reservation
        → (IsTrue choice.may_move ↔ (may_move ≢ 0)) → (result ≡ 1) ↔ MayMove m choice }
{
    let is_full = memory.bounded != 0 && memory.minimum == memory.maximum;
    let is_fixed = may_move == 0 || memory.shared != 0 || is_full;
    u32::from(!is_fixed && memory.maximum_bytes > reservation)
}

/// Whether an address of 32 bits cannot leave what is reserved for a memory and its guard pages, on
/// a host that turns their faults into traps: `bobbinazure_can_elide_bounds_check`. Behind the
/// `reservation` bytes of the memory are `guard_size` bytes of such pages. The host's page size is
/// an exponent of 2. The static offset of an access, and its width, must fit behind the address too:
/// the engine checks it.
/// Answers 1 or 0.
#[unsafe(no_mangle)]
pub extern "C" fn bobbinazure_can_elide_bounds_check(
    memory: &MemoryRow,
    reservation: u64,
    guard_size: u64,
    host_page_size_log2: u32,
) -> u32
    ensures bit { (result ≡ 0) ⊎ (result ≡ 1) }
    ensures elides { (m : Memory) (choice : MemoryTunables) → IsRowOf m memory.now → choice.reservation ≡ reservation
        → choice.guard_size ≡ guard_size → IsTrue choice.tunables.now.signals_based_traps
        → (result ≡ 1) ↔ ElidesBoundsChecks m choice host_page_size_log2 }
{
    let is_mapped = u32::from(memory.page_size_log2) >= host_page_size_log2;
    let guarded = reservation.saturating_add(guard_size);
    u32::from(is_mapped && memory.wide == 0 && guarded >= REACHED)
}

/// Whether a size in bytes is one that `memory.grow` can tell from a failure:
/// `bobbinazure_memory_allows_growth_to`. It fails with 4294967295, so a memory of pages of one byte
/// and addresses of 32 bits may not reach that size. The maximum is not looked at.
/// Answers 1 or 0.
#[unsafe(no_mangle)]
pub extern "C" fn bobbinazure_memory_allows_growth_to(memory: &MemoryRow, size: u64) -> u32
    ensures bit { (result ≡ 0) ⊎ (result ≡ 1) }
    ensures allows { (m : Memory) → IsRowOf m memory.now
        → (result ≡ 0) ↔ ((m.page_size_log2 ≡ 0) × (m.idx_type ≡ I32) × (4294967295 ≤ size)) }
{
    let is_narrow = memory.page_size_log2 == 0 && memory.wide == 0;
    u32::from(!is_narrow || size < 4294967295)
}
