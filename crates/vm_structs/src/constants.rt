//! Constants that the runtime and compiled code agree on.

/// The number of slots in a store's context that are for the context of a component.
pub const NUM_COMPONENT_CONTEXT_SLOTS: usize = 2;

/// The magic number at the start of each context of an instance: the bytes `core`, the lowest
/// first.
pub const VMCONTEXT_MAGIC: u32 = 0x6572_6f63;

/// The magic number at the start of each context of a host function that is called with an array:
/// the bytes `ACHF`, the lowest first.
pub const VM_ARRAY_CALL_HOST_FUNC_MAGIC: u32 = 0x4648_4341;

/// The bits that represent the thread whose creation was forced.
pub const VM_LAZY_THREAD_FORCED: u64 = 1;
