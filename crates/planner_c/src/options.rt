//! What a caller may choose.

ghost use Rattle.std.specs.Prelude.{◌≡◌, ◌⊎◌, ◌≤◌, IsNone, IsSome, IfSome};
ghost use Rattle.std.specs.Int.{IsPowerOfTwo};
ghost use Rattle.command_words.specs.Commands.{IsUsable};
ghost use Rattle.planner_c.specs.Calls.{command_for, collector_for, AreRight};

use translate::{Collector, Command};
use wasm_types::Tunables;

/// What a caller may choose; of a flag 0 is no: `bobbinazure_options`.
#[repr(C)]
#[derive(Clone, Copy)]
pub struct PlanOptions {
    /// Whether memories begin as images. One active data segment that does not allow it prevents all
    /// images. A module can otherwise require `max_image` bytes with each memory that it defines, in some
    /// fifteen bytes of its own.
    pub cow: u8,
    /// Whether tables begin as images, as far as their elements allow it.
    /// A module can then require 1,048,576 cells of four bytes with each table that it defines, in
    /// ten bytes of its own.
    pub lazy_tables: u8,
    /// Whether hints of branches are read.
    pub branch_hints: u8,
    /// Whether names of locals and the metadata of functions are kept too.
    pub native_debug: u8,
    /// Whether references can be made to every function.
    pub guest_debug: u8,
    /// The bytes of a pointer of the target: 4 or 8.
    pub pointer: u8,
    /// How objects are collected: 0 by counts (drc), 1 not at all (null).
    pub collector: u8,
    /// The page size of images, in bytes: a power of two.
    pub page_size: u64,
    /// Data of a memory with this extent or more, in bytes, must fill more than half of it; else no
    /// memory begins as an image.
    pub max_image: u64,
}

/// The command that the options represent, where they are accepted; none exactly where they are
/// not.
pub(crate) fn command_of(options: &PlanOptions) -> Option<Command>
    ensures usable { IfSome result IsUsable }
    ensures command { IfSome result (λ c. c ≡ command_for options.now) }
    ensures right { IsSome result → AreRight options.now }
    ensures wrong { IsNone result → ¬ AreRight options.now }
{
    let collector = collector_of(options.collector)?;
    let ptr = checked_pointer(options.pointer)?;
    let page_size = checked_power(options.page_size)?;
    Some(Command {
        generate: None,
        tunables: Tunables {
            debug_native: options.native_debug != 0,
            debug_guest: options.guest_debug != 0,
            parse_wasm_debuginfo: false,
            branch_hinting: options.branch_hints != 0,
            memory_init_cow: options.cow != 0,
            table_lazy_init: options.lazy_tables != 0,
            signals_based_traps: false,
        },
        page_size,
        max_image: options.max_image,
        ptr,
        collector,
    })
}

fn checked_pointer(size: u8) -> Option<u8>
    ensures same { IfSome result (λ ptr. ptr ≡ size) }
    ensures pointer { IfSome result (λ ptr. (ptr ≡ 4) ⊎ (ptr ≡ 8)) }
    ensures right { IsSome result → (size ≡ 4) ⊎ (size ≡ 8) }
    ensures wrong { IsNone result → ¬ ((size ≡ 4) ⊎ (size ≡ 8)) }
{
    match size {
        4 => Some(4),
        8 => Some(8),
        _ => None,
    }
}

fn checked_power(number: u64) -> Option<u64>
    ensures same { IfSome result (λ n. n ≡ number) }
    ensures power { IfSome result IsPowerOfTwo }
    ensures right { IsSome result → IsPowerOfTwo number }
    ensures wrong { IsNone result → ¬ IsPowerOfTwo number }
{
    if number.is_power_of_two() {
        Some(number)
    } else {
        None
    }
}

fn collector_of(number: u8) -> Option<Collector>
    ensures collector { IfSome result (λ c. c ≡ collector_for number) }
    ensures right { IsSome result → number ≤ 1 }
    ensures wrong { IsNone result → ¬ (number ≤ 1) }
{
    match number {
        0 => Some(Collector::Drc),
        1 => Some(Collector::Null),
        _ => None,
    }
}
