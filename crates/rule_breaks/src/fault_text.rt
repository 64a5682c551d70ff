//! How the fault of an entry prints: one sentence.

ghost use Rattle.std.specs.Prelude.{◌≡◌, Some};
ghost use Rattle.rule_breaks.specs.FaultTexts.{space_text, spaces_text, amount_text, there_text, verb_text, no_such_entry_text, no_earlier_type_text, body_count_text, data_count_text, many_locals_text, pages_text, many_pages_text, place_text, start_type_text, fault_text};

use crate::fault::{ExpressionPlace, IndexSpace, RuleFault};
use std::fmt;

// ---- words

impl IndexSpace {
    /// What an entry of the space is called.
    fn entry_name(self) -> &'static str
        ensures { result.now ≡ space_text self }
    {
        match self {
            IndexSpace::Types => "type",
            IndexSpace::Functions => "function",
            IndexSpace::Tables => "table",
            IndexSpace::Memories => "memory",
            IndexSpace::Globals => "global",
            IndexSpace::Tags => "tag",
        }
    }

    /// What several entries of the space are called.
    fn entries_name(self) -> &'static str
        ensures { result.now ≡ spaces_text self }
    {
        match self {
            IndexSpace::Types => "types",
            IndexSpace::Functions => "functions",
            IndexSpace::Tables => "tables",
            IndexSpace::Memories => "memories",
            IndexSpace::Globals => "globals",
            IndexSpace::Tags => "tags",
        }
    }
}

/// A number of things, with the words for one of them and for another number of them.
#[derive(Clone, Copy)]
struct Amount {
    count: u64,
    one: &'static str,
    many: &'static str,
}

/// As in `1 table` and `2 tables`.
impl fmt::Display for Amount {
    ghost output = { λ a. Some (amount_text a.count a.one.now a.many.now) };

    fn fmt<W: fmt::Write>(&self, f: &mut fmt::Formatter<W>) -> fmt::Result {
        if self.count == 1 {
            return write!(f, "1 {}", self.one);
        }
        write!(f, "{} {}", self.count, self.many)
    }
}

/// A number of things that were named before.
#[derive(Clone, Copy)]
struct There {
    count: u64,
}

/// As in `there is 1` and `there are 2`.
impl fmt::Display for There {
    ghost output = { λ t. Some (there_text t.count) };

    fn fmt<W: fmt::Write>(&self, f: &mut fmt::Formatter<W>) -> fmt::Result {
        if self.count == 1 {
            return f.write_str("there is 1");
        }
        write!(f, "there are {}", self.count)
    }
}

/// The verb of so many things.
fn is_or_are(count: u64) -> &'static str
    ensures { result.now ≡ verb_text count }
{
    if count == 1 { "is" } else { "are" }
}

// ---- indices

/// An index space, an index of it, and how many entries it has.
#[derive(Clone, Copy)]
struct NoSuchEntry(IndexSpace, u32, u64);

/// As in `type index 7, but there are 3 types`.
impl fmt::Display for NoSuchEntry {
    ghost output = { λ s. Some (no_such_entry_text s.0 s.1 s.2) };

    fn fmt<W: fmt::Write>(&self, f: &mut fmt::Formatter<W>) -> fmt::Result {
        let NoSuchEntry(space, index, count) = *self;
        let name = space.entry_name();
        let there = Amount {
            count,
            one: name,
            many: space.entries_name(),
        };
        let verb = is_or_are(count);
        write!(f, "{name} index {index}, but there {verb} {there}")
    }
}

/// A type index that is not below a bound.
#[derive(Clone, Copy)]
struct NoEarlierType {
    index: u32,
    bound: u64,
}

/// As in `type index 5, but only those below 3 may be named here`.
impl fmt::Display for NoEarlierType {
    ghost output = { λ s. Some (no_earlier_type_text s.index s.bound) };

    fn fmt<W: fmt::Write>(&self, f: &mut fmt::Formatter<W>) -> fmt::Result {
        write!(
            f,
            "type index {}, but only those below {} may be named here",
            self.index, self.bound
        )
    }
}

// ---- counts

/// How many functions are defined, and how many bodies there are.
#[derive(Clone, Copy)]
struct BodyCount {
    functions: u64,
    bodies: u64,
}

/// As in `2 functions are defined, but there is 1 body`.
impl fmt::Display for BodyCount {
    ghost output = { λ s. Some (body_count_text s.functions s.bodies) };

    fn fmt<W: fmt::Write>(&self, f: &mut fmt::Formatter<W>) -> fmt::Result {
        let defined = Amount {
            count: self.functions,
            one: "function",
            many: "functions",
        };
        let there = Amount {
            count: self.bodies,
            one: "body",
            many: "bodies",
        };
        let verb = is_or_are(self.functions);
        let other_verb = is_or_are(self.bodies);
        write!(
            f,
            "{defined} {verb} defined, but there {other_verb} {there}"
        )
    }
}

/// The stated number of data segments, and how many there are.
#[derive(Clone, Copy)]
struct DataCount {
    stated: u32,
    segments: u64,
}

/// As in `the data count section states 2 data segments, but there is 1`.
impl fmt::Display for DataCount {
    ghost output = { λ s. Some (data_count_text s.stated s.segments) };

    fn fmt<W: fmt::Write>(&self, f: &mut fmt::Formatter<W>) -> fmt::Result {
        let amount = Amount {
            count: self.stated as u64,
            one: "data segment",
            many: "data segments",
        };
        let there = There {
            count: self.segments,
        };
        write!(f, "the data count section states {amount}, but {there}")
    }
}

/// The number of locals of a body that has too many.
#[derive(Clone, Copy)]
struct ManyLocals {
    count: u64,
}

impl fmt::Display for ManyLocals {
    ghost output = { λ s. Some (many_locals_text s.count) };

    fn fmt<W: fmt::Write>(&self, f: &mut fmt::Formatter<W>) -> fmt::Result {
        write!(
            f,
            "the body has {} locals, but at most 4294967295 are allowed",
            self.count
        )
    }
}

// ---- limits

/// So many pages of 2^`log2` bytes.
#[derive(Clone, Copy)]
struct Pages {
    count: u64,
    log2: u32,
}

impl fmt::Display for Pages {
    ghost output = { λ p. Some (pages_text p.count p.log2) };

    fn fmt<W: fmt::Write>(&self, f: &mut fmt::Formatter<W>) -> fmt::Result {
        write!(f, "{} pages of 2^{} bytes", self.count, self.log2)
    }
}

/// A number of pages, the size of a page as an exponent of 2, and the bits of an address.
#[derive(Clone, Copy)]
struct ManyPages(u64, u32, u32);

/// As in `65537 pages of 2^16 bytes, but addresses have 32 bits`.
impl fmt::Display for ManyPages {
    ghost output = { λ s. Some (many_pages_text s.0 s.1 s.2) };

    fn fmt<W: fmt::Write>(&self, f: &mut fmt::Formatter<W>) -> fmt::Result {
        let ManyPages(count, log2, address_bits) = *self;
        let found = Pages { count, log2 };
        write!(f, "{found}, but addresses have {address_bits} bits")
    }
}

// ---- expressions and the start function

impl fmt::Display for ExpressionPlace {
    ghost output = { λ p. Some (place_text p) };

    fn fmt<W: fmt::Write>(&self, f: &mut fmt::Formatter<W>) -> fmt::Result {
        match self {
            ExpressionPlace::Initialiser => f.write_str("the initialiser"),
            ExpressionPlace::Offset => f.write_str("the offset"),
            ExpressionPlace::Item(item) => write!(f, "item {item}"),
        }
    }
}

/// The index of a start function that has parameters or results.
#[derive(Clone, Copy)]
struct StartType {
    function: u32,
}

impl fmt::Display for StartType {
    ghost output = { λ s. Some (start_type_text s.function) };

    fn fmt<W: fmt::Write>(&self, f: &mut fmt::Formatter<W>) -> fmt::Result {
        write!(
            f,
            "the type of function {} has parameters or results",
            self.function
        )
    }
}

// ---- faults

/// As in `export 2 has the same name`. A sentence of more than one line has a type of its own.
impl fmt::Display for RuleFault {
    ghost output = { λ x. Some (fault_text x) };

    fn fmt<W: fmt::Write>(&self, f: &mut fmt::Formatter<W>) -> fmt::Result {
        match *self {
            RuleFault::NoSuchEntry {
                space,
                index,
                count,
            } => NoSuchEntry(space, index, count).fmt(f),
            RuleFault::NoEarlierType { index, bound } => NoEarlierType { index, bound }.fmt(f),
            RuleFault::NotAFunctionType(index) => write!(f, "type {index} is no function type"),
            RuleFault::BodyCount { functions, bodies } => BodyCount { functions, bodies }.fmt(f),
            RuleFault::DataCount { stated, segments } => DataCount { stated, segments }.fmt(f),
            RuleFault::ManyLocals(count) => ManyLocals { count }.fmt(f),
            RuleFault::MaximumBelowMinimum { minimum, maximum } => {
                write!(f, "the maximum {maximum} is below the minimum {minimum}")
            }
            RuleFault::PageSize(log2) => {
                write!(f, "pages of 2^{log2} bytes, but a page has 2^0 or 2^16")
            }
            RuleFault::ManyPages {
                pages,
                log2,
                address_bits,
            } => ManyPages(pages, log2, address_bits).fmt(f),
            RuleFault::SharedWithoutMaximum => {
                f.write_str("the memory is shared and has no maximum")
            }
            RuleFault::NotInitialised => {
                f.write_str("the cells cannot be null, and there is no initialiser")
            }
            RuleFault::Mistyped(place) => {
                write!(f, "{place} has another type than its place requires")
            }
            RuleFault::RepeatedName { earlier } => write!(f, "export {earlier} has the same name"),
            RuleFault::StartType { function } => StartType { function }.fmt(f),
            RuleFault::ForeignIndex => {
                f.write_str("a type is named by an index that is not the module's")
            }
        }
    }
}
