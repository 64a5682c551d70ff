//! The rows of the table of a context's entries.

ghost use Rattle.std.specs.Prelude.{◌≡◌, ◌<◌, ◌≤◌, ◌+◌, None, Some};
ghost use Rattle.std.specs.Option.{ForSome};
ghost use Rattle.vm_offsets.specs.Steps.{begin_at};

/// A row of the table: elements of one size. They begin at a multiple of `align` where it is given.
#[derive(Clone, Copy)]
pub struct SizedRow {
    pub align: Option<u8>,
    pub count: u32,
    pub size: u8,
    pub ghost positive: { ForSome align (λ to. 0 < to) },
}

impl SizedRow {
    ghost use Rattle.vm_offsets.specs.Entries.{IsRow};

    /// Elements that begin where the row before ends.
    pub fn new(count: u32, size: u8) -> Self
        ensures { IsRow result None count size }
    {
        SizedRow {
            align: None,
            count,
            size,
        }
    }

    /// Elements that begin at the next multiple of a number.
    pub fn aligned(to: u8, count: u32, size: u8) -> Self
        requires { 0 < to }
        ensures { IsRow result (Some to) count size }
    {
        SizedRow {
            align: Some(to),
            count,
            size,
        }
    }

    /// Where the elements of a row begin, after the rows before it end at a byte.
    pub fn begin(&self, at: u64) -> u64
        requires { at ≤ u32.MAX }
        ensures value { result ≡ begin_at at self.now.align }
        ensures bound { result < at + 256 }
        ensures grows { at ≤ result }
    {
        match self.align {
            Some(to) => at.next_multiple_of(u64::from(to)),
            None => at,
        }
    }
}
