//! Numbers and sections, appended to bytes.

ghost use Rattle.std.specs.Prelude.{◌≡◌, ◌≤◌, ◌++◌, OnOk};
ghost use Rattle.module_generator.specs.Spelling.{groups, unsigned, signed, section};

use entity_map::OutOfMemory;

/// Appends a number, seven bits to a byte, up to a byte below `top`.
fn push_groups(bytes: &mut Vec<u8>, number: u64, top: u64) -> Result<(), OutOfMemory>
    requires low { 64 ≤ top }
    requires high { top ≤ 128 }
    ensures { OnOk result (bytes.new.items ≡ bytes.old.items ++ groups top 9 number) }
{
    let mut rest = number;
    while rest >= top {
        bytes.push((rest % 128) as u8 + 128)?;
        rest /= 128;
    }
    bytes.push(rest as u8)?;
    Ok(())
}

#[tactic(auto, unfolding(crate::specs::Spelling::unsigned))]
pub(crate) fn push_unsigned(bytes: &mut Vec<u8>, number: u64) -> Result<(), OutOfMemory>
    ensures { OnOk result (bytes.new.items ≡ bytes.old.items ++ unsigned number) }
{
    push_groups(bytes, number, 128)
}

/// Appends a number in place of a signed one.
#[tactic(auto, unfolding(crate::specs::Spelling::signed))]
pub(crate) fn push_signed(bytes: &mut Vec<u8>, number: u64) -> Result<(), OutOfMemory>
    ensures { OnOk result (bytes.new.items ≡ bytes.old.items ++ signed number) }
{
    push_groups(bytes, number, 64)
}

#[tactic(auto, unfolding(crate::specs::Spelling::section))]
pub(crate) fn push_section(bytes: &mut Vec<u8>, id: u8, contents: &[u8]) -> Result<(), OutOfMemory>
    ensures { OnOk result (bytes.new.items ≡ bytes.old.items ++ section id contents.now) }
{
    bytes.push(id)?;
    push_unsigned(bytes, contents.len() as u64)?;
    bytes.extend_from_slice(contents)?;
    Ok(())
}
