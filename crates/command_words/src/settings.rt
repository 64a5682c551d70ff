//! The options of a command.

ghost use Rattle.std.specs.Prelude.{◌≡◌, ◌<◌, ◌≢◌, ◌++◌, ℕ, List, IfSome, MatchOption, Some};
ghost use Rattle.command_words.specs.Options.{row, IsAllowed};

use crate::command::{Collector, Command};
use crate::numbers::{read_number, read_power};

/// What one option sets.
#[derive(Clone, Copy, Debug, PartialEq, Eq)]
pub enum Setting {
    Cow,
    LazyTables,
    BranchHints,
    NativeDebug,
    GuestDebug,
    Page(u64),
    MaxImage(u64),
    Ptr4,
    Ptr8,
    GcDrc,
    GcNull,
}

/// How many kinds of options there are; a command has one option of a kind at most.
pub(crate) const KINDS: usize = 9;

/// What the word sets, if it is an option: the one table of the words.
pub(crate) fn read_setting(word: &str) -> Option<Setting>
    ensures spelled { IfSome result (λ s. (word.now ≡ (row s).word) × IsAllowed s) }
    ensures complete { (s : Setting) → IsAllowed s → word.now ≡ (row s).word → result ≡ Some s }
{
    match word {
        "--cow" => Some(Setting::Cow),
        "--lazy-tables" => Some(Setting::LazyTables),
        "--branch-hints" => Some(Setting::BranchHints),
        "--native-debug" => Some(Setting::NativeDebug),
        "--guest-debug" => Some(Setting::GuestDebug),
        "--ptr=4" => Some(Setting::Ptr4),
        "--ptr=8" => Some(Setting::Ptr8),
        "--gc=drc" => Some(Setting::GcDrc),
        "--gc=null" => Some(Setting::GcNull),
        _ => read_numbered(word),
    }
}

/// What the word sets, if it is an option with a number.
fn read_numbered(word: &str) -> Option<Setting>
    ensures spelled { IfSome result (λ s. (word.now ≡ (row s).word) × IsAllowed s) }
    ensures page { (n : ℕ) → IsAllowed (Setting.Page n) → word.now ≡ (row (Setting.Page n)).word → result ≡ Some (Setting.Page n) }
    ensures max_image { (n : ℕ) → IsAllowed (Setting.MaxImage n) → word.now ≡ (row (Setting.MaxImage n)).word → result ≡ Some (Setting.MaxImage n) }
{
    if let Some(digits) = text_after(word, "--page=") {
        return Some(Setting::Page(read_power(digits)?));
    }
    let digits = text_after(word, "--max-image=")?;
    Some(Setting::MaxImage(read_number(digits)?))
}

/// The text behind the prefix, or `None` where the text does not begin with the prefix.
fn text_after<'a>(text: &'a str, prefix: &str) -> Option<&'a str>
    ensures { MatchOption result ((rest : List ℕ) → text.now ≢ prefix.now ++ rest) (λ rest. text.now ≡ prefix.now ++ rest.now) }
{
    text.strip_prefix(prefix)
}

pub(crate) fn kind_of(setting: Setting) -> usize
    ensures kind { result ≡ (row setting).kind }
    ensures within { result < KINDS }
{
    match setting {
        Setting::Cow => 0,
        Setting::LazyTables => 1,
        Setting::BranchHints => 2,
        Setting::NativeDebug => 3,
        Setting::GuestDebug => 4,
        Setting::Page(_) => 5,
        Setting::MaxImage(_) => 6,
        Setting::Ptr4 | Setting::Ptr8 => 7,
        Setting::GcDrc | Setting::GcNull => 8,
    }
}

pub(crate) fn with_setting(mut command: Command, setting: Setting) -> Command
    ensures { result ≡ (row setting).sets command }
{
    match setting {
        Setting::Cow => command.tunables.memory_init_cow = true,
        Setting::LazyTables => command.tunables.table_lazy_init = true,
        Setting::BranchHints => command.tunables.branch_hinting = true,
        Setting::NativeDebug => command.tunables.debug_native = true,
        Setting::GuestDebug => command.tunables.debug_guest = true,
        Setting::Page(size) => command.page_size = size,
        Setting::MaxImage(size) => command.max_image = size,
        Setting::Ptr4 => command.ptr = 4,
        Setting::Ptr8 => command.ptr = 8,
        Setting::GcDrc => command.collector = Collector::Drc,
        Setting::GcNull => command.collector = Collector::Null,
    }
    command
}
