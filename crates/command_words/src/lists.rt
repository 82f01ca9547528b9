//! The settings of trace units, each of its ID: LIST, one or more words ID:DEPTH:VMID:CID that commas part. A word names
//! an ID by two hex digits, 01 to 6f, and no ID is named twice. An ID that is not named has the settings of all others.
//!
//! The time is linear in the length of the list, and no memory is taken.
ghost use Rattle.std.specs.Prelude.{◌≡◌, ◌∷◌, ◌<◌, [], IfSome, Some, length};
ghost use Rattle.std.specs.List.{slice_split};
ghost use Rattle.std.specs.Option.{option_map, option_map_or};
ghost use Rattle.etm_types.specs.Id.{IsId};
ghost use Rattle.etm_types.specs.Settings.{AreSettings};
ghost use Rattle.etm_types.specs.SettingsTable.{IsTable};
ghost use Rattle.command_words.specs.Lists.{cut_in_two, id_of, is_comma, named_by, named_of, nothing_listed, sizes_of, units_by, with_one};

use etm_types::{Id, Settings, SettingsTable};
use line_words::{decimal, two_digits};

/// How many IDs trace sources have, 1 to 111.
const IDS: usize = 111;

/// The settings of these numbers, where they are in range.
pub fn settings_of(depth: u64, vmid_bytes: u64, cid_bytes: u64) -> Option<Settings>
    ensures value { result ≡ sizes_of depth vmid_bytes cid_bytes }
    ensures within { IfSome result AreSettings }
{
    let depth = u32::try_from(depth).ok()?;
    let vmid_bytes = u8::try_from(vmid_bytes).ok()?;
    let cid_bytes = u8::try_from(cid_bytes).ok()?;
    Settings::new(depth, vmid_bytes, cid_bytes).ok()
}

/// The parts of a text before and behind its first colon.
fn cut_in_two(text: &str) -> Option<(&str, &str)>
    ensures { option_map (λ parts. (parts.0.now, parts.1.now)) result ≡ cut_in_two text.now }
{
    text.split_once(':')
}

/// The text before the first comma, and where there is a comma, the text behind it.
fn first_word(list: &str) -> (&str, Option<&str>)
    ensures words { slice_split is_comma list.now
        ≡ result.0.now ∷ option_map_or (λ rest. slice_split is_comma rest.now) result.1 [] }
    ensures shorter { IfSome result.1 (λ rest. length rest.now < length list.now) }
{
    match list.split_once(',') {
        Some((word, rest)) => (word, Some(rest)),
        None => (list, None),
    }
}

/// The ID that two hex digits spell.
fn id_of(digits: &str) -> Option<Id>
    ensures value { result ≡ id_of digits.now }
    ensures within { IfSome result IsId }
{
    let number = two_digits(digits.as_bytes())?;
    Id::new(number)
}

/// The ID and the settings that these parts of a word spell.
fn named_by(digits: &str, depth: &str, vmid: &str, cid: &str) -> Option<(Id, Settings)>
    ensures value { result ≡ named_by digits.now depth.now vmid.now cid.now }
    ensures within { IfSome result (λ one. IsId one.0 × AreSettings one.1) }
{
    let id = id_of(digits)?;
    let depth = decimal(depth.as_bytes())?;
    let vmid_bytes = decimal(vmid.as_bytes())?;
    let cid_bytes = decimal(cid.as_bytes())?;
    let settings = settings_of(depth, vmid_bytes, cid_bytes)?;
    Some((id, settings))
}

/// The ID that a word of a list names, and its settings.
fn named_of(word: &str) -> Option<(Id, Settings)>
    ensures value { result ≡ named_of word.now }
    ensures within { IfSome result (λ one. IsId one.0 × AreSettings one.1) }
{
    let (digits, behind) = cut_in_two(word)?;
    let (depth, behind) = cut_in_two(behind)?;
    let (vmid, cid) = cut_in_two(behind)?;
    named_by(digits, depth, vmid, cid)
}

/// The settings of all IDs, and which IDs a list named so far.
#[derive(Clone, Copy, Debug)]
struct Listed {
    table: SettingsTable,
    named: [bool; IDS],
}

impl Listed {
    /// No ID is named, and all have the same settings.
    fn none(others: Settings) -> Listed
        ensures value { result ≡ nothing_listed others }
        ensures within { IsTable result.table }
    {
        let table = SettingsTable::new(others);
        Listed {
            table,
            named: [false; IDS],
        }
    }

    /// One more ID, which was not named, gets its settings.
    fn with_one(mut self, one: (Id, Settings)) -> Option<Listed>
        ensures value { result ≡ with_one one self }
        ensures within { IfSome result (λ listed. IsTable listed.table) }
    {
        let (id, settings) = one;
        let place = usize::from(id.get()) - 1;
        if self.named[place] {
            return None;
        }
        self.named[place] = true;
        self.table.set(id, settings);
        Some(self)
    }
}

/// The settings of all IDs, of which a list names some.
fn listed_in(list: &str, others: Settings) -> Option<SettingsTable>
    ensures value { result ≡ units_by (Some list.now) others }
    ensures within { IfSome result IsTable }
{
    let mut listed = Listed::none(others);
    let mut left = Some(list);
    'words: while let Some(text) = left {
        let (word, behind) = first_word(text);
        listed = listed.with_one(named_of(word)?)?;
        left = behind;
    }
    Some(listed.table)
}

/// The settings of all IDs, of which the list, where there is one, names some.
pub fn table_of(list: Option<&str>, others: Settings) -> Option<SettingsTable>
    ensures value { result ≡ units_by (option_map (λ text. text.now) list.entry) others }
    ensures within { IfSome result IsTable }
{
    match list {
        Some(list) => listed_in(list, others),
        None => Some(SettingsTable::new(others)),
    }
}
