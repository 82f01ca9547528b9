//! The words of the command line: the table of commands, and what words mean, read without memory.
ghost use Rattle.std.specs.Prelude.{◌≡◌, IfSome, find, map};
ghost use Rattle.std.specs.Option.{option_map};
ghost use Rattle.std.specs.Str.{bytes_eq};
ghost use Rattle.command_words.specs.Words.{behind_dash, commands, command_in, count_of, cut_of, image_of, intake_in, is_dashed, is_seen, is_whole, key_of};
ghost use Rattle.command_words.specs.Words.{layout_in, meaning, name_and_value, name_of, nothing_seen, number_of, number_to, program_in, seen_of};
ghost use Rattle.command_words.specs.Words.{selftest_in, sizes_in, takes_value, texts, trace_in, units_in, with_dashed, with_named, with_option};
ghost use Rattle.command_words.specs.Words.{with_positional, with_value, with_word};
ghost use Rattle.etm_types.specs.Settings.{AreSettings};
ghost use Rattle.etm_types.specs.SettingsTable.{IsTable};
ghost use Rattle.command_words.specs.Said.{IsInRange, IsIntake, IsLaidOut, IsCountTo, line_of, said, said_intake, said_program, seen_by};

use crate::lists::{settings_of, table_of};
use etm_types::{Settings, SettingsTable};
use line_words::decimal;

/// The highest number of which both ends are tried.
const MOST_NUMBER: u32 = 99_999;

/// The most bytes that are read of frames.
const MOST_CUT: u32 = 1 << 30;

/// The most frames of a buffer that stand before its oldest.
const MOST_WRAP: u32 = 65_536;

/// The most frames that `--last` leaves.
const MOST_LAST: u32 = 65_536;

/// The most frames between two synchronisation packets that `--sync` writes.
const MOST_EVERY: u32 = 65_535;

/// How the input is laid out.
#[derive(Clone, Copy, Debug, PartialEq, Eq)]
pub enum Layout {
    /// One stream that is not framed (`--raw`).
    Raw,
    /// Formatter frames of many streams (Arm CoreSight architecture, IHI 0029).
    Frames,
    /// Such frames in a buffer that was written round (`--wrap`): the number of its oldest frame, from 0 on.
    Wrapped(u32),
    /// Such frames from a trace port, with synchronisation packets among them (`--sync`).
    Synced,
}

/// What the file of a program is.
#[derive(Clone, Copy, Debug, PartialEq, Eq)]
pub enum ProgramForm {
    /// The text of an image.
    Text,
    /// An ELF file (`--elf`).
    Elf,
}

/// The program that ran.
#[derive(Clone, Copy, Debug)]
pub struct Program<'a> {
    /// The name of its file.
    pub name: &'a str,
    /// What that file is.
    pub form: ProgramForm,
}

/// How an input is taken.
#[derive(Clone, Copy, Debug)]
pub struct Intake {
    /// The settings of the trace unit of each ID.
    pub settings: SettingsTable,
    /// How the input is laid out.
    pub layout: Layout,
}

/// A command, with what its words say.
#[derive(Clone, Copy, Debug)]
pub enum Command<'a> {
    /// The path of each stream, over the image of a program.
    Path {
        program: Program<'a>,
        intake: Intake,
    },
    /// How often each instruction and each other item stands in the paths of all streams (`--count`).
    Counts {
        program: Program<'a>,
        intake: Intake,
    },
    /// The packets of each stream.
    Packets {
        intake: Intake,
    },
    /// The times of the P0 elements of each stream.
    Times {
        intake: Intake,
    },
    /// The retired path of each stream of a run file, over the image of a program.
    Retired {
        program: Program<'a>,
    },
    /// The trace of each stream of a run file, over the image of a program. So many of its last frames are written, or all; and
    /// a synchronisation packet before the first of these and each so-many-th behind it, or none.
    Trace {
        program: Program<'a>,
        last: Option<u32>,
        every: Option<u32>,
    },
    /// Both ends, tried on the run file that is made from a number. Of its frames so many bytes are read, or all.
    Selftest {
        number: u32,
        cut: Option<u32>,
    },
}

/// The commands.
#[derive(Clone, Copy, Debug)]
pub enum CommandName {
    Path,
    Packets,
    Times,
    Retired,
    Trace,
    Selftest,
}

/// The options of the commands. `--raw`, `--elf`, `--count`, and `--sync` where an input is read, are flags, and the others take a
/// value.
#[derive(Clone, Copy, Debug)]
pub enum CommandOption {
    Raw,
    Wrap,
    Sync,
    Depth,
    Vmid,
    Cid,
    Settings,
    Elf,
    Count,
    Last,
    SyncEvery,
    Cut,
}

impl CommandOption {
    /// Its name, which stands behind `--` in its word.
    pub fn name(self) -> &'static str
        ensures { result.now ≡ name_of self }
    {
        match self {
            CommandOption::Raw => "raw",
            CommandOption::Wrap => "wrap",
            CommandOption::Sync | CommandOption::SyncEvery => "sync",
            CommandOption::Depth => "depth",
            CommandOption::Vmid => "vmid",
            CommandOption::Cid => "cid",
            CommandOption::Settings => "settings",
            CommandOption::Elf => "elf",
            CommandOption::Count => "count",
            CommandOption::Last => "last",
            CommandOption::Cut => "cut",
        }
    }

    /// What `clap` knows it by. That is its name, but a flag and an option with a value may have one name.
    pub fn key(self) -> &'static str
        ensures { result.now ≡ key_of self }
    {
        match self {
            CommandOption::SyncEvery => "sync-every",
            option => option.name(),
        }
    }

    /// Whether it takes a value.
    pub fn takes_value(self) -> bool
        ensures { result ≡ takes_value self }
    {
        !matches!(
            self,
            CommandOption::Raw | CommandOption::Sync | CommandOption::Elf | CommandOption::Count
        )
    }
}

/// A command, with its options, and whether it has a positional: an IMAGE, or a number.
#[derive(Clone, Copy, Debug)]
pub struct CommandLine {
    pub word: &'static str,
    pub name: CommandName,
    pub options: &'static [CommandOption],
    pub has_positional: bool,
}

/// The commands: `path [--raw] [--wrap K] [--sync] [--depth N] [--vmid N] [--cid N] [--settings LIST] [--elf] [--count] IMAGE`,
/// `packets [--raw] [--wrap K] [--sync] [--vmid N] [--cid N] [--settings LIST]`,
/// `times [--raw] [--depth N] [--vmid N] [--cid N] [--settings LIST]`, `retired [--elf] IMAGE`,
/// `trace [--last N] [--sync N] [--elf] IMAGE` and `selftest [--cut K] N`.
pub const COMMANDS: [CommandLine; 6] = [
    CommandLine {
        word: "path",
        name: CommandName::Path,
        options: &[
            CommandOption::Raw,
            CommandOption::Wrap,
            CommandOption::Sync,
            CommandOption::Depth,
            CommandOption::Vmid,
            CommandOption::Cid,
            CommandOption::Settings,
            CommandOption::Elf,
            CommandOption::Count,
        ],
        has_positional: true,
    },
    CommandLine {
        word: "packets",
        name: CommandName::Packets,
        options: &[
            CommandOption::Raw,
            CommandOption::Wrap,
            CommandOption::Sync,
            CommandOption::Vmid,
            CommandOption::Cid,
            CommandOption::Settings,
        ],
        has_positional: false,
    },
    CommandLine {
        word: "times",
        name: CommandName::Times,
        options: &[
            CommandOption::Raw,
            CommandOption::Depth,
            CommandOption::Vmid,
            CommandOption::Cid,
            CommandOption::Settings,
        ],
        has_positional: false,
    },
    CommandLine {
        word: "retired",
        name: CommandName::Retired,
        options: &[CommandOption::Elf],
        has_positional: true,
    },
    CommandLine {
        word: "trace",
        name: CommandName::Trace,
        options: &[
            CommandOption::Last,
            CommandOption::SyncEvery,
            CommandOption::Elf,
        ],
        has_positional: true,
    },
    CommandLine {
        word: "selftest",
        name: CommandName::Selftest,
        options: &[CommandOption::Cut],
        has_positional: true,
    },
];

/// The command of a word, among these.
fn line_in(lines: &[CommandLine], word: &str) -> Option<CommandLine>
    ensures { option_map line_of result ≡ find (λ row. bytes_eq word.now row.word) (map line_of lines.now) }
{
    match lines {
        [line, ..] if word == line.word => Some(*line),
        [_, rest @ ..] => line_in(rest, word),
        [] => None,
    }
}

/// The command of a word.
pub fn line_of(word: &str) -> Option<CommandLine>
    ensures { option_map line_of result ≡ find (λ row. bytes_eq word.now row.word) commands }
{
    line_in(&COMMANDS, word)
}

/// What was seen so far of the words behind a command.
#[derive(Clone, Copy, Debug)]
pub struct Seen<'a> {
    pub raw: bool,
    pub wrap: Option<&'a str>,
    pub sync: bool,
    pub depth: Option<&'a str>,
    pub vmid: Option<&'a str>,
    pub cid: Option<&'a str>,
    pub settings: Option<&'a str>,
    pub elf: bool,
    pub count: bool,
    pub last: Option<&'a str>,
    pub every: Option<&'a str>,
    pub cut: Option<&'a str>,
    pub positional: Option<&'a str>,
    /// The option that takes the next word.
    pub waits: Option<CommandOption>,
    /// Whether `--` stood.
    pub ended: bool,
}

/// Whether a word begins with `-` and is longer.
fn is_dashed(word: &str) -> bool
    ensures { result ≡ is_dashed word.now }
{
    match word.as_bytes() {
        [] | [_] => false,
        [first, ..] => *first == b'-',
    }
}

/// What stands behind a first `-`.
fn behind_dash(word: &str) -> Option<&str>
    ensures { option_map (λ s. s.now) result ≡ behind_dash word.now }
{
    word.strip_prefix('-')
}

/// The parts of NAME or NAME=VALUE.
fn name_and_value(text: &str) -> (&str, Option<&str>)
    ensures { (result.0.now, option_map (λ v. v.now) result.1) ≡ name_and_value text.now }
{
    match text.split_once('=') {
        Some((name, value)) => (name, Some(value)),
        None => (text, None),
    }
}

impl<'a> Seen<'a> {
    /// Nothing.
    fn nothing() -> Self
        ensures { seen_by result ≡ nothing_seen }
    {
        Self {
            raw: false,
            wrap: None,
            sync: false,
            depth: None,
            vmid: None,
            cid: None,
            settings: None,
            elf: false,
            count: false,
            last: None,
            every: None,
            cut: None,
            positional: None,
            waits: None,
            ended: false,
        }
    }

    /// Whether an option stood.
    fn has(&self, option: CommandOption) -> bool
        ensures { result ≡ is_seen option (seen_by self.now) }
    {
        match option {
            CommandOption::Raw => self.raw,
            CommandOption::Wrap => self.wrap.is_some(),
            CommandOption::Sync => self.sync,
            CommandOption::Depth => self.depth.is_some(),
            CommandOption::Vmid => self.vmid.is_some(),
            CommandOption::Cid => self.cid.is_some(),
            CommandOption::Settings => self.settings.is_some(),
            CommandOption::Elf => self.elf,
            CommandOption::Count => self.count,
            CommandOption::Last => self.last.is_some(),
            CommandOption::SyncEvery => self.every.is_some(),
            CommandOption::Cut => self.cut.is_some(),
        }
    }

    /// An option, with its value.
    fn with_value(mut self, option: CommandOption, value: &'a str) -> Self
        ensures { seen_by result ≡ with_value option value.entry.now (seen_by self.entry) }
    {
        self.waits = None;
        match option {
            CommandOption::Raw => self.raw = true,
            CommandOption::Wrap => self.wrap = Some(value),
            CommandOption::Sync => self.sync = true,
            CommandOption::Depth => self.depth = Some(value),
            CommandOption::Vmid => self.vmid = Some(value),
            CommandOption::Cid => self.cid = Some(value),
            CommandOption::Settings => self.settings = Some(value),
            CommandOption::Elf => self.elf = true,
            CommandOption::Count => self.count = true,
            CommandOption::Last => self.last = Some(value),
            CommandOption::SyncEvery => self.every = Some(value),
            CommandOption::Cut => self.cut = Some(value),
        }
        self
    }

    /// The positional, where the command has one and it did not stand.
    fn with_positional(mut self, line: &CommandLine, word: &'a str) -> Option<Self>
        ensures { option_map seen_by result ≡ with_positional (line_of line.now) word.entry.now (seen_by self.entry) }
    {
        if line.has_positional && self.positional.is_none() {
            self.positional = Some(word);
            Some(self)
        } else {
            None
        }
    }

    /// An option that did not stand, with the value of its own word.
    fn with_option(mut self, option: CommandOption, value: Option<&'a str>) -> Option<Self>
        ensures { option_map seen_by result ≡ with_option option (option_map (λ v. v.now) value.entry) (seen_by self.entry) }
    {
        match value {
            _ if self.has(option) => None,
            Some(value) if option.takes_value() => Some(self.with_value(option, value)),
            Some(_) => None,
            None if option.takes_value() => {
                self.waits = Some(option);
                Some(self)
            }
            None => Some(self.with_value(option, "")),
        }
    }

    /// An option of the command, by the text behind `--`.
    fn with_named(self, line: &CommandLine, text: &'a str) -> Option<Self>
        ensures { option_map seen_by result ≡ with_named (line_of line.now) text.entry.now (seen_by self.entry) }
    {
        let (name, value) = name_and_value(text);
        let option = option_named(line.options, name)?;
        self.with_option(option, value)
    }

    /// The end of the options, or an option of the command.
    fn with_dashed(mut self, line: &CommandLine, word: &'a str) -> Option<Self>
        ensures { option_map seen_by result ≡ with_dashed (line_of line.now) word.entry.now (seen_by self.entry) }
    {
        if word == "--" {
            self.ended = true;
            return Some(self);
        }
        let text = behind_dash(behind_dash(word)?)?;
        self.with_named(line, text)
    }

    /// One more word.
    fn with_word(self, line: &CommandLine, word: &'a str) -> Option<Self>
        ensures { option_map seen_by result ≡ with_word (line_of line.now) word.entry.now (seen_by self.entry) }
    {
        match self.waits {
            Some(_) if !self.ended && is_dashed(word) => None,
            None if !self.ended && is_dashed(word) => self.with_dashed(line, word),
            Some(option) => Some(self.with_value(option, word)),
            None => self.with_positional(line, word),
        }
    }

    /// Whether nothing is missing.
    fn is_whole(&self, line: &CommandLine) -> bool
        ensures { result ≡ is_whole (line_of line.now) (seen_by self.now) }
    {
        self.waits.is_none() && (self.positional.is_some() || !line.has_positional)
    }

    /// The settings of the IDs that no list names, where the values are numbers in range.
    fn of_others(&self) -> Option<Settings>
        ensures value { result ≡ sizes_in (seen_by self.now) }
        ensures within { IfSome result AreSettings }
    {
        let default = Settings::default();
        let depth = number_of(self.depth, u64::from(default.depth()))?;
        let vmid_bytes = number_of(self.vmid, u64::from(default.vmid_bytes()))?;
        let cid_bytes = number_of(self.cid, u64::from(default.cid_bytes()))?;
        settings_of(depth, vmid_bytes, cid_bytes)
    }

    /// The settings of all IDs, where the values are numbers in range and a list names each ID once.
    fn table(&self) -> Option<SettingsTable>
        ensures value { result ≡ units_in (seen_by self.now) }
        ensures within { IfSome result IsTable }
    {
        let others = self.of_others()?;
        table_of(self.settings, others)
    }

    /// The layout, where no two options tell one and the number of an oldest frame is in range.
    fn layout(&self) -> Option<Layout>
        ensures value { result ≡ layout_in (seen_by self.now) }
        ensures within { IfSome result IsLaidOut }
    {
        match (self.raw, self.wrap, self.sync) {
            (false, None, false) => Some(Layout::Frames),
            (true, None, false) => Some(Layout::Raw),
            (false, Some(text), false) => number_to(text, MOST_WRAP).map(Layout::Wrapped),
            (false, None, true) => Some(Layout::Synced),
            _ => None,
        }
    }

    /// The program, where its name stands.
    fn program(&self) -> Option<Program<'a>>
        ensures { option_map said_program result ≡ program_in (seen_by self.now) }
    {
        let name = self.positional?;
        let form = if self.elf {
            ProgramForm::Elf
        } else {
            ProgramForm::Text
        };
        Some(Program { name, form })
    }

    /// How the input is taken, where the values are numbers in range.
    fn intake(&self) -> Option<Intake>
        ensures value { option_map said_intake result ≡ intake_in (seen_by self.now) }
        ensures within { IfSome result IsIntake }
    {
        let settings = self.table()?;
        let layout = self.layout()?;
        Some(Intake { settings, layout })
    }

    /// The command `trace`.
    fn trace(&self) -> Option<Command<'a>>
        ensures value { option_map said result ≡ trace_in (seen_by self.now) }
        ensures within { IfSome result IsInRange }
    {
        let program = self.program()?;
        let last = count_of(self.last, MOST_LAST)?;
        let every = count_of(self.every, MOST_EVERY)?;
        Some(Command::Trace {
            program,
            last,
            every,
        })
    }

    /// How many bytes of frames are read, where `--cut` stands. There is no answer where its value is no such number.
    fn cut(&self) -> Option<Option<u32>>
        ensures { result ≡ cut_of (seen_by self.now).cut }
    {
        match self.cut {
            Some(text) => number_to(text, MOST_CUT).map(Some),
            None => Some(None),
        }
    }

    /// The command `selftest`.
    fn selftest(&self) -> Option<Command<'a>>
        ensures value { option_map said result ≡ selftest_in (seen_by self.now) }
        ensures within { IfSome result IsInRange }
    {
        let number = number_to(self.positional?, MOST_NUMBER)?;
        let cut = self.cut()?;
        Some(Command::Selftest { number, cut })
    }

    /// The command of this name.
    pub fn command(&self, name: CommandName) -> Option<Command<'a>>
        ensures value { option_map said result ≡ command_in name (seen_by self.now) }
        ensures within { IfSome result IsInRange }
    {
        match name {
            CommandName::Path => {
                let program = self.program()?;
                let intake = self.intake()?;
                Some(if self.count {
                    Command::Counts { program, intake }
                } else {
                    Command::Path { program, intake }
                })
            }
            CommandName::Packets => {
                let intake = self.intake()?;
                Some(Command::Packets { intake })
            }
            CommandName::Times => {
                let intake = self.intake()?;
                Some(Command::Times { intake })
            }
            CommandName::Retired => {
                let program = self.program()?;
                Some(Command::Retired { program })
            }
            CommandName::Trace => self.trace(),
            CommandName::Selftest => self.selftest(),
        }
    }
}

/// The option of this name, where it is one of these.
fn option_named(options: &[CommandOption], name: &str) -> Option<CommandOption>
    ensures { result ≡ find (λ o. bytes_eq name.now (name_of o)) options.now }
{
    options.iter().copied().find(|option| name == option.name())
}

/// The number of a value's text, or the default where there is no value.
fn number_of(value: Option<&str>, default: u64) -> Option<u64>
    ensures { result ≡ number_of default (option_map (λ v. v.now) value.entry) }
{
    match value {
        Some(text) => decimal(text.as_bytes()),
        None => Some(default),
    }
}

/// The number of a text, where it is no more than `most`.
fn number_to(text: &str, most: u32) -> Option<u32>
    ensures { result ≡ number_to most text.now }
{
    let number = decimal(text.as_bytes())?;
    let number = u32::try_from(number).ok()?;
    if number <= most { Some(number) } else { None }
}

/// How many an option says, where it stands. There is no answer where its value is no number up to `most`, or 0.
fn count_of(value: Option<&str>, most: u32) -> Option<Option<u32>>
    ensures value { result ≡ count_of most (option_map (λ v. v.now) value.entry) }
    ensures within { IfSome result (IsCountTo most) }
{
    let Some(text) = value else {
        return Some(None);
    };
    let count = number_to(text, most)?;
    if count == 0 { None } else { Some(Some(count)) }
}

/// What is seen of the words behind a command.
fn seen_of<'a>(line: &CommandLine, words: &'a [String]) -> Option<Seen<'a>>
    ensures { option_map seen_by result ≡ seen_of (line_of line.now) nothing_seen (texts words.entry.now) }
{
    let mut seen = Seen::nothing();
    for word in words {
        seen = seen.with_word(line, word.as_str())?;
    }
    if seen.is_whole(line) {
        Some(seen)
    } else {
        None
    }
}

/// The command that the words mean, where they mean one. It takes no memory.
fn read_command(words: &[String]) -> Option<Command<'_>>
    ensures value { option_map said result ≡ meaning (texts words.now) }
    ensures within { IfSome result IsInRange }
{
    let (word, behind) = words.split_first()?;
    let line = line_of(word.as_str())?;
    let seen = seen_of(&line, behind)?;
    seen.command(line.name)
}

/// The name of the image, where the words have a meaning and their command reads one. It takes no
/// memory.
pub fn image_name(words: &[String]) -> Option<&str>
    ensures { option_map (λ name. name.now) result ≡ image_of (meaning (texts words.now)) }
{
    match read_command(words) {
        Some(
            Command::Path { program, .. }
            | Command::Counts { program, .. }
            | Command::Retired { program }
            | Command::Trace { program, .. },
        ) => Some(program.name),
        Some(Command::Packets { .. } | Command::Times { .. } | Command::Selftest { .. }) => None,
        None => None,
    }
}
