ghost use Rattle.std.specs.Prelude.{◌≡◌, ◌+◌, ◌≤◌, map, option_and_then, slice_get, string_bytes, is_some, Err, IfOk, IfErr, IfSome, OnSome};
ghost use Rattle.kdg_prog.specs.Words.{if_made, options_of, IsAllowed, IsHeading, is_big, command_named, most_for, option_for, option_named, takes, number_within, mode_value, switch_value, is_value, word_of};
ghost use Rattle.kdg_prog.specs.Draft.{is_given, with_value, options_of_draft};

use kdg_text::read_u64;

/// The greatest number of workers.
const MOST_WORKERS: u64 = 64;

/// The last time that may be simulated.
const LATEST_TIME: u64 = 1_000_000_000;

/// The longest time between two ticks of a circuit's clock.
const LONGEST_CLOCK: u64 = 1_000_000_000;

/// The last vertex that a search may begin at.
const LAST_VERTEX: u64 = 4096;

/// The greatest budget.
const MOST_TASKS: u64 = 1_000_000_000;

/// What is run.
#[derive(Clone, Copy, Debug, PartialEq, Eq)]
pub enum Command {
    /// The simulation of a circuit.
    Sim,
    /// The elimination of a matrix.
    Rank,
    /// The simulation of a mesh of springs.
    Mesh,
    /// The search for the levels of a graph.
    Levels,
}

/// How tasks are run.
#[derive(Clone, Copy, Debug, PartialEq, Eq)]
pub enum Mode {
    /// One after another, on one thread.
    Serial,
    /// In rounds that all workers end together.
    Rounds,
    /// By workers of which none waits for the others to end their tasks.
    Free,
    /// In rounds whose tasks are found by marks on a board.
    Marks,
}

/// What the words of a command line ask for.
#[derive(Clone, Copy, Debug, PartialEq, Eq)]
pub struct Options {
    pub command: Command,
    /// The number that the input is made from, or 0 where it is read.
    pub big: u32,
    /// 1 to 64.
    pub workers: u32,
    pub mode: Mode,
    pub seed: u64,
    /// The last time that is simulated, 0 to 1,000,000,000.
    pub until: u64,
    /// The time between two ticks of the flip-flops, 1 to 1,000,000,000.
    pub clock: u64,
    /// The vertex from which a graph is searched, 1 to 4,096.
    pub from: u32,
    /// How many tasks may be created, 0 to 1,000,000,000.
    pub budget: u64,
    /// Whether figures of the run are printed behind its results.
    pub stats: bool,
}

/// Reads the words of a command line, without the program's name, or gives the place of the first
/// bad one, counted from 1.
///
/// The first word is the command, `sim`, `rank`, `mesh` or `levels`. The input is read, unless `big`
/// stands before the command and a number behind it, from which the input is made then: 1 to 999 for
/// `sim`, to 1,365 for `rank`, to 2,048 for `mesh`; that of `levels` is always read. Pairs of an
/// option and its value follow in any order, each option at most once:
///
/// | option | value | default |
/// |---|---|---|
/// | `--workers` | 1 to 64 | 4 |
/// | `--mode` | `serial`, `rounds`, `free` or `marks` | `rounds` |
/// | `--seed` | 0 to 2^64 - 1 | 0 |
/// | `--until`, only of `sim` | 0 to 1,000,000,000 | 1000 |
/// | `--clock`, only of `sim` | 1 to 1,000,000,000 | 10 |
/// | `--from`, only of `levels` | 1 to 4,096 | 1 |
/// | `--budget` | 0 to 1,000,000,000 | 1,000,000 |
/// | `--stats` | `on` or `off` | `off` |
///
/// Words are compared byte by byte, and numbers are decimal digits, which may begin with zeros. The
/// command is bad where it is missing or no command, the number where it is missing or out of range,
/// an option where it is not one of the command's or was given before, and a value where it is
/// missing or none of its option's. What is missing has the place behind the last word.
pub fn read_words(words: &Vec<String>) -> Result<Options, u32>
    ensures value { result ≡ options_of (map string_bytes words.now.items) }
    ensures allowed { IfOk result IsAllowed }
{
    let heading = read_heading(words)?;
    let mut draft = Draft::default();
    let mut index = heading.len;
    while index < words.len() {
        let place = index as u32 + 1;
        let name = option_for(heading.command, words[index].as_str()).ok_or(place)?;
        if draft.has(name) {
            return Err(place);
        }
        let value = words.get(index + 1).ok_or(place + 1)?;
        draft.set(name, value.as_str()).ok_or(place + 1)?;
        index += 2;
    }
    Ok(draft.options(&heading))
}

/// What stands before the options.
#[derive(Clone, Copy)]
struct Heading {
    command: Command,
    /// The number that the input is made from, or 0 where it is read.
    big: u32,
    /// How many words it has.
    len: usize,
}

/// Reads what stands before the options, or gives the place of the first bad word.
fn read_heading(words: &Vec<String>) -> Result<Heading, u32>
    ensures read { IfOk result (IsHeading (map string_bytes words.now.items)) }
    ensures refused { IfErr result (λ place. options_of (map string_bytes words.now.items) ≡ Err place) }
{
    if !is_big(words) {
        let Some(command) = command_at(words, 0) else {
            return Err(1);
        };
        return Ok(Heading {
            command,
            big: 0,
            len: 1,
        });
    }
    let Some(command) = made_command_at(words, 1) else {
        return Err(2);
    };
    let Some(big) = number_at(words, 2, command.most_for()) else {
        return Err(3);
    };
    Ok(Heading {
        command,
        big: big as u32,
        len: 3,
    })
}

/// Whether the input is made from a number.
fn is_big(words: &Vec<String>) -> bool
    ensures { result ≡ is_big (map string_bytes words.now.items) }
{
    match words.first() {
        Some(word) => word.as_str() == "big",
        None => false,
    }
}

/// The command that the word at an index names.
fn command_at(words: &Vec<String>, index: usize) -> Option<Command>
    ensures { result ≡ option_and_then command_named (slice_get (map string_bytes words.now.items) index) }
{
    command_named(words.get(index)?.as_str())
}

/// The command that the word at an index names, if its input may be made from a number.
fn made_command_at(words: &Vec<String>, index: usize) -> Option<Command>
    ensures { result ≡ if_made (option_and_then command_named (slice_get (map string_bytes words.now.items) index)) }
{
    let command = command_at(words, index)?;
    if command.most_for() > 0 {
        Some(command)
    } else {
        None
    }
}

/// The number from 1 to `most` that the word at an index spells.
fn number_at(words: &Vec<String>, index: usize, most: u64) -> Option<u64>
    ensures value { result ≡ option_and_then (number_within 1 most) (slice_get (map string_bytes words.now.items) index) }
    ensures within { IfSome result (λ number. number ≤ most) }
{
    read_within(words.get(index)?.as_str(), 1, most)
}

/// What stands before a value.
#[derive(Clone, Copy)]
enum OptionName {
    Workers,
    Mode,
    Seed,
    Until,
    Clock,
    From,
    Budget,
    Stats,
}

/// The command that a word names.
fn command_named(word: &str) -> Option<Command>
    ensures { result ≡ command_named word.now }
{
    match word {
        "sim" => Some(Command::Sim),
        "rank" => Some(Command::Rank),
        "mesh" => Some(Command::Mesh),
        "levels" => Some(Command::Levels),
        _ => None,
    }
}

impl Command {
    /// The word that names it.
    pub(crate) fn word(self) -> &'static str
        ensures { result.now ≡ word_of self }
    {
        match self {
            Command::Sim => "sim",
            Command::Rank => "rank",
            Command::Mesh => "mesh",
            Command::Levels => "levels",
        }
    }

    /// The greatest number that its input may be made from, or 0 where that is always read.
    fn most_for(self) -> u64
        ensures value { result ≡ most_for self }
        ensures few { result ≤ 2048 }
    {
        match self {
            Command::Sim => 999,
            Command::Rank => 1365,
            Command::Mesh => 2048,
            Command::Levels => 0,
        }
    }

    /// Whether it has the option.
    fn takes(self, name: OptionName) -> bool
        ensures { result ≡ takes self name }
    {
        match name {
            OptionName::Until | OptionName::Clock => self == Command::Sim,
            OptionName::From => self == Command::Levels,
            _ => true,
        }
    }
}

/// The option of a command that a word names.
fn option_for(command: Command, word: &str) -> Option<OptionName>
    ensures { result ≡ option_for command word.now }
{
    let name = option_named(word)?;
    if command.takes(name) {
        Some(name)
    } else {
        None
    }
}

/// The option that a word names.
fn option_named(word: &str) -> Option<OptionName>
    ensures { result ≡ option_named word.now }
{
    match word {
        "--workers" => Some(OptionName::Workers),
        "--mode" => Some(OptionName::Mode),
        "--seed" => Some(OptionName::Seed),
        "--until" => Some(OptionName::Until),
        "--clock" => Some(OptionName::Clock),
        "--from" => Some(OptionName::From),
        "--budget" => Some(OptionName::Budget),
        "--stats" => Some(OptionName::Stats),
        _ => None,
    }
}

/// The mode that a word names.
fn read_mode(word: &str) -> Option<Mode>
    ensures { result ≡ mode_value word.now }
{
    match word {
        "serial" => Some(Mode::Serial),
        "rounds" => Some(Mode::Rounds),
        "free" => Some(Mode::Free),
        "marks" => Some(Mode::Marks),
        _ => None,
    }
}

/// Whether a word switches on or off.
fn read_switch(word: &str) -> Option<bool>
    ensures { result ≡ switch_value word.now }
{
    match word {
        "on" => Some(true),
        "off" => Some(false),
        _ => None,
    }
}

/// The number that a word spells, if it lies in a range, the ends included.
fn read_within(word: &str, low: u64, high: u64) -> Option<u64>
    ensures value { result ≡ number_within low high word.now }
    ensures within { IfSome result (λ n. (low ≤ n) × (n ≤ high)) }
{
    let number = read_u64(word.as_bytes()).ok()?;
    if low <= number && number <= high {
        Some(number)
    } else {
        None
    }
}

/// The values of the options that were given so far.
#[derive(Clone, Copy, Default)]
struct Draft {
    workers: Option<u32>,
    mode: Option<Mode>,
    seed: Option<u64>,
    until: Option<u64>,
    clock: Option<u64>,
    from: Option<u32>,
    budget: Option<u64>,
    stats: Option<bool>,
}

impl Draft {
    /// Whether the option was given.
    fn has(&self, name: OptionName) -> bool
        ensures { result ≡ is_given self.now name }
    {
        match name {
            OptionName::Workers => self.workers.is_some(),
            OptionName::Mode => self.mode.is_some(),
            OptionName::Seed => self.seed.is_some(),
            OptionName::Until => self.until.is_some(),
            OptionName::Clock => self.clock.is_some(),
            OptionName::From => self.from.is_some(),
            OptionName::Budget => self.budget.is_some(),
            OptionName::Stats => self.stats.is_some(),
        }
    }

    /// Keeps the value of an option, or answers `None` where it is none of the option's.
    fn set(&mut self, name: OptionName, value: &str) -> Option<()>
        ensures variant { is_some result ≡ is_value name value.now }
        ensures kept { OnSome result (self.new ≡ with_value self.old name value.now) }
    {
        match name {
            OptionName::Workers => self.workers = Some(read_within(value, 1, MOST_WORKERS)? as u32),
            OptionName::Mode => self.mode = Some(read_mode(value)?),
            OptionName::Seed => self.seed = Some(read_within(value, 0, u64::MAX)?),
            OptionName::Until => self.until = Some(read_within(value, 0, LATEST_TIME)?),
            OptionName::Clock => self.clock = Some(read_within(value, 1, LONGEST_CLOCK)?),
            OptionName::From => self.from = Some(read_within(value, 1, LAST_VERTEX)? as u32),
            OptionName::Budget => self.budget = Some(read_within(value, 0, MOST_TASKS)?),
            OptionName::Stats => self.stats = Some(read_switch(value)?),
        }
        Some(())
    }

    /// The values that were given, and the defaults of the other options.
    fn options(self, heading: &Heading) -> Options
        ensures { result ≡ options_of_draft heading.now.command heading.now.big self }
    {
        Options {
            command: heading.command,
            big: heading.big,
            workers: self.workers.unwrap_or(4),
            mode: self.mode.unwrap_or(Mode::Rounds),
            seed: self.seed.unwrap_or(0),
            until: self.until.unwrap_or(1000),
            clock: self.clock.unwrap_or(10),
            from: self.from.unwrap_or(1),
            budget: self.budget.unwrap_or(1_000_000),
            stats: self.stats.unwrap_or(false),
        }
    }
}
