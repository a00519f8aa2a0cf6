//! The words of the command line.

ghost use Rattle.std.specs.Prelude.{◌≤◌, IfSome};
ghost use Rattle.own_operator.specs.Mixing.{IsMixer};

use crate::mixer::Mixer;
use kdg_text::read_u64;

/// How the tasks are run: the earliest one at a time, all that are clear in rounds, or by workers that
/// each claim the next one as soon as they have performed one.
#[derive(Clone, Copy)]
pub enum Mode {
    Serial,
    Rounds,
    Free,
}

/// What the words say.
#[derive(Clone, Copy)]
pub struct Setting {
    pub mode: Mode,
    /// From 1 to 64.
    pub workers: u32,
    pub mixer: Mixer,
}

/// The setting of the words: the mode, the number of workers and the length of a task, and then, if they
/// are said, the lookahead, the number of groups and the number of tasks.
pub fn read_setting(words: &[String]) -> Option<Setting>
    ensures workers { IfSome result (λ setting. (1 ≤ setting.workers) × (setting.workers ≤ 64)) }
    ensures mixer { IfSome result (λ setting. IsMixer setting.mixer) }
{
    let [mode, workers, times, more @ ..] = words else {
        return None;
    };
    if more.len() > 3 {
        return None;
    }
    let mixer = Mixer {
        times: u32_of(times)?,
        lookahead: number_or(more.get(0), 1, 1, 4096)?,
        groups: number_or(more.get(1), 64, 1, 4096)?,
        tasks: number_or(more.get(2), 16_384, 4096, 1_048_576)?,
    };
    Some(Setting {
        mode: mode_of(mode)?,
        workers: number_within(workers, 1, 64)?,
        mixer,
    })
}

/// The mode of a word.
fn mode_of(word: &String) -> Option<Mode> {
    match word.as_str() {
        "serial" => Some(Mode::Serial),
        "rounds" => Some(Mode::Rounds),
        "free" => Some(Mode::Free),
        _ => None,
    }
}

/// The number of a word, from the least to the greatest one. Where there is no word, it is the default.
fn number_or(word: Option<&String>, default: u32, least: u32, most: u32) -> Option<u32>
    requires { (least ≤ default) × (default ≤ most) }
    ensures { IfSome result (λ number. (least ≤ number) × (number ≤ most)) }
{
    match word {
        Some(word) => number_within(word, least, most),
        None => Some(default),
    }
}

/// The number of a word, from the least to the greatest one.
fn number_within(word: &String, least: u32, most: u32) -> Option<u32>
    ensures { IfSome result (λ number. (least ≤ number) × (number ≤ most)) }
{
    let number = u32_of(word)?;
    if number < least || number > most {
        return None;
    }
    Some(number)
}

/// The number of a word.
fn u32_of(word: &String) -> Option<u32> {
    let number = read_u64(word.as_bytes()).ok()?;
    u32::try_from(number).ok()
}
