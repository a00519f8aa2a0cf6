//! Logs, whose texts are joined in the order of their keys.

ghost use Rattle.std.specs.Prelude.{◌≡◌, [], ◌∷◌, IfOk};

use kdg_text::{NoRoom, Text};
use output_log::Log;
use std::alloc::Global;
use std::test::Fail;
use task_order::{Key, Path};

/// The key of the first task with this number, at priority 2.
fn key(alloc: Global, number: u32) -> Result<Key, NoRoom>
    ensures { IfOk result (λ key. key ≡ record { prio = 2; path = number ∷ [] }) }
{
    let path = Path::root(alloc, number)?;
    Ok(Key { prio: 2, path })
}

fn text(alloc: Global, bytes: &[u8]) -> Result<Text, NoRoom> {
    let mut text = Text::new(alloc);
    text.push_all(bytes)?;
    Ok(text)
}

/// The log of three tasks, put in out of order: the first two wrote a letter, and the last nothing.
fn three_texts(alloc: Global) -> Result<Log, NoRoom> {
    let mut log = Log::new(alloc);
    log.reserve(2)?;
    log.put(key(alloc, 1)?, text(alloc, b"b")?);
    log.put(key(alloc, 0)?, text(alloc, b"a")?);
    let silent = text(alloc, b"")?;
    log.reserve_for(&silent)?;
    log.put(key(alloc, 2)?, silent);
    Ok(log)
}

/// Whether a log has this text.
fn has_text(log: &Log, text: &[u8]) -> Result<bool, NoRoom> {
    Ok(log.all()?.bytes() == text)
}

/// Takes out the text before the second task's. The answer is whether it is the first task's, and the second's is left.
fn gives_first(log: &mut Log, alloc: Global) -> Result<bool, NoRoom> {
    let bound = key(alloc, 1)?;
    let first = log.take_below(&bound)?;
    Ok(first.bytes() == b"a".as_slice() && has_text(log, b"b")?)
}

/// Takes out all texts. The answer is whether they are the second task's, and the log is silent then.
fn gives_second(log: &mut Log) -> Result<bool, NoRoom> {
    let was_silent = log.is_silent();
    let second = log.take_all()?;
    Ok(!was_silent && second.bytes() == b"b".as_slice() && log.is_silent())
}

#[test]
fn texts_are_joined_in_key_order(rt: HostRuntime) -> Result<(), Fail> {
    let mut log = three_texts(rt.alloc())?;
    assert!(rt; gives_in_order(&mut log, rt.alloc())?);
    Ok(())
}

/// Whether a log of three tasks gives their texts in order, and nothing more.
fn gives_in_order(log: &mut Log, alloc: Global) -> Result<bool, NoRoom> {
    Ok(
        has_text(log, b"ab")?
            && gives_first(log, alloc)?
            && gives_second(log)?
            && log.take_all()?.is_empty(),
    )
}
