//! Acts on monitors, worked out by hand.
use crate::monitor::Monitor;
use crate::record::{Entry, Granted, Hold};
use Act::{DropAll, Enter, Leave, Signal, Wait};
use Answer::{Entered, Grants, Nobody, Queued, Refused};
use std::alloc::{AllocError, Global};
use std::test::Fail;

#[derive(Clone, Copy, PartialEq, Eq, Debug)]
enum Act {
    Enter,
    Leave,
    Wait(usize),
    Signal(usize),
    DropAll,
}

/// What an act answers. It is refused where its conditions don't hold.
#[derive(Clone, Copy, PartialEq, Eq, Debug)]
enum Answer {
    Entered,
    Queued,
    Grants(u32),
    Nobody,
    Refused,
}

fn digit(b: u8) -> u32 {
    b.wrapping_sub(b'0') as u32
}

/// A process and its act: `1e` for enter, `1l` for leave, `1d` for drop all, `1w0` and `1s0` for wait and signal.
fn act_of(word: &[u8]) -> Option<(u32, Act)> {
    match word {
        [p, b'e'] => Some((digit(*p), Enter)),
        [p, b'l'] => Some((digit(*p), Leave)),
        [p, b'd'] => Some((digit(*p), DropAll)),
        [p, b'w', c] => Some((digit(*p), Wait(digit(*c) as usize))),
        [p, b's', c] => Some((digit(*p), Signal(digit(*c) as usize))),
        _ => None,
    }
}

fn whom(granted: Option<Granted>) -> Answer {
    match granted {
        Some(granted) => Grants(granted.process),
        None => Nobody,
    }
}

fn enters(monitor: &mut Monitor, p: u32) -> Result<Answer, AllocError> {
    if !monitor.waits_nowhere(p) || monitor.depth_of(p) == u32::MAX {
        return Ok(Refused);
    }
    match monitor.enter(p)? {
        Entry::Entered => Ok(Entered),
        Entry::Queued => Ok(Queued),
    }
}

fn acts(monitor: &mut Monitor, p: u32, act: Act) -> Result<Answer, AllocError> {
    if let Enter = act {
        return enters(monitor, p);
    }
    if !monitor.is_held_by(p) {
        return Ok(Refused);
    }
    Ok(match act {
        Wait(c) if c < monitor.conditions() => whom(monitor.wait(p, c)),
        Signal(c) if c < monitor.conditions() => whom(monitor.signal(p, c)),
        Leave => whom(monitor.leave(p)),
        DropAll => whom(monitor.drop_all(p)),
        _ => Refused,
    })
}

/// A monitor as text: `1*2 entry 3 urgent 4*1 first 5*1 second 6*1`, without what is empty.
fn text_of(alloc: Global, monitor: &Monitor) -> Result<String, AllocError> {
    let mut text = String::new(alloc);
    match monitor.holder() {
        Some(held) => {
            let held = format!(in alloc; "{}*{}", held.process, held.depth)?;
            text.push_str(held.as_str())?;
        }
        None => text.push_str("free")?,
    }
    let kept = monitor.to_record(alloc)?;
    for (i, p) in kept.entry.as_slice().iter().enumerate() {
        if i == 0 {
            text.push_str(" entry")?;
        }
        let p = format!(in alloc; " {p}")?;
        text.push_str(p.as_str())?;
    }
    add_holds(alloc, &mut text, " urgent", kept.urgent.as_slice())?;
    for (queue, name) in kept.conditions.as_slice().iter().zip([" first", " second"]) {
        add_holds(alloc, &mut text, name, queue.as_slice())?;
    }
    Ok(text)
}

fn add_holds(
    alloc: Global,
    text: &mut String,
    name: &str,
    holds: &[Hold],
) -> Result<(), AllocError> {
    if holds.is_empty() {
        return Ok(());
    }
    text.push_str(name)?;
    for held in holds {
        let held = format!(in alloc; " {}*{}", held.process, held.depth)?;
        text.push_str(held.as_str())?;
    }
    Ok(())
}

/// The text of a monitor that was written and read.
fn text_after_travel(alloc: Global, monitor: &Monitor) -> Result<String, AllocError> {
    let kept = monitor.to_record(alloc)?;
    let arrived = Monitor::from_record(alloc, &kept)?;
    text_of(alloc, &arrived)
}

/// The answer of the last of these acts, where there is one.
fn play(monitor: &mut Monitor, words: &str) -> Result<Option<Answer>, AllocError> {
    let mut last = None;
    for word in words.as_bytes().split(|b| *b == b' ') {
        if let Some((p, act)) = act_of(word) {
            last = Some(acts(monitor, p, act)?);
        }
    }
    Ok(last)
}

/// What an act answers after others, and the monitor then, as it is and as it arrives.
fn trial(
    alloc: Global,
    before: &str,
    act: &str,
) -> Result<(Option<Answer>, String, String), AllocError> {
    let mut monitor = Monitor::new(alloc, 2)?;
    play(&mut monitor, before)?;
    let answer = play(&mut monitor, act)?;
    let text = text_of(alloc, &monitor)?;
    let arrived = text_after_travel(alloc, &monitor)?;
    Ok((answer, text, arrived))
}

#[test]
fn each_act_in_each_of_its_states(rt: HostRuntime) -> Result<(), Fail> {
    let rows = [
        ("", "1e", Entered, "1*1"),
        ("1e", "1e", Entered, "1*2"),
        ("1e", "2e", Queued, "1*1 entry 2"),
        ("1e 2e", "3e", Queued, "1*1 entry 2 3"),
        ("1e 2e", "2e", Refused, "1*1 entry 2"),
        ("1e 2e", "2l", Refused, "1*1 entry 2"),
        ("1e 1e", "1l", Nobody, "1*1"),
        ("1e", "1l", Nobody, "free"),
        ("1e 2e 3e", "1l", Grants(2), "2*1 entry 3"),
        ("1e 1w0 2e 2e 2s0 3e", "1l", Grants(2), "2*2 entry 3"),
        (
            "1e 1w0 2e 2w1 3e 3s0 1s1",
            "2l",
            Grants(1),
            "1*1 urgent 3*1",
        ),
        ("1e 2e", "2w0", Refused, "1*1 entry 2"),
        ("1e 1e", "1w0", Nobody, "free first 1*2"),
        ("1e 2e", "1w1", Grants(2), "2*1 second 1*1"),
        ("1e 1w0 2e", "2w0", Nobody, "free first 1*1 2*1"),
        (
            "1e 1w0 2e 2s0 3e",
            "1w0",
            Grants(2),
            "2*1 entry 3 first 1*1",
        ),
        ("1e 2e", "2s0", Refused, "1*1 entry 2"),
        ("1e 2e", "1s0", Nobody, "1*1 entry 2"),
        ("1e 1w1 2e", "2s0", Nobody, "2*1 second 1*1"),
        (
            "1e 1e 1w0 2e 2e 3e",
            "2s0",
            Grants(1),
            "1*2 entry 3 urgent 2*2",
        ),
        (
            "1e 1w0 2e 2w0 3e",
            "3s0",
            Grants(1),
            "1*1 urgent 3*1 first 2*1",
        ),
        (
            "1e 1w0 2e 2w1 3e 3s0",
            "1s1",
            Grants(2),
            "2*1 urgent 3*1 1*1",
        ),
        ("1e 2e", "2d", Refused, "1*1 entry 2"),
        ("1e 1e", "1d", Nobody, "free"),
        ("1e 1e 2e", "1d", Grants(2), "2*1"),
        ("1e 1w0 2e 2s0 3e 1e", "1d", Grants(2), "2*1 entry 3"),
    ];
    for (before, act, wanted, after) in rows {
        let (answer, text, arrived) = trial(rt.alloc(), before, act)?;
        assert_eq!(rt; answer, Some(wanted), "{act} after {before}");
        assert_eq!(rt; text.as_str(), after, "{act} after {before}");
        assert_eq!(rt; arrived.as_str(), after, "{act} after {before}");
    }
    Ok(())
}

/// A process that waits in the monitor takes no turn.
fn turns(monitor: &mut Monitor, p: u32, plan: &[Act], next: &mut usize) -> Result<(), AllocError> {
    if !monitor.waits_nowhere(p) {
        return Ok(());
    }
    if *next < plan.len() {
        let _answer = acts(monitor, p, plan[*next])?;
        *next += 1;
    }
    Ok(())
}

/// Process 1 enters, waits and leaves; process 2 enters, signals and leaves. The monitor at the end of their turns.
fn end_of(alloc: Global, order: &str) -> Result<String, AllocError> {
    let mut monitor = Monitor::new(alloc, 1)?;
    let mut first = 0;
    let mut second = 0;
    for who in order.as_bytes() {
        if *who == b'1' {
            turns(&mut monitor, 1, &[Enter, Wait(0), Leave], &mut first)?;
        } else {
            turns(&mut monitor, 2, &[Enter, Signal(0), Leave], &mut second)?;
        }
    }
    text_of(alloc, &monitor)
}

#[test]
fn two_processes_in_every_order(rt: HostRuntime) -> Result<(), Fail> {
    let ends = [
        ("111222", "1*1 urgent 2*1"),
        ("112122", "1*1 urgent 2*1"),
        ("112212", "free"),
        ("112221", "2*1"),
        ("121122", "1*1 urgent 2*1"),
        ("121212", "free"),
        ("121221", "2*1"),
        ("122112", "1*1 urgent 2*1"),
        ("122121", "2*1"),
        ("122211", "2*1 first 1*1"),
        ("211122", "1*1"),
        ("211212", "1*1"),
        ("211221", "free first 1*1"),
        ("212112", "1*1"),
        ("212121", "free first 1*1"),
        ("212211", "free first 1*1"),
        ("221112", "1*1"),
        ("221121", "free first 1*1"),
        ("221211", "free first 1*1"),
        ("222111", "free first 1*1"),
    ];
    for (order, end) in ends {
        let text = end_of(rt.alloc(), order)?;
        assert_eq!(rt; text.as_str(), end, "{order}");
    }
    Ok(())
}
