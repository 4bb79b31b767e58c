//! A deck whose texts can be of any length.

use std::alloc::{AllocError, Global};

/// A deck in which one processor activates a channel and disconnects it, and starts again in its
/// third step.
pub const SESSIONS: &str = "\
PP 0
0100 7405 7505 0375
START 0100
";

/// The text of that deck in the barrel, after `sessions` sessions of three rounds of ten turns: 42
/// bytes for each, and 43 more.
pub fn text_of_sessions(alloc: Global, sessions: u32) -> Result<String, AllocError> {
    let mut text = String::new(alloc);
    for session in 0..sessions {
        let turn = 30 * u64::from(session);
        let lines = format!(in alloc;
            "{:06} PP00 CH05 ACN\n{:06} PP00 CH05 DCN\n",
            turn,
            turn + 10
        )?;
        text.push_str(lines.as_str())?;
    }
    text.push_str("PP00 P=0100 A=000000 RUNNING\nCH05 INACTIVE\n")?;
    Ok(text)
}

/// The same by threads, after three steps for each session: 42 bytes for each, and 41 more.
pub fn report_of_sessions(alloc: Global, sessions: u32) -> Result<String, AllocError> {
    let mut text = String::new(alloc);
    for session in 0..sessions {
        let number = 2 * u64::from(session);
        let lines = format!(in alloc;
            "CH05 {:06} PP00 ACN\nCH05 {:06} PP00 DCN\n",
            number,
            number + 1
        )?;
        text.push_str(lines.as_str())?;
    }
    text.push_str("PP00 P=0100 A=000000 STEPS\nCH05 INACTIVE\n")?;
    Ok(text)
}
