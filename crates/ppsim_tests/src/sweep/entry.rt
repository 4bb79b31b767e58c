//! The program from the words of its environment, which need not be UTF-8.

use pp_sim::run_main;
use std::env::{Env, FillError};
use std::process::ExitCode;
use test_bench::{HANDOFF, HANDOFF_TEXT, Sink, Source};

/// An environment with these words.
#[derive(Drop)]
struct Words<'a>(&'a [&'a [u8]]);

impl Env for Words<'_> {
    fn arg(&self, i: usize, buf: &mut [u8]) -> Result<usize, FillError> {
        let Some(word) = self.0.get(i) else {
            return Err(FillError::NotPresent);
        };
        if buf.len() < word.len() {
            return Err(FillError::TooLong);
        }
        buf[..word.len()].copy_from_slice(word);
        Ok(word.len())
    }

    fn var(&self, _name: &str, _buf: &mut [u8]) -> Result<usize, FillError> {
        Err(FillError::NotPresent)
    }

    fn var_at(&self, _i: usize, _buf: &mut [u8]) -> Result<usize, FillError> {
        Err(FillError::NotPresent)
    }
}

/// Words, and the status, the output, the standard error and the number of reads of their run.
const RUNS: [(&[&[u8]], u8, &str, &str, usize); 2] = [
    (
        &[b"ppsim", b"barrel", b"--turns", b"4\xff"],
        2,
        "",
        "ppsim: a word is not UTF-8\n",
        0,
    ),
    (
        &[b"ppsim", b"barrel", b"--turns", b"40"],
        0,
        HANDOFF_TEXT,
        "",
        HANDOFF.len() + 1,
    ),
];

/// In place, since the runtime has threads in a test alone.
#[test]
fn words_of_a_run(rt: HostRuntime) {
    for &(words, status, output, error, calls) in &RUNS {
        let mut input = Source::new(HANDOFF.as_bytes(), 1, None);
        let (mut written, mut told) = (Sink::ample(rt.alloc()), Sink::ample(rt.alloc()));
        let ended = run_main(&rt, &Words(words), &mut input, &mut written, &mut told);
        assert!(rt;
            ended == ExitCode::from(status)
                && written.taken() == output.as_bytes()
                && told.taken() == error.as_bytes()
                && input.calls() as usize == calls,
            "{status}"
        );
    }
}
