//! Runs the commands that pages show, and reports each that ends otherwise than its page says. Then
//! it ends as `ppsim` does with the same words: those that the gate gives it are not all UTF-8, so
//! that status 2 reaches the system.
#![tactic(auto)]

mod ending;
mod escapes;
mod page;
mod session;

use page::{Case, cases_of, first_runs};
use pp_sim::run_main;
use session::Session;
use std::alloc::Global;
use std::fs::{self, Files};
use std::io::Print;
use std::process::ExitCode;
use std::sync::Wait;
use std::thread::Threads;

/// The pages whose commands are run. Links at the top of the repository lead to the first four.
const PAGES: &str = "\
README.md
TUTORIAL.md
VIEWS.md
examples/README.md
examples/exercises/README.md
cases/barrel.md
cases/dead_start.md
cases/threads.md
cases/list.md
cases/lint.md
cases/dump.md
cases/steps.md
cases/state.md
cases/ends.md
cases/memory.md
cases/sessions.md
cases/draw.md
cases/order.md
cases/until.md
cases/test.md
cases/races.md
cases/races_by_chance.md
cases/orders.md
cases/check.md
cases/decks.md
cases/long_decks.md
cases/operations.md
cases/command_line.md
cases/help.md
cases/examples_on_twenty.md
";

fn main(rt: HostRuntime) -> anyhow::Result<ExitCode> {
    for name in PAGES.lines() {
        run_page(&rt, name)?;
    }
    Ok(run_main(
        &rt,
        &rt,
        &mut rt.stdin(),
        &mut rt.stdout(),
        &mut rt.stderr(),
    ))
}

/// Runs the commands of a page, and says whether all is as the page has it.
fn run_page<R: Files + Print + Alloc<A = Global> + Threads + Wait + Sync>(
    rt: &R,
    name: &str,
) -> anyhow::Result<()> {
    let page = String::from_utf8(fs::read(rt, name)?)?;
    let cases = cases_of(rt.alloc(), &page)?;
    for run in &first_runs(rt.alloc(), &page)? {
        if !is_shown(&cases, run) {
            println!(rt; "{name}: {run} is not on the page")?;
        }
    }
    let good = run_cases(rt, name, &cases)?;
    let count = format!(in rt.alloc(); "<!-- {good} cases -->")?;
    if page.lines().any(|line| line == count.as_str()) {
        println!(rt; "{name}: as the page has it")?;
    } else {
        println!(rt;
            "{name}: {good} of {} cases, not as the page says",
            cases.len()
        )?;
    }
    Ok(())
}

/// Runs the cases of a page, reports those that differ, and counts the others.
fn run_cases<R: Files + Print + Alloc<A = Global> + Threads + Wait + Sync>(
    rt: &R,
    name: &str,
    cases: &[Case],
) -> anyhow::Result<u32> {
    let mut session = Session::new(rt.alloc(), name)?;
    let mut good = 0u32;
    for case in cases {
        match session.run(rt, case)? {
            None => good = good.saturating_add(1),
            Some(difference) => report(rt, name, case, difference.as_str())?,
        }
    }
    Ok(good)
}

/// Says where a case stands, and what differs in it.
fn report<R: Print>(rt: &R, name: &str, case: &Case, difference: &str) -> anyhow::Result<()> {
    println!(rt; "{name}, {}", case.heading)?;
    println!(rt; "  $ {}", case.command)?;
    if let Some(text) = &case.text {
        println!(rt; "  {text}")?;
    }
    println!(rt; "  {difference}")?;
    Ok(())
}

/// Whether the page shows this command.
fn is_shown(cases: &[Case], command: &str) -> bool {
    cases.iter().any(|case| case.command.as_str() == command)
}
