//! A program that runs `disk_host` over real files, step by step, and says which step answers otherwise than is wanted.
//!
//! The steps are lines of its input, the file `stdin` of this crate, each with the answer that is wanted. Each scene has
//! a folder and objects of its own. They are data, since to prove a test is to prove each of its steps anew.
//! Start at `stdin`, then at `player.rt`. `folder.rt`, `vault.rt` and `outside.rt` make the steps, and `system.rt`
//! stands between the adapters and the system. Proved: it is safe and ends.
#![tactic(auto)]

mod answer;
mod array;
mod causes;
mod folder;
mod outside;
mod player;
mod scene;
mod system;
mod vault;
mod words;

use answer::Answer;
use player::Player;
use std::alloc::{AllocError, Global};
use std::io;

fn main(rt: HostRuntime) -> io::Result<()> {
    let mut player = Player::new(rt);
    let mut steps = 0u64;
    let mut wrong = 0u64;
    for line in rt.lines(rt.alloc()) {
        let line = line?;
        if is_step(line.as_str()) {
            steps = steps.saturating_add(1);
            let (step, wanted) = parts(line.as_str());
            let got = said(rt.alloc(), player.play(step))?;
            if got.as_str() != wanted {
                wrong = wrong.saturating_add(1);
                println!(rt; "step {steps}, {step}: {got}, and not {wanted}")?;
            }
        }
    }
    println!(rt; "{steps} steps, {wrong} of them with another answer than is wanted")
}

// A line that is neither empty nor a comment.
fn is_step(line: &str) -> bool {
    !line.is_empty() && !line.starts_with('#')
}

// What is done, and what is wanted of it.
fn parts(line: &str) -> (&str, &str) {
    match line.split_once(" = ") {
        Some((step, wanted)) => (step, wanted),
        None => (line, "done"),
    }
}

fn said(alloc: Global, answer: Option<Answer>) -> Result<String, AllocError> {
    match answer {
        Some(answer) => format!(in alloc; "{answer}"),
        None => String::from_str(alloc, "no such step"),
    }
}
