//! Programs as users write them, each a module of its own, one after the other, and threads under stress. With the word `views` it
//! measures how fast views answer.
#![tactic(auto)]

mod cluster;
mod pay;
mod stress;
mod views;
mod windows;

use anyhow::{Result, bail};
use std::env;
use std::sync::Wait;
use std::thread::Threads;
use std::time::Clock;

fn main(rt: HostRuntime) -> Result<()> {
    let mut words = env::args(&rt)?;
    let _program = words.next();
    match words.next() {
        None => {
            println!(rt; "pay:")?;
            pay::run(&rt)?;
            run_threads(&rt)
        }
        Some(word) if word.as_str() == "views" => views::tell(&rt),
        Some(word) => bail!("{word} is not views"),
    }
}

// Those that have threads.
fn run_threads<R>(rt: &R) -> Result<()>
where
    R: AllocGlobal + Print + Wait + Threads + Clock + Sync + Copy + Send + Drop + 'static,
{
    println!(rt; "windows:")?;
    windows::run(rt)?;
    println!(rt; "cluster:")?;
    cluster::run(rt)?;
    println!(rt; "stress:")?;
    stress::run(rt)
}
