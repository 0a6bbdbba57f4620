//! Plays a scenario from standard input, line by line, and prints the answers.
#![tactic(auto)]

mod play;

use play::Player;
use std::io::{BufRead, BufReader, BufWriter, Write};

fn run(rt: &HostRuntime) -> anyhow::Result<()> {
    let heap = rt.alloc();
    let mut out = BufWriter::new(heap, rt.stdout())?;
    let mut player = Player::new();
    for line in BufReader::new(heap, rt.stdin())?.lines(heap) {
        let line = line?;
        if let Some(answer) = player.play(heap, line.as_str())? {
            out.write_all(answer.as_bytes())?;
            out.write_all(b"\n")?;
        }
    }
    out.flush()?;
    Ok(())
}

fn main(rt: HostRuntime) -> anyhow::Result<()> {
    run(&rt)
}
