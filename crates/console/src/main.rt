// Answers each line of the standard input, over a new book.
#![tactic(auto)]

use anyhow::anyhow;
use book::Book;
use protocol::{answer_text, lines_in, read_input, respond};

fn run(rt: &HostRuntime) -> anyhow::Result<()> {
    let memory = rt.alloc();
    let input = read_input(rt.alloc(), rt.stdin())?;
    let Ok(mut book) = Book::new(&memory) else {
        return Err(anyhow!("no memory for a book"));
    };
    for line in lines_in(input.as_slice()) {
        let answer = respond(&mut book, &memory, line);
        let text = answer_text(memory, &answer)?;
        println!(rt; "{text}")?;
    }
    Ok(())
}

fn main(rt: HostRuntime) -> anyhow::Result<()> {
    run(&rt)
}
