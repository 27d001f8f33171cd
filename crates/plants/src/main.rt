// Loads a table from the rows on the standard input, joins it with a probe, and prints both.
#![tactic(auto)]

mod rows;
mod show;
mod walks;

use anyhow::anyhow;
use joint::join;
use plant::Plant;
use protocol::read_input;
use rows::{Rows, Unread, rows_of};
use show::Shown;
use table::Table;
use walks::show_walk;

fn print_plant<P: Plant>(rt: &HostRuntime, name: &str, plant: &P) -> anyhow::Result<()> {
    print!(rt; "{}", Shown { name, plant })?;
    Ok(())
}

fn show_all(rt: &HostRuntime, rows: &Rows) -> anyhow::Result<()> {
    let mut table = Table::new();
    if let Err(fault) = table.load(rows.states.as_slice(), rows.edges.as_slice(), rows.promises) {
        println!(rt; "{fault}")?;
        return Ok(());
    }
    print_plant(rt, "table", &table)?;
    if rows.walk {
        show_walk(rt, "table", &table)?;
    }
    if let Some(probe) = rows.probe {
        print_plant(rt, "probe", &probe)?;
        let joint = join(&table, &probe);
        print_plant(rt, "joint", &joint)?;
        if rows.walk {
            show_walk(rt, "joint", &joint)?;
        }
    }
    Ok(())
}

fn run(rt: &HostRuntime) -> anyhow::Result<()> {
    let input = read_input(rt.alloc(), rt.stdin())?;
    let Ok(text) = std::str::from_utf8(input.as_slice()) else {
        return Err(anyhow!("the input is no text"));
    };
    match rows_of(rt.alloc(), text) {
        Ok(rows) => show_all(rt, &rows),
        Err(Unread::NoForm(line)) => {
            println!(rt; "line {line} has no known form")?;
            Ok(())
        }
        Err(Unread::NoMemory(e)) => Err(e.into()),
    }
}

fn main(rt: HostRuntime) -> anyhow::Result<()> {
    run(&rt)
}
