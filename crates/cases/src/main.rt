// Compares the library with a brute-force listing of reachable logs and with a second file reader. Prints how much was compared, what was refused, and how
// much was wrong.
#![tactic(auto)]

mod document;
mod each;
mod random;
mod small;

use std::io;
use trial::tally;
use trial::tally::{Counted, Tally};

// Every log of small profiles, logs of random ones, and the cases of document 01, with their files.
fn compare_logs(t: &mut Tally) {
    small::small_profiles(t);
    small::every_pair(t);
    random::small_profiles(20261116, 1500, t);
    random::wide_profiles(7, 100, t);
    document::all_cases(t);
}

// Damaged files, and files made at random.
fn compare_files(t: &mut Tally) {
    trial_files::damages::damage_document(t);
    trial_files::damages::damage_many(40, 40, t);
    trial_files::damages::scatter_many(80, 10000, t);
    trial_files::long_files::long_files(t);
}

fn print(rt: &impl Print, t: &Tally) -> io::Result<()> {
    println!(rt;
        "judge: logs {}, verdict 1 {}, reachable logs {}",
        t.of(Counted::Logs),
        t.of(Counted::Accepted),
        t.of(Counted::Reachable)
    )?;
    println!(rt;
        "table: built {}, records {}, too short {}",
        t.of(Counted::Tables),
        t.of(Counted::Records),
        t.of(Counted::FullTables)
    )?;
    println!(rt;
        "same: pairs {}, same {}",
        t.of(Counted::Pairs),
        t.of(Counted::SamePairs)
    )?;
    println!(rt;
        "first order: logs {}, not their own {}",
        t.of(Counted::FirstOrders),
        t.of(Counted::MovedFirstOrders)
    )?;
    println!(rt;
        "files: written {}, read {}, not refused {}",
        t.of(Counted::Written),
        t.of(Counted::Read),
        t.of(Counted::Told)
    )?;
    println!(rt;
        "log reader: events {}, ends {}",
        t.of(Counted::Events),
        t.of(Counted::Ends)
    )?;
    println!(rt;
        "edges: {}, refusals combined {}",
        t.of(Counted::Edges),
        t.of(Counted::Combined)
    )?;
    println!(rt;
        "one-way masks: logs {}, pairs reachable one way {}",
        t.of(Counted::OneWayLogs),
        t.of(Counted::OneWayPairs)
    )?;
    t.say_refusals(rt)?;
    println!(rt;
        "wrong: judge {}, table {}, same {}, first order {}, refusal {}, file {}, log reader {}, edge {}",
        t.of(Counted::Judge),
        t.of(Counted::Table),
        t.of(Counted::Same),
        t.of(Counted::First),
        t.of(Counted::Refusal),
        t.of(Counted::File),
        t.of(Counted::Event),
        t.of(Counted::Edge)
    )
}

fn main(rt: HostRuntime) -> io::Result<()> {
    let mut t = Tally::new();
    compare_logs(&mut t);
    trial_long::long_logs(&mut t);
    trial_refusals::all_refusals(&mut t);
    compare_files(&mut t);
    print(&rt, &t)
}
