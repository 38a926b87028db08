// Runs document 01's boundaries through the public functions, a line for each call. The file stdout has the lines as they follow from document 01.
#![tactic(auto)]

mod blocks;
mod case;
mod creating;
mod limits;
mod moving;
mod planting;
mod refusing;
mod rewinding;
mod step;
mod store;

use crate::case::Stores;
use std::io;

fn main(rt: HostRuntime) -> io::Result<()> {
    let mut out = rt.stdout();
    let mut stores = Stores::blank();
    for cases in [
        creating::CASES,
        refusing::CASES,
        blocks::CASES,
        limits::CASES,
        moving::CASES,
        rewinding::CASES,
        planting::NEW,
    ] {
        stores.run(&mut out, cases)?;
    }
    planting::compare(&mut out, &stores.new)?;
    stores.run(&mut out, planting::CASES)
}
