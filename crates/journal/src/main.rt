// The journal printer on standard input and output, from a fresh store.
#![tactic(auto)]

use desk::Desk;
use journal_input::WINDOW_BYTES;
use journal_printer::{Ending, Failure, LIST_BYTES};
use page::BUFFER_BYTES;
use std::io;

fn main(rt: HostRuntime) -> io::Result<()> {
    let mut pages = [0u8; BUFFER_BYTES];
    let mut window = [0u8; WINDOW_BYTES];
    let mut list = [0u8; LIST_BYTES];
    let mut desk = Desk::fresh();
    fresh::begin(&mut desk, &mut pages);
    let ran = journal_printer::print_journal(
        &mut rt.reader(),
        &mut io::writer(&rt),
        &mut desk,
        &mut pages,
        &mut window,
        &mut list,
    );
    tell(&rt, ran)
}

// A word on standard error where the printer did not come to its end.
fn tell(rt: &impl Eprint, ran: Result<Ending, Failure>) -> io::Result<()> {
    match ran {
        Err(failure) => eprintln!(rt; "journal: {failure}"),
        Ok(ending @ Ending::CountEnded) => eprintln!(rt; "journal: {ending}"),
        Ok(Ending::InputEnded | Ending::NumberThree) => Ok(()),
    }
}
